use crate::{Refusal, Status, corun, first_bad};
use co_base::{Limit, MemFiles, MemSink, NoMemory, OpenGate, Span, Undef};
use std::alloc::Global;
use std::test::Fail;

const SEVEN: &str = "int main(){ long a = 7; corun::print(a); return 0; }";

const COUNT: &str =
    "int main() { long i = 0; while (i - 3) { corun::print(i); i = i + 1; } return 0; }";

const OVERFLOW: &str =
    "int main() {\n  long b = 2147483647;\n  while (1) {\n    b = b + b;\n  }\n  return 0;\n}\n";

const TURNS: &str =
    "int main() { long i = 0; while (i - 65537) { corun::print(7); i = i + 1; } return 0; }";

const NO_END: &str = "int main() { while (1) { } return 0; }";

fn words(alloc: Global, all: &[&str]) -> Result<Vec<String>, NoMemory> {
    let mut words = Vec::new(alloc);
    for word in all {
        words.push(String::from_str(alloc, word)?)?;
    }
    Ok(words)
}

#[test]
fn files_are_run(rt: HostRuntime) -> Result<(), Fail> {
    let here = Span { line: 4, col: 9 };
    let start = Span { line: 1, col: 1 };
    let table = [
        (
            SEVEN,
            Status::Finished(0),
            "7\nend main 0\n",
            "count instructions 9 frames 0 ended 0 born 0 died 0\n",
        ),
        (COUNT, Status::Finished(0), "0\n1\n2\nend main 0\n", ""),
        (
            OVERFLOW,
            Status::Undefined(Undef::U5, here),
            "end undefined U5 4:9\n",
            "",
        ),
        (
            NO_END,
            Status::Budget(0),
            "end budget 0\n",
            "count instructions 100000000 frames 0 ended 0 born 0 died 0\n",
        ),
        (
            "",
            Status::Refused(Refusal::S1, start),
            "",
            "refused S1 1:1\n",
        ),
        (
            "int main() {}",
            Status::Refused(Refusal::S1, start),
            "",
            "refused S1 1:1\n",
        ),
    ];
    let alloc = rt.alloc();
    let run = words(alloc, &["run", "a.cpp"])?;
    for (text, status, out_text, err_text) in table {
        let mut files = MemFiles::new(alloc);
        files.add("a.cpp", text.as_bytes())?;
        let mut out = MemSink::new(alloc, 1 << 12)?;
        let mut err = MemSink::slow(alloc, 1 << 12, 5)?;
        assert_eq!(rt;
            corun(&rt, alloc, &run, &mut files, &mut out, &mut err, &OpenGate),
            status
        );
        assert_eq!(rt; out.taken(), out_text.as_bytes());
        if !err_text.is_empty() {
            assert_eq!(rt; err.taken(), err_text.as_bytes());
        }
    }
    Ok(())
}

#[test]
fn prints_have_a_limit(rt: HostRuntime) -> Result<(), Fail> {
    let alloc = rt.alloc();
    let run = words(alloc, &["run", "a.cpp"])?;
    let mut files = MemFiles::new(alloc);
    files.add("a.cpp", TURNS.as_bytes())?;
    let mut out = MemSink::slow(alloc, 1 << 18, 7)?;
    let mut err = MemSink::new(alloc, 1 << 12)?;
    let status = corun(&rt, alloc, &run, &mut files, &mut out, &mut err, &OpenGate);
    assert_eq!(rt; status, Status::Limit(Limit::Prints));
    assert_eq!(rt; out.taken().len(), 65_536 * 2 + 17);
    assert!(rt; out.taken().ends_with(b"7\nend limit prints\n"));
    Ok(())
}

#[test]
fn faults_are_told(rt: HostRuntime) -> Result<(), Fail> {
    let alloc = rt.alloc();
    let run = words(alloc, &["run", "a.cpp"])?;
    let mut files = MemFiles::new(alloc);
    let mut out = MemSink::new(alloc, 64)?;
    let mut err = MemSink::new(alloc, 64)?;
    assert_eq!(rt;
        corun(&rt, alloc, &run, &mut files, &mut out, &mut err, &OpenGate),
        Status::FileFault
    );
    assert_eq!(rt; out.taken(), b"".as_slice());
    assert_eq!(rt; err.taken(), b"file fault\n".as_slice());

    files.add("a.cpp", SEVEN.as_bytes())?;
    let mut out = MemSink::new(alloc, 64)?;
    let mut err = MemSink::new(alloc, 64)?;
    out.fail_at(1)?;
    assert_eq!(rt;
        corun(&rt, alloc, &run, &mut files, &mut out, &mut err, &OpenGate),
        Status::SinkFault
    );
    assert_eq!(rt; out.taken(), b"7\n".as_slice());
    assert_eq!(rt; err.taken(), b"".as_slice());

    let mut out = MemSink::new(alloc, 64)?;
    let mut err = MemSink::new(alloc, 20)?;
    assert_eq!(rt;
        corun(&rt, alloc, &run, &mut files, &mut out, &mut err, &OpenGate),
        Status::SinkFault
    );
    assert_eq!(rt; out.taken(), b"7\nend main 0\n".as_slice());
    assert_eq!(rt; err.taken(), b"count instructions 9".as_slice());
    Ok(())
}

#[test]
fn words_are_judged(rt: HostRuntime) -> Result<(), Fail> {
    let table = [
        (["run", "a.cpp", "more"].as_slice(), Some(2)),
        (["run", "a.cpp"].as_slice(), None),
        (["run", "-a"].as_slice(), Some(1)),
        (["run", ""].as_slice(), Some(1)),
        (["run"].as_slice(), Some(1)),
        (["runs", "a.cpp"].as_slice(), Some(0)),
        (["sim", "a.cpp"].as_slice(), Some(0)),
        ([].as_slice(), Some(0)),
    ];
    for (all, bad) in table {
        let words = words(rt.alloc(), all)?;
        assert_eq!(rt; first_bad(&words), bad);
    }
    Ok(())
}

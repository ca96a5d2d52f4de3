use crate::{
    Failed, Files, MemFiles, MemSink, ReadFault, Sink, StdFiles, StdSink, offer_all, read_all,
};
use std::test::Fail;
use std::{env, fs};

#[test]
fn files_in_memory(rt: HostRuntime) -> Result<(), Fail> {
    let mut files = MemFiles::new(rt.alloc());
    files.add("a", b"zzz")?;
    files.add("a", b"hello")?;
    files.add("empty", b"")?;
    files.fail_at(3)?;
    let mut into = [7; 4];
    assert_eq!(rt; files.read("a", 1, &mut into)?, 4);
    assert_eq!(rt; into, *b"ello");
    assert_eq!(rt; files.read("a", 5, &mut into)?, 0);
    assert_eq!(rt; files.read("b", 0, &mut into), Err(Failed));
    assert_eq!(rt; files.read("a", 0, &mut into), Err(Failed));
    assert_eq!(rt; files.read("empty", 0, &mut into)?, 0);
    let whole = read_all(rt.alloc(), &mut files, "a", 9)?;
    assert_eq!(rt; whole.as_slice(), b"hello".as_slice());
    let front = read_all(rt.alloc(), &mut files, "a", 2)?;
    assert_eq!(rt; front.as_slice(), b"he".as_slice());
    let missing = read_all(rt.alloc(), &mut files, "b", 9);
    assert!(rt; matches!(missing, Err(ReadFault::Failed)));
    Ok(())
}

#[test]
fn long_file(rt: HostRuntime) -> Result<(), Fail> {
    let bytes = vec![in rt.alloc(); 9; 10_000]?;
    let mut files = MemFiles::new(rt.alloc());
    files.add("long", bytes.as_slice())?;
    let whole = read_all(rt.alloc(), &mut files, "long", 1 << 20)?;
    assert!(rt; whole.as_slice() == bytes.as_slice());
    Ok(())
}

#[test]
fn sink_in_memory(rt: HostRuntime) -> Result<(), Fail> {
    let mut sink = MemSink::slow(rt.alloc(), 8, 3)?;
    sink.fail_at(1)?;
    assert_eq!(rt; sink.write(b"abcd")?, 3);
    assert_eq!(rt; sink.write(b"d"), Err(Failed));
    offer_all(&mut sink, b"defg")?;
    assert_eq!(rt; sink.write(b"hij")?, 1);
    assert_eq!(rt; sink.write(b"")?, 0);
    assert_eq!(rt; offer_all(&mut sink, b"k"), Err(Failed));
    assert_eq!(rt; sink.taken(), b"abcdefgh".as_slice());
    let mut wide = MemSink::new(rt.alloc(), 4)?;
    assert_eq!(rt; wide.write(b"abcde")?, 4);
    Ok(())
}

#[test]
fn machine(rt: HostRuntime) -> Result<(), Fail> {
    let place = env::temp_dir(&rt)?.join(rt.alloc(), "co_base_machine_test")?;
    let name = place.as_str();
    fs::write(&rt, name, "hello")?;
    let mut files = StdFiles::new(&rt);
    let whole = read_all(rt.alloc(), &mut files, name, 1 << 20)?;
    assert_eq!(rt; whole.as_slice(), b"hello".as_slice());
    let mut into = [0; 3];
    assert_eq!(rt; files.read(name, 3, &mut into)?, 2);
    fs::remove_file(&rt, name)?;
    assert_eq!(rt; files.read(name, 0, &mut into), Err(Failed));
    offer_all(&mut StdSink::new(rt.stderr()), b"to standard error\n")?;
    offer_all(&mut StdSink::new(rt.stdout()), b"to standard output\n")?;
    Ok(())
}

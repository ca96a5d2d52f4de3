use crate::{ParseFault, has_one_tree, parse};
use std::alloc::{AllocError, Global};
use std::test::Fail;

const EXAMPLE: &[u8] =
    b"int main() { long i = 0; while (i - 3) { corun::print(i); i = i + 1; } return 0; }";

const TREE: &str =
    "Program { names: Items { items: [Text { bytes: [105] }] }, body: Items { items: [\
Declare(0, Int(0, Span { line: 1, col: 23 })), \
While(Name(0, Items { items: [Term { op: Sub, atom: Int(3) }] }, Span { line: 1, col: 33 }), Items { items: [\
Print(Name(0, Items { items: [] }, Span { line: 1, col: 55 })), \
Assign(0, Name(0, Items { items: [Term { op: Add, atom: Int(1) }] }, Span { line: 1, col: 63 }))] })] } }";

/// What may stand before `return 0;`.
const TAKEN: [&[u8]; 7] = [
    b"",
    b"long print = 2147483647; corun::print(print);",
    b"long a = 1; long b = a; b = a - b + 7;",
    b"while (0) { long a = 1; } while (1) { long b = 2; }",
    b"long a=0;while(a){while(a-1){a=a+1;}}",
    b"long\na\n=\n0\n;",
    b"corun :: print ( 5 ) ;",
];

const REFUSED: [&[u8]; 40] = [
    b"x = 1;",
    b"long x = x;",
    b"long x = y;",
    b"while (0) { long x = 1; } x = 2;",
    b"while (0) { long x = 1; } long y = x;",
    b"while (0) { long x = 1; } long x = 2;",
    b"long x = 1; long x = 2;",
    b"long x = 1; while (x) { long x = 2; }",
    b"long main = 1;",
    b"long corun = 1;",
    b"long std = 1;",
    b"long for = 1;",
    b"long int = 1;",
    b"long co_await = 1;",
    b"long X = 1;",
    b"long x1 = 1;",
    b"long x = 2147483648;",
    b"long x = 99999999999999999999;",
    b"long x = 01;",
    b"long x = 00;",
    b"long x = 1a;",
    b"long x = 1_;",
    b"long x = 1 + 2;",
    b"long x = -1;",
    b"long x = 1; x = x +;",
    b"long x = 1; x = x 1;",
    b"long x = 1; x = x + + 1;",
    b"long x = 1; x = x * 2;",
    b"long x = 1; x = (x);",
    b"long x;",
    b"long x = 1",
    b"long = 1;",
    b"while 1 { }",
    b"while (1) { ",
    b"while (1) }",
    b"corun:print(1);",
    b"corun: :print(1);",
    b"corun::prints(1);",
    b"print(1);",
    b"\tlong x = 1;",
];

const WHOLE_REFUSED: [&[u8]; 12] = [
    b"",
    b"int main() {}",
    b"int main() { return0; }",
    b"int main() { return 1; }",
    b"int main() { return 0; } }",
    b"int main() { return 0; } int",
    b"int main() { return 0; ",
    b"intmain() { return 0; }",
    b"int main( { return 0; }",
    b"int main(){return 0;}\r",
    b"int main(){return 0;}\0",
    b"int\tmain(){return 0;}",
];

fn in_main(alloc: Global, body: &[u8]) -> Result<Vec<u8>, AllocError> {
    let mut text = Vec::new(alloc);
    text.extend_from_slice(b"int main() { ")?;
    text.extend_from_slice(body)?;
    text.extend_from_slice(b" return 0; }")?;
    Ok(text)
}

fn takes(alloc: Global, text: &[u8]) -> bool {
    parse(alloc, text).is_ok()
}

fn refuses(alloc: Global, text: &[u8]) -> bool {
    matches!(parse(alloc, text), Err(ParseFault::Syntax))
}

/// So many blocks inside the block of `main`.
fn nested(alloc: Global, count: usize) -> Result<Vec<u8>, AllocError> {
    let mut body = Vec::new(alloc);
    for _ in 0..count {
        body.extend_from_slice(b"while (0) {")?;
    }
    for _ in 0..count {
        body.extend_from_slice(b"}")?;
    }
    in_main(alloc, body.as_slice())
}

/// A sum of so many operators.
fn long_sum(alloc: Global, count: usize) -> Result<Vec<u8>, AllocError> {
    let mut body = Vec::new(alloc);
    body.extend_from_slice(b"long x = 1; x = x")?;
    for _ in 0..count {
        body.extend_from_slice(b" - 1")?;
    }
    body.extend_from_slice(b";")?;
    in_main(alloc, body.as_slice())
}

/// So many variables.
fn many_names(alloc: Global, count: u8) -> Result<Vec<u8>, AllocError> {
    let mut body = Vec::new(alloc);
    for i in 0..count {
        body.extend_from_slice(b"long v")?;
        body.extend_from_slice(&[b'a' + i / 26, b'a' + i % 26])?;
        body.extend_from_slice(b" = 1; ")?;
    }
    in_main(alloc, body.as_slice())
}

/// A file of so many bytes.
fn spaced(alloc: Global, count: usize) -> Result<Vec<u8>, AllocError> {
    let mut text = in_main(alloc, b"")?;
    for _ in text.len()..count {
        text.extend_from_slice(b" ")?;
    }
    Ok(text)
}

#[test]
fn the_example_has_this_tree(rt: HostRuntime) -> Result<(), Fail> {
    has_one_tree();
    let program = parse(rt.alloc(), EXAMPLE)?;
    let shown = format!(in rt.alloc(); "{program:?}")?;
    assert_eq!(rt; shown.as_str(), TREE);
    Ok(())
}

#[test]
fn each_rule_refuses(rt: HostRuntime) -> Result<(), Fail> {
    for body in TAKEN {
        let text = in_main(rt.alloc(), body)?;
        assert!(rt; takes(rt.alloc(), text.as_slice()));
    }
    for body in REFUSED {
        let text = in_main(rt.alloc(), body)?;
        assert!(rt; refuses(rt.alloc(), text.as_slice()));
    }
    for text in WHOLE_REFUSED {
        assert!(rt; refuses(rt.alloc(), text));
    }
    Ok(())
}

#[test]
fn each_limit_is_taken_and_one_more_refused(rt: HostRuntime) -> Result<(), Fail> {
    assert!(rt; takes(rt.alloc(), nested(rt.alloc(), 31)?.as_slice()));
    assert!(rt; refuses(rt.alloc(), nested(rt.alloc(), 32)?.as_slice()));
    assert!(rt; takes(rt.alloc(), long_sum(rt.alloc(), 64)?.as_slice()));
    assert!(rt; refuses(rt.alloc(), long_sum(rt.alloc(), 65)?.as_slice()));
    assert!(rt; takes(rt.alloc(), many_names(rt.alloc(), 32)?.as_slice()));
    assert!(rt; refuses(rt.alloc(), many_names(rt.alloc(), 33)?.as_slice()));
    assert!(rt; takes(rt.alloc(), spaced(rt.alloc(), 1_048_576)?.as_slice()));
    assert!(rt; refuses(rt.alloc(), spaced(rt.alloc(), 1_048_577)?.as_slice()));
    Ok(())
}

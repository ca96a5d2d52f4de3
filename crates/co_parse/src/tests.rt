use crate::{ParseFault, parse};
use co_lex::lex;
use std::test::Fail;

#[test]
fn the_first_fault_has_its_place(rt: HostRuntime) -> Result<(), Fail> {
    let alloc = rt.alloc();
    let Ok(tokens) = lex(alloc, b"int main() { return 1 +; }") else {
        return Ok(());
    };
    let is_there =
        matches!(parse(alloc, tokens.as_slice()), Err(ParseFault::Syntax(at)) if at.line == 1 && at.col == 24);
    assert!(&rt; is_there);
    Ok(())
}

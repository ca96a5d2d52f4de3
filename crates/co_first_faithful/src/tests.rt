use crate::run_program;
use co_first_exec::Stop;
use co_first_tree::Program;
use sqlite_items::Items;
use std::test::Fail;

#[test]
fn the_empty_program_ends(rt: HostRuntime) -> Result<(), Fail> {
    let program = Program {
        names: Items::new(rt.alloc()),
        body: Items::new(rt.alloc()),
    };
    let local = run_program(rt.alloc(), &program, 10)?;
    assert!(rt; local.prints().is_empty());
    assert!(rt; local.stop() == Stop::Main(0));
    assert_eq!(rt; local.made(), 1);
    Ok(())
}

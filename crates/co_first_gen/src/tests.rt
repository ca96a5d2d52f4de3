use crate::generate;
use co_base::{NoMemory, Span};
use co_first_exec::{Local, Stop, run};
use co_first_tree::{Atom, Program, Stmt, Sum, SumOp, Term};
use sqlite_items::Items;
use std::alloc::Global;
use std::test::Fail;

const AT: Span = Span { line: 1, col: 1 };

// The variable 0 and these terms.
fn sum_of(alloc: Global, terms: &[Term]) -> Result<Sum, NoMemory> {
    Ok(Sum::Name(0, Items::from_slice(alloc, terms)?, AT))
}

// long i = 0; while (i - 3) { corun::print(i); i = i + 3 - 2; }
fn counting(alloc: Global) -> Result<Program, NoMemory> {
    let three = Term {
        op: SumOp::Sub,
        atom: Atom::Int(3),
    };
    let more = Term {
        op: SumOp::Add,
        atom: Atom::Int(3),
    };
    let less = Term {
        op: SumOp::Sub,
        atom: Atom::Int(2),
    };
    let mut body = Items::new(alloc);
    body.push(Stmt::Print(sum_of(alloc, &[])?))?;
    body.push(Stmt::Assign(0, sum_of(alloc, &[more, less])?))?;
    let mut main = Items::new(alloc);
    main.push(Stmt::Declare(0, Sum::Int(0, AT)))?;
    main.push(Stmt::While(sum_of(alloc, &[three])?, body))?;
    Ok(Program {
        names: Items::new(alloc),
        body: main,
    })
}

#[test]
fn a_loop_counts(rt: HostRuntime) -> Result<(), Fail> {
    let program = counting(rt.alloc())?;
    let image = generate(rt.alloc(), &program)?;
    let mut local = Local::new(rt.alloc(), 1, 1000)?;
    run(&image, &mut local);
    assert!(rt; local.prints() == [0, 1, 2].as_slice());
    assert!(rt; local.stop() == Stop::Main(0));
    Ok(())
}

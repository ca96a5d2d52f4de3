use crate::{Image, Instr, Local, Placed, Stop, exec_one, run};
use co_base::{Limit, NoMemory, Num, Op, Span, Undef};
use sqlite_items::Items;
use std::alloc::Global;
use std::test::Fail;

// The instructions one after the other, each with its place in the list as its column.
fn image_of(alloc: Global, instrs: &[Instr]) -> Result<Image, NoMemory> {
    let mut code = Items::new(alloc);
    for (at, instr) in instrs.iter().enumerate() {
        let col = if at < 1000 { at as u32 } else { 1000 };
        code.push(Placed {
            instr: *instr,
            span: Span { line: 1, col },
        })?;
    }
    Ok(Image { code })
}

// Whether the run of these instructions, with two slots, comes to this.
fn ends(
    alloc: Global,
    instrs: &[Instr],
    budget: u64,
    prints: &[i64],
    stop: Stop,
    made: u64,
) -> Result<bool, NoMemory> {
    let image = image_of(alloc, instrs)?;
    let mut local = Local::new(alloc, 2, budget)?;
    run(&image, &mut local);
    Ok(local.prints() == prints && local.stop() == stop && local.made() == made)
}

const UNLAWFUL: Stop = Stop::Undefined(Undef::U12, Span { line: 0, col: 0 });

#[test]
fn each_instruction(rt: HostRuntime) -> Result<(), Fail> {
    // 5 - 7, by way of slot 1
    let difference = [
        Instr::Slot(1),
        Instr::Push,
        Instr::Const(7),
        Instr::Pop,
        Instr::Store,
        Instr::Const(5),
        Instr::Push,
        Instr::Slot(1),
        Instr::Load,
        Instr::Pop,
        Instr::Arith(Op::Sub, Num::Long),
        Instr::Print,
        Instr::MainRet,
    ];
    assert!(rt; ends(rt.alloc(), &difference, 100, &[-2], Stop::Main(0), 13)?);
    assert!(rt; ends(rt.alloc(), &difference, 13, &[-2], Stop::Main(0), 13)?);
    assert!(rt; ends(rt.alloc(), &difference, 12, &[-2], Stop::Budget, 12)?);
    assert!(rt; ends(rt.alloc(), &difference, 0, &[], Stop::Budget, 0)?);
    // a jump over a print where a is 0, and none where it is not
    let skip = [
        Instr::Const(0),
        Instr::JumpZ(3),
        Instr::Print,
        Instr::Const(1),
        Instr::JumpZ(6),
        Instr::Print,
        Instr::MainRet,
    ];
    assert!(rt; ends(rt.alloc(), &skip, 100, &[1], Stop::Main(0), 6)?);
    Ok(())
}

#[test]
fn each_stop(rt: HostRuntime) -> Result<(), Fail> {
    let most = [
        Instr::Const(i64::MAX),
        Instr::Push,
        Instr::Const(1),
        Instr::Pop,
        Instr::Arith(Op::Add, Num::Long),
    ];
    assert!(rt;
        ends(
            rt.alloc(),
            &most,
            100,
            &[],
            Stop::Undefined(Undef::U5, Span { line: 1, col: 4 }),
            5,
        )?
    );
    assert!(rt;
        ends(
            rt.alloc(),
            &[Instr::Arith(Op::Mul, Num::Long)],
            100,
            &[],
            UNLAWFUL,
            1,
        )?
    );
    assert!(rt; ends(rt.alloc(), &[], 100, &[], UNLAWFUL, 1)?);
    assert!(rt; ends(rt.alloc(), &[Instr::Jump(7)], 100, &[], UNLAWFUL, 2)?);
    assert!(rt;
        ends(
            rt.alloc(),
            &[Instr::Slot(16384), Instr::Load],
            100,
            &[],
            UNLAWFUL,
            2,
        )?
    );
    assert!(rt;
        ends(
            rt.alloc(),
            &[Instr::Pop, Instr::Pop, Instr::Pop],
            100,
            &[],
            UNLAWFUL,
            3,
        )?
    );
    // 16,382 words are free above two slots
    let pushes = [Instr::Push, Instr::Jump(0)];
    assert!(rt;
        ends(
            rt.alloc(),
            &pushes,
            100_000,
            &[],
            Stop::Limit(Limit::Stack),
            32765
        )?
    );
    Ok(())
}

#[test]
fn prints_are_limited(rt: HostRuntime) -> Result<(), Fail> {
    let image = image_of(rt.alloc(), &[Instr::Print, Instr::Jump(0)])?;
    let mut local = Local::new(rt.alloc(), 0, 1_000_000)?;
    exec_one(&image, &mut local);
    assert_eq!(rt; local.prints().len(), 1);
    assert!(rt; local.stop() == Stop::Running);
    run(&image, &mut local);
    assert_eq!(rt; local.prints().len(), 65536);
    assert!(rt; local.stop() == Stop::Limit(Limit::Prints));
    assert_eq!(rt; local.made(), 131073);
    Ok(())
}

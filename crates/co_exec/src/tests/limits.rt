//! Each limit, met at its number.
use super::{ending, run};
use co_base::NoMemory;
use co_code::{Instr, ThrownKind};
use std::alloc::Global;
use std::test::Fail;

struct Row {
    code: &'static [Instr],
    end: u32,
    instructions: u64,
}

const ROWS: [Row; 9] = [
    // 65,536 prints, each with a jump, and the one that is refused
    Row {
        code: &[Instr::Print, Instr::Jump(0)],
        end: 23,
        instructions: 131_073,
    },
    // 1,023 calls, and the one that is refused
    Row {
        code: &[
            Instr::Call(1),
            Instr::Off,
            Instr::Off,
            Instr::Off,
            Instr::Call(1),
        ],
        end: 21,
        instructions: 1024,
    },
    // 16,380 words above the 4 of `main`
    Row {
        code: &[Instr::Push, Instr::Jump(0)],
        end: 24,
        instructions: 32_761,
    },
    Row {
        code: &[Instr::Raise(16_380), Instr::Raise(0), Instr::Raise(1)],
        end: 24,
        instructions: 3,
    },
    // 1,024 exceptions that are handled
    Row {
        code: &[
            Instr::Const(3),
            Instr::Throw(ThrownKind::Int),
            Instr::Off,
            Instr::Catch,
            Instr::Jump(0),
        ],
        end: 25,
        instructions: 4099,
    },
    // 65,536 cells, and then each of them found full
    Row {
        code: &[Instr::Const(6), Instr::Post, Instr::Jump(1)],
        end: 22,
        instructions: 196_609,
    },
    // the words behind the stack, but for the size word; and one more
    Row {
        code: &[
            Instr::Const(2_015_214),
            Instr::Take,
            Instr::Const(1),
            Instr::Take,
        ],
        end: 20,
        instructions: 4,
    },
    Row {
        code: &[Instr::Const(2_015_215), Instr::Take],
        end: 20,
        instructions: 2,
    },
    // the budget
    Row {
        code: &[Instr::Jump(0)],
        end: 30,
        instructions: 200_000,
    },
];

// The number of the first row that does not hold.
fn first_failing(alloc: Global, rows: &[Row]) -> Result<Option<usize>, NoMemory> {
    for (n, row) in rows.iter().enumerate() {
        let local = run(alloc, row.code)?;
        if ending(local.stop()) != row.end || local.counts().instructions != row.instructions {
            return Ok(Some(n));
        }
    }
    Ok(None)
}

#[test]
fn limits(rt: HostRuntime) -> Result<(), Fail> {
    assert_eq!(rt; first_failing(rt.alloc(), &ROWS)?, None);
    let local = run(rt.alloc(), &[Instr::Print, Instr::Jump(0)])?;
    assert_eq!(rt; local.prints().len(), 65_536);
    Ok(())
}

//! Hand-assembled images: what each instruction prints and where it stops, by the table in `docs/MACHINE.md`.
ghost use Rattle.std.specs.Prelude.{◌≡◌, ◌≤◌, IfOk, length};

mod board;
mod limits;

use crate::exec::exec_one;
use crate::local::Local;
use co_base::{AtomicKind, CatchOf, NoMemory, Num, Op, Print, Span, Text};
use co_code::{FuncCode, Image, Instr, PointCode, Register, RowCode, RowKind, ThrownKind};
use co_machine::{Limits, StopKind, Turn};
use co_words::VecWords;
use sqlite_items::Items;
use std::alloc::Global;
use std::test::Fail;

// How a run has ended: not at all, by an undefined act 1 to 12, by a limit from 20 on, by its budget, uncaught.
fn ending(stop: Option<(u64, StopKind)>) -> u32 {
    match stop {
        None => 0,
        Some((_, StopKind::Undefined(u, _))) => 1 + u as u32,
        Some((_, StopKind::Limit(limit))) => 20 + limit as u32,
        Some((_, StopKind::Budget)) => 30,
        Some((_, StopKind::Uncaught(_))) => 31,
        Some((_, StopKind::Seen)) => 32,
    }
}

struct Row {
    code: &'static [Instr],
    prints: &'static [i64],
    end: u32,
}

const A: Register = Register::A;

const B: Register = Register::B;

const C: Register = Register::C;

static ROWS: [Row; 57] = [
    Row {
        code: &[Instr::Const(7), Instr::Print, Instr::MainRet],
        prints: &[7],
        end: 0,
    },
    Row {
        code: &[
            Instr::Const(5),
            Instr::Move(B, A),
            Instr::Const(1),
            Instr::Move(A, B),
            Instr::Print,
            Instr::MainRet,
        ],
        prints: &[5],
        end: 0,
    },
    Row {
        code: &[
            Instr::Const(4294967299),
            Instr::Convert(Num::Int),
            Instr::Print,
            Instr::MainRet,
        ],
        prints: &[3],
        end: 0,
    },
    Row {
        code: &[
            Instr::Const(2),
            Instr::Move(B, A),
            Instr::Const(3),
            Instr::Arith(Op::Sub, Num::Long),
            Instr::Print,
            Instr::MainRet,
        ],
        prints: &[-1],
        end: 0,
    },
    Row {
        code: &[
            Instr::Const(2147483647),
            Instr::Move(B, A),
            Instr::Const(1),
            Instr::Arith(Op::Add, Num::Int),
        ],
        prints: &[],
        end: 5,
    },
    Row {
        code: &[Instr::Arith(Op::Add, Num::Bool)],
        prints: &[],
        end: 12,
    },
    Row {
        code: &[
            Instr::AtSlot(1),
            Instr::Const(9),
            Instr::Store(Num::Long),
            Instr::Const(0),
            Instr::Slot(1),
            Instr::Load(Num::Long),
            Instr::Print,
            Instr::MainRet,
        ],
        prints: &[9],
        end: 0,
    },
    Row {
        code: &[Instr::Const(0), Instr::Load(Num::Long)],
        prints: &[],
        end: 12,
    },
    Row {
        code: &[
            Instr::Const(4),
            Instr::Push,
            Instr::Top(1),
            Instr::Load(Num::Long),
            Instr::Print,
            Instr::Pop(B),
            Instr::Move(A, B),
            Instr::Print,
            Instr::MainRet,
        ],
        prints: &[4, 4],
        end: 0,
    },
    Row {
        code: &[Instr::Drop(4), Instr::Drop(1)],
        prints: &[],
        end: 12,
    },
    Row {
        code: &[Instr::Drop(4), Instr::Pop(A)],
        prints: &[],
        end: 12,
    },
    Row {
        code: &[Instr::Top(5)],
        prints: &[],
        end: 12,
    },
    Row {
        code: &[Instr::Check],
        prints: &[],
        end: 4,
    },
    Row {
        code: &[Instr::CheckNew],
        prints: &[],
        end: 10,
    },
    Row {
        code: &[
            Instr::Global(0),
            Instr::Load(Num::Long),
            Instr::Print,
            Instr::Global(1),
        ],
        prints: &[0],
        end: 12,
    },
    Row {
        code: &[
            Instr::JumpZ(2),
            Instr::Off,
            Instr::Const(1),
            Instr::JumpZ(1),
            Instr::Print,
            Instr::Jump(6),
            Instr::MainRet,
        ],
        prints: &[1],
        end: 0,
    },
    Row {
        code: &[Instr::Off],
        prints: &[],
        end: 6,
    },
    Row {
        code: &[Instr::Jump(9)],
        prints: &[],
        end: 12,
    },
    Row {
        code: &[
            Instr::Call(1),
            Instr::Print,
            Instr::MainRet,
            Instr::Off,
            Instr::Const(8),
            Instr::Ret,
        ],
        prints: &[8],
        end: 0,
    },
    Row {
        code: &[
            Instr::Call(1),
            Instr::Off,
            Instr::Off,
            Instr::Off,
            Instr::Call(1),
        ],
        prints: &[],
        end: 21,
    },
    Row {
        code: &[Instr::Raise(20000)],
        prints: &[],
        end: 24,
    },
    Row {
        code: &[Instr::Push, Instr::Jump(0)],
        prints: &[],
        end: 24,
    },
    Row {
        code: &[Instr::Call(2)],
        prints: &[],
        end: 12,
    },
    Row {
        code: &[Instr::Ret],
        prints: &[],
        end: 12,
    },
    Row {
        code: &[Instr::Const(3), Instr::Throw(ThrownKind::Long)],
        prints: &[],
        end: 31,
    },
    Row {
        code: &[
            Instr::Const(3),
            Instr::Throw(ThrownKind::Int),
            Instr::Off,
            Instr::Catch,
            Instr::Move(A, B),
            Instr::Print,
            Instr::Uncatch,
            Instr::MainRet,
        ],
        prints: &[3],
        end: 0,
    },
    Row {
        code: &[
            Instr::Const(3),
            Instr::Throw(ThrownKind::Int),
            Instr::Off,
            Instr::Catch,
            Instr::Jump(0),
        ],
        prints: &[],
        end: 25,
    },
    Row {
        code: &[
            Instr::Jump(4),
            Instr::Off,
            Instr::Off,
            Instr::Off,
            Instr::Exit(11),
            Instr::Off,
            Instr::Off,
            Instr::Const(2),
            Instr::Print,
            Instr::Unwind,
            Instr::Off,
            Instr::Print,
            Instr::MainRet,
        ],
        prints: &[2, 0],
        end: 0,
    },
    Row {
        code: &[Instr::Print, Instr::Jump(0)],
        prints: &[0],
        end: 23,
    },
    Row {
        code: &[Instr::Rethrow],
        prints: &[],
        end: 31,
    },
    Row {
        code: &[Instr::Terminate],
        prints: &[],
        end: 31,
    },
    Row {
        code: &[Instr::Unwind],
        prints: &[],
        end: 12,
    },
    Row {
        code: &[Instr::Catch],
        prints: &[],
        end: 12,
    },
    Row {
        code: &[Instr::Uncatch],
        prints: &[],
        end: 12,
    },
    Row {
        code: &[Instr::Current, Instr::RePtr],
        prints: &[],
        end: 4,
    },
    Row {
        code: &[
            Instr::Const(2),
            Instr::Take,
            Instr::Store(Num::Size),
            Instr::Move(A, B),
            Instr::Field(1),
            Instr::Print,
            Instr::Give,
            Instr::Const(2),
            Instr::Take,
            Instr::Move(A, B),
            Instr::Field(1),
            Instr::Print,
            Instr::MainRet,
        ],
        prints: &[81938, 81938],
        end: 0,
    },
    Row {
        code: &[
            Instr::Take,
            Instr::Store(Num::Size),
            Instr::Move(A, B),
            Instr::Field(1),
            Instr::Give,
            Instr::Give,
        ],
        prints: &[],
        end: 11,
    },
    Row {
        code: &[Instr::Const(3000000), Instr::Take],
        prints: &[],
        end: 20,
    },
    Row {
        code: &[
            Instr::Const(2000000),
            Instr::Take,
            Instr::Const(2000000),
            Instr::Take,
        ],
        prints: &[],
        end: 20,
    },
    Row {
        code: &[
            Instr::Number,
            Instr::Print,
            Instr::Number,
            Instr::Print,
            Instr::MainRet,
        ],
        prints: &[1, 2],
        end: 0,
    },
    Row {
        code: &[
            Instr::Slot(0),
            Instr::Begin(5),
            Instr::Resume,
            Instr::Print,
            Instr::MainRet,
            Instr::Slot(0),
            Instr::Suspend(0),
            Instr::AwaitVoid,
            Instr::Const(5),
            Instr::Print,
            Instr::Ret,
        ],
        prints: &[5, 5],
        end: 0,
    },
    Row {
        code: &[
            Instr::Slot(0),
            Instr::Begin(5),
            Instr::Resume,
            Instr::Print,
            Instr::MainRet,
            Instr::Slot(0),
            Instr::Suspend(1),
            Instr::AwaitVoid,
        ],
        prints: &[],
        end: 2,
    },
    Row {
        code: &[
            Instr::Slot(0),
            Instr::Begin(5),
            Instr::Done,
            Instr::Print,
            Instr::MainRet,
            Instr::Slot(0),
            Instr::Suspend(1),
            Instr::AwaitVoid,
        ],
        prints: &[1],
        end: 0,
    },
    Row {
        code: &[
            Instr::Slot(0),
            Instr::Begin(5),
            Instr::Destroy,
            Instr::Print,
            Instr::MainRet,
            Instr::Slot(0),
            Instr::Suspend(1),
            Instr::AwaitVoid,
            Instr::Const(6),
            Instr::Ret,
        ],
        prints: &[6],
        end: 0,
    },
    Row {
        code: &[
            Instr::Slot(0),
            Instr::Begin(4),
            Instr::Print,
            Instr::MainRet,
            Instr::Const(0),
            Instr::Suspend(0),
            Instr::AwaitBool,
            Instr::Const(3),
            Instr::Ret,
        ],
        prints: &[3],
        end: 0,
    },
    Row {
        code: &[
            Instr::Slot(0),
            Instr::Begin(4),
            Instr::Print,
            Instr::MainRet,
            Instr::Suspend(0),
            Instr::Slot(0),
            Instr::AwaitHandle,
            Instr::Off,
            Instr::Const(2),
            Instr::Ret,
        ],
        prints: &[2],
        end: 0,
    },
    Row {
        code: &[Instr::Unpark],
        prints: &[],
        end: 12,
    },
    Row {
        code: &[
            Instr::Slot(0),
            Instr::Begin(4),
            Instr::Print,
            Instr::MainRet,
            Instr::Suspend(0),
            Instr::Unpark,
            Instr::Const(9),
            Instr::Ret,
        ],
        prints: &[9],
        end: 0,
    },
    Row {
        code: &[
            Instr::Slot(0),
            Instr::Begin(4),
            Instr::Print,
            Instr::MainRet,
            Instr::Suspend(0),
            Instr::AtSlot(0),
            Instr::Const(0),
            Instr::Store(Num::Long),
            Instr::Unpark,
        ],
        prints: &[],
        end: 1,
    },
    Row {
        code: &[
            Instr::Const(6),
            Instr::Resume,
            Instr::Done,
            Instr::Print,
            Instr::Slot(0),
            Instr::Resume,
        ],
        prints: &[0],
        end: 1,
    },
    Row {
        code: &[Instr::Slot(0), Instr::Done],
        prints: &[],
        end: 3,
    },
    Row {
        code: &[
            Instr::Const(10),
            Instr::Promise,
            Instr::Print,
            Instr::FromPromise,
            Instr::Print,
            Instr::Const(6),
            Instr::Post,
            Instr::MainRet,
        ],
        prints: &[12, 10],
        end: 0,
    },
    Row {
        code: &[
            Instr::AtSlot(0),
            Instr::Const(-1),
            Instr::AStore(AtomicKind::Int),
            Instr::Const(2),
            Instr::AAdd(AtomicKind::Int),
            Instr::Print,
            Instr::Const(1),
            Instr::Move(C, A),
            Instr::Const(7),
            Instr::ACas(AtomicKind::Int),
            Instr::Print,
            Instr::Slot(0),
            Instr::ALoad(AtomicKind::Int),
            Instr::Print,
            Instr::MainRet,
        ],
        prints: &[-1, 1, 7],
        end: 0,
    },
    Row {
        code: &[
            Instr::Const(1),
            Instr::Input,
            Instr::Print,
            Instr::Const(9),
            Instr::Input,
            Instr::Print,
            Instr::Inputs,
            Instr::Print,
            Instr::ASwap(AtomicKind::Long),
        ],
        prints: &[-4, 0, 2],
        end: 12,
    },
    Row {
        code: &[Instr::Jump(0)],
        prints: &[],
        end: 30,
    },
    Row {
        code: &[Instr::Const(6), Instr::Post, Instr::Jump(1)],
        prints: &[],
        end: 22,
    },
    Row {
        code: &[
            Instr::Made,
            Instr::Ended,
            Instr::Born,
            Instr::Died,
            Instr::Lit(1),
        ],
        prints: &[],
        end: 12,
    },
];

const FIRST_ROWS: [RowCode; 1] = [RowCode {
    from: 1,
    to: 3,
    place: 3,
    height: 0,
    parked: false,
    kind: RowKind::Catch(CatchOf::Int),
}];

const SECOND_ROWS: [RowCode; 1] = [RowCode {
    from: 4,
    to: 6,
    place: 7,
    height: 0,
    parked: false,
    kind: RowKind::Cleanup,
}];

const POINTS: [PointCode; 2] = [
    PointCode {
        resume: 8,
        cleanup: 9,
    },
    PointCode {
        resume: 8,
        cleanup: 8,
    },
];

fn func(alloc: Global, entry: u32, rows: &[RowCode]) -> Result<FuncCode, NoMemory> {
    let rows = Items::from_slice(alloc, rows)?;
    Ok(FuncCode {
        name: Text::new(alloc),
        entry,
        words: 4,
        coroutine: false,
        noexcept: false,
        rows,
    })
}

fn image_of(alloc: Global, code: &[Instr]) -> Result<Image, NoMemory> {
    let mut funcs = Items::new(alloc);
    funcs.push(func(alloc, 0, &FIRST_ROWS)?)?;
    funcs.push(func(alloc, 4, &SECOND_ROWS)?)?;
    let code = Items::from_slice(alloc, code)?;
    let points = Items::from_slice(alloc, &POINTS)?;
    let globals = Items::from_slice(alloc, &[0])?;
    let spans: [Span; 1] = [Span { line: 1, col: 1 }];
    let spans = Items::from_slice(alloc, &spans)?;
    let mut texts = Items::new(alloc);
    texts.push(Text::from_slice(alloc, b"hello")?)?;
    Ok(Image {
        code,
        funcs,
        points,
        texts,
        globals,
        spans,
        main: 0,
    })
}

fn opening(alloc: Global, size: usize) -> Result<VecWords, NoMemory>
    requires { 5 ≤ size }
    ensures { IfOk result (λ words. length words ≡ size) }
{
    let mut words = vec![in alloc; 0u64; size]?;
    words[3] = 81937;
    words[4] = 1;
    VecWords::new(alloc, words.as_slice())
}

// The turns until the worker stops, is idle or has returned from `main`, and their number.
fn drive(image: &Image, local: &mut Local, words: &mut VecWords) -> u32
    requires size { length words.old ≡ local.old.limits.words }
    requires idles { local.old.tally.idles ≡ 0 }
{
    for turn in 0..300_000u32 {
        match exec_one(image, &[3, -4], local, words) {
            Turn::Went => {}
            Turn::Idle => return turn + 1,
            Turn::Stop(_) => return turn + 1,
        }
        if local.main_value().is_some() {
            return turn + 1;
        }
    }
    300_000
}

fn holds(row: &Row, local: &Local) -> bool {
    let prints = local.prints();
    if ending(local.stop()) != row.end || (row.end != 23 && prints.len() != row.prints.len()) {
        return false;
    }
    for (n, v) in row.prints.iter().enumerate() {
        match prints.get(n) {
            Some((_, Print::Num(w))) => {
                if w != v {
                    return false;
                }
            }
            _ => return false,
        }
    }
    true
}

// Worker 0 after its run, alone, of this code.
fn run(alloc: Global, code: &[Instr]) -> Result<Local, NoMemory> {
    let image = image_of(alloc, code)?;
    let limits = Limits {
        words: 2097152,
        workers: 1,
        budget: 200_000,
    };
    let mut local = Local::new(alloc, &image, &limits, 0)?;
    let mut words = opening(alloc, 2097152)?;
    drive(&image, &mut local, &mut words);
    Ok(local)
}

fn row_holds(alloc: Global, row: &Row) -> Result<bool, NoMemory> {
    let local = run(alloc, row.code)?;
    Ok(holds(row, &local))
}

// The number of the first row that does not hold.
fn first_failing(alloc: Global, rows: &[Row]) -> Result<Option<usize>, NoMemory> {
    for (n, row) in rows.iter().enumerate() {
        if !row_holds(alloc, row)? {
            return Ok(Some(n));
        }
    }
    Ok(None)
}

#[test]
fn instructions(rt: HostRuntime) -> Result<(), Fail> {
    assert_eq!(rt; first_failing(rt.alloc(), &ROWS)?, None);
    Ok(())
}

#[test]
fn texts(rt: HostRuntime) -> Result<(), Fail> {
    let local = run(rt.alloc(), &[Instr::Lit(0), Instr::Print, Instr::MainRet])?;
    let prints = local.prints();
    assert_eq!(rt; prints.len(), 2);
    assert!(rt; matches!(prints.first(), Some((0, Print::Lit(0)))));
    assert!(rt; matches!(prints.last(), Some((1, Print::Num(0)))));
    Ok(())
}

//! The listing of each instruction, with each kind of operand, written by hand.
use crate::image::Image;
use crate::instr::{Instr, Register, ThrownKind};
use crate::listing_lines::dump;
use co_base::{AtomicKind, ClassId, NoMemory, Num, Op};
use sqlite_items::Items;
use std::alloc::Global;
use std::test::Fail;

struct Row {
    code: &'static [Instr],
    listing: &'static str,
}

const ROWS: [Row; 7] = [
    Row {
        code: &[],
        listing: "",
    },
    Row {
        code: &[
            Instr::Const(0),
            Instr::Const(-1),
            Instr::Const(-9223372036854775808),
            Instr::Const(9223372036854775807),
            Instr::Slot(0),
            Instr::Global(7),
            Instr::Field(10),
            Instr::Drop(65536),
            Instr::Jump(4294967295),
            Instr::JumpZ(9),
            Instr::Call(3),
            Instr::Suspend(12),
        ],
        listing: "0 CONST 0\n1 CONST -1\n2 CONST -9223372036854775808\n3 CONST 9223372036854775807\n4 SLOT 0\n5 GLOBAL 7\n6 FIELD 10\n7 DROP 65536\n8 JUMP 4294967295\n9 JUMPZ 9\n10 CALL 3\n11 SUSPEND 12\n",
    },
    Row {
        code: &[
            Instr::Lit(1),
            Instr::AtSlot(2),
            Instr::Top(3),
            Instr::Raise(4),
            Instr::Exit(5),
            Instr::Begin(6),
            Instr::Move(Register::A, Register::B),
            Instr::Move(Register::C, Register::D),
            Instr::Pop(Register::D),
            Instr::Convert(Num::Bool),
            Instr::Convert(Num::Int),
            Instr::Load(Num::Long),
            Instr::Store(Num::Size),
        ],
        listing: "0 LIT 1\n1 ATSLOT 2\n2 TOP 3\n3 RAISE 4\n4 EXIT 5\n5 BEGIN 6\n6 MOVE a b\n7 MOVE c d\n8 POP d\n9 CONVERT bool\n10 CONVERT int\n11 LOAD long\n12 STORE size\n",
    },
    Row {
        code: &[
            Instr::Arith(Op::Add, Num::Int),
            Instr::Arith(Op::Sub, Num::Int),
            Instr::Arith(Op::Mul, Num::Int),
            Instr::Arith(Op::Div, Num::Int),
            Instr::Arith(Op::Rem, Num::Int),
            Instr::Arith(Op::Shl, Num::Long),
            Instr::Arith(Op::Shr, Num::Long),
            Instr::Arith(Op::And, Num::Long),
            Instr::Arith(Op::Or, Num::Long),
            Instr::Arith(Op::Xor, Num::Long),
            Instr::Arith(Op::Lt, Num::Size),
            Instr::Arith(Op::Le, Num::Size),
            Instr::Arith(Op::Gt, Num::Size),
            Instr::Arith(Op::Ge, Num::Size),
            Instr::Arith(Op::Eq, Num::Bool),
            Instr::Arith(Op::Ne, Num::Bool),
        ],
        listing: "0 ARITH add int\n1 ARITH sub int\n2 ARITH mul int\n3 ARITH div int\n4 ARITH rem int\n5 ARITH shl long\n6 ARITH shr long\n7 ARITH and long\n8 ARITH or long\n9 ARITH xor long\n10 ARITH lt size\n11 ARITH le size\n12 ARITH gt size\n13 ARITH ge size\n14 ARITH eq bool\n15 ARITH ne bool\n",
    },
    Row {
        code: &[
            Instr::Throw(ThrownKind::Int),
            Instr::Throw(ThrownKind::Long),
            Instr::Throw(ThrownKind::Bool),
            Instr::Throw(ThrownKind::Class(ClassId(42))),
            Instr::ALoad(AtomicKind::Int),
            Instr::AStore(AtomicKind::Long),
            Instr::ASwap(AtomicKind::Bool),
            Instr::AAdd(AtomicKind::VoidPointer),
            Instr::ACas(AtomicKind::Int),
        ],
        listing: "0 THROW int\n1 THROW long\n2 THROW bool\n3 THROW 42\n4 ALOAD int\n5 ASTORE long\n6 ASWAP bool\n7 AADD voidpointer\n8 ACAS int\n",
    },
    Row {
        code: &[
            Instr::Check,
            Instr::CheckNew,
            Instr::Push,
            Instr::Ret,
            Instr::MainRet,
            Instr::Off,
            Instr::Rethrow,
            Instr::Unwind,
            Instr::Catch,
            Instr::Uncatch,
            Instr::Current,
            Instr::RePtr,
            Instr::Terminate,
            Instr::Take,
            Instr::Give,
            Instr::Number,
        ],
        listing: "0 CHECK\n1 CHECKNEW\n2 PUSH\n3 RET\n4 MAINRET\n5 OFF\n6 RETHROW\n7 UNWIND\n8 CATCH\n9 UNCATCH\n10 CURRENT\n11 REPTR\n12 TERMINATE\n13 TAKE\n14 GIVE\n15 NUMBER\n",
    },
    Row {
        code: &[
            Instr::Made,
            Instr::Ended,
            Instr::Born,
            Instr::Died,
            Instr::AwaitVoid,
            Instr::AwaitBool,
            Instr::Unpark,
            Instr::AwaitHandle,
            Instr::Resume,
            Instr::Destroy,
            Instr::Done,
            Instr::Promise,
            Instr::FromPromise,
            Instr::Post,
            Instr::Print,
            Instr::Input,
            Instr::Inputs,
            Instr::ResultAt,
        ],
        listing: "0 MADE\n1 ENDED\n2 BORN\n3 DIED\n4 AWAITVOID\n5 AWAITBOOL\n6 UNPARK\n7 AWAITHANDLE\n8 RESUME\n9 DESTROY\n10 DONE\n11 PROMISE\n12 FROMPROMISE\n13 POST\n14 PRINT\n15 INPUT\n16 INPUTS\n17 RESULT\n",
    },
];

fn row_holds(alloc: Global, row: &Row) -> Result<bool, NoMemory> {
    let code = Items::from_slice(alloc, row.code)?;
    let image = Image {
        code,
        funcs: Items::new(alloc),
        points: Items::new(alloc),
        texts: Items::new(alloc),
        globals: Items::new(alloc),
        spans: Items::new(alloc),
        main: 0,
    };
    let listing = dump(alloc, &image)?;
    Ok(listing.as_slice() == row.listing.as_bytes())
}

// The number of the first row that does not hold.
fn first_failing(alloc: Global, rows: &[Row]) -> Result<Option<usize>, NoMemory> {
    for (n, row) in rows.iter().enumerate() {
        if !row_holds(alloc, row)? {
            return Ok(Some(n));
        }
    }
    Ok(None)
}

#[test]
fn listings(rt: HostRuntime) -> Result<(), Fail> {
    assert_eq!(rt; first_failing(rt.alloc(), &ROWS)?, None);
    Ok(())
}

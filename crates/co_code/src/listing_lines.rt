ghost use Rattle.std.specs.Prelude.{◌≡◌, ◌++◌, [], codes, decimal, IfOk, OnOk};
ghost use Rattle.std.specs.Fmt.{signed_decimal};
ghost use Rattle.co_code.specs.Listing as listing;

use crate::image::Image;
use crate::instr::{Instr, Register, ThrownKind};
use crate::listing::Listing;
use co_base::{AtomicKind, ClassId, NoMemory, Num, Op};
use sqlite_items::Items;
use std::alloc::Global;

/// The listing of the image: one line per instruction, with its number, its name and its operands, one space apart.
pub fn dump(alloc: Global, image: &Image) -> Result<Items<u8>, NoMemory>
    ensures { IfOk result (λ bytes. bytes ≡ listing.dump_of image.now) }
{
    let mut out = Listing::new(alloc);
    for (n, instr) in image.code.as_slice().iter().enumerate() {
        push_line(&mut out, n as u64, *instr)?;
    }
    Ok(out.into_items())
}

fn push_line(out: &mut Listing, number: u64, instr: Instr) -> Result<(), NoMemory>
    ensures { OnOk result (out.new ≡ out.old ++ listing.line_of number instr) }
{
    out.push_unsigned(number)?;
    out.push(" ")?;
    out.push(instr_name(instr))?;
    push_operands(out, instr)?;
    out.push("\n")?;
    Ok(())
}

fn push_operands(out: &mut Listing, instr: Instr) -> Result<(), NoMemory>
    ensures { OnOk result (out.new ≡ out.old ++ listing.operands instr) }
{
    match instr {
        Instr::Const(v) => signed_operand(out, v),
        Instr::Move(r, s) => two_operands(out, register_name(r), register_name(s)),
        Instr::Convert(num) => operand(out, num_name(num)),
        Instr::Arith(op, num) => two_operands(out, op_name(op), num_name(num)),
        Instr::Slot(n) => unsigned_operand(out, n),
        Instr::Global(n) => unsigned_operand(out, n),
        Instr::Field(n) => unsigned_operand(out, n),
        Instr::Load(num) => operand(out, num_name(num)),
        Instr::Store(num) => operand(out, num_name(num)),
        Instr::Pop(r) => operand(out, register_name(r)),
        Instr::Drop(n) => unsigned_operand(out, n),
        Instr::Jump(n) => unsigned_operand(out, n),
        Instr::JumpZ(n) => unsigned_operand(out, n),
        Instr::Call(n) => unsigned_operand(out, n),
        Instr::Throw(kind) => thrown_operand(out, kind),
        Instr::Suspend(n) => unsigned_operand(out, n),
        Instr::ALoad(kind) => operand(out, atomic_name(kind)),
        Instr::AStore(kind) => operand(out, atomic_name(kind)),
        Instr::ASwap(kind) => operand(out, atomic_name(kind)),
        Instr::AAdd(kind) => operand(out, atomic_name(kind)),
        Instr::ACas(kind) => operand(out, atomic_name(kind)),
        Instr::Lit(n) => unsigned_operand(out, n),
        Instr::AtSlot(n) => unsigned_operand(out, n),
        Instr::Top(n) => unsigned_operand(out, n),
        Instr::Raise(n) => unsigned_operand(out, n),
        Instr::Exit(n) => unsigned_operand(out, n),
        Instr::Begin(n) => unsigned_operand(out, n),
        Instr::Check => Ok(()),
        Instr::CheckNew => Ok(()),
        Instr::Push => Ok(()),
        Instr::Ret => Ok(()),
        Instr::MainRet => Ok(()),
        Instr::Off => Ok(()),
        Instr::Rethrow => Ok(()),
        Instr::Unwind => Ok(()),
        Instr::Catch => Ok(()),
        Instr::Uncatch => Ok(()),
        Instr::Current => Ok(()),
        Instr::RePtr => Ok(()),
        Instr::Terminate => Ok(()),
        Instr::Take => Ok(()),
        Instr::Give => Ok(()),
        Instr::Number => Ok(()),
        Instr::Made => Ok(()),
        Instr::Ended => Ok(()),
        Instr::Born => Ok(()),
        Instr::Died => Ok(()),
        Instr::AwaitVoid => Ok(()),
        Instr::AwaitBool => Ok(()),
        Instr::Unpark => Ok(()),
        Instr::AwaitHandle => Ok(()),
        Instr::Resume => Ok(()),
        Instr::Destroy => Ok(()),
        Instr::Done => Ok(()),
        Instr::Promise => Ok(()),
        Instr::FromPromise => Ok(()),
        Instr::Post => Ok(()),
        Instr::Print => Ok(()),
        Instr::Input => Ok(()),
        Instr::Inputs => Ok(()),
        Instr::ResultAt => Ok(()),
    }
}

fn operand(out: &mut Listing, text: &str) -> Result<(), NoMemory>
    ensures { OnOk result (out.new ≡ out.old ++ listing.operand text.now) }
{
    out.push(" ")?;
    out.push(text)?;
    Ok(())
}

fn two_operands(out: &mut Listing, first: &str, second: &str) -> Result<(), NoMemory>
    ensures { OnOk result (out.new ≡ out.old ++ (listing.operand first.now ++ listing.operand second.now)) }
{
    operand(out, first)?;
    operand(out, second)?;
    Ok(())
}

fn unsigned_operand(out: &mut Listing, n: u32) -> Result<(), NoMemory>
    ensures { OnOk result (out.new ≡ out.old ++ listing.operand (decimal n)) }
{
    out.push(" ")?;
    out.push_unsigned(n as u64)?;
    Ok(())
}

fn signed_operand(out: &mut Listing, v: i64) -> Result<(), NoMemory>
    ensures { OnOk result (out.new ≡ out.old ++ listing.operand (signed_decimal v)) }
{
    out.push(" ")?;
    out.push_signed(v)?;
    Ok(())
}

fn thrown_operand(out: &mut Listing, kind: ThrownKind) -> Result<(), NoMemory>
    ensures { OnOk result (out.new ≡ out.old ++ listing.operand (listing.thrown_name kind)) }
{
    match kind {
        ThrownKind::Int => operand(out, "int"),
        ThrownKind::Long => operand(out, "long"),
        ThrownKind::Bool => operand(out, "bool"),
        ThrownKind::Class(ClassId(class)) => unsigned_operand(out, class),
    }
}

fn register_name(register: Register) -> &'static str
    ensures { result.now ≡ listing.register_name register }
{
    match register {
        Register::A => "a",
        Register::B => "b",
        Register::C => "c",
        Register::D => "d",
    }
}

fn num_name(num: Num) -> &'static str
    ensures { result.now ≡ listing.num_name num }
{
    match num {
        Num::Bool => "bool",
        Num::Int => "int",
        Num::Long => "long",
        Num::Size => "size",
    }
}

fn atomic_name(kind: AtomicKind) -> &'static str
    ensures { result.now ≡ listing.atomic_name kind }
{
    match kind {
        AtomicKind::Int => "int",
        AtomicKind::Long => "long",
        AtomicKind::Bool => "bool",
        AtomicKind::VoidPointer => "voidpointer",
    }
}

fn op_name(op: Op) -> &'static str
    ensures { result.now ≡ listing.op_name op }
{
    match op {
        Op::Add => "add",
        Op::Sub => "sub",
        Op::Mul => "mul",
        Op::Div => "div",
        Op::Rem => "rem",
        Op::Shl => "shl",
        Op::Shr => "shr",
        Op::And => "and",
        Op::Or => "or",
        Op::Xor => "xor",
        Op::Lt => "lt",
        Op::Le => "le",
        Op::Gt => "gt",
        Op::Ge => "ge",
        Op::Eq => "eq",
        Op::Ne => "ne",
    }
}

fn instr_name(instr: Instr) -> &'static str
    ensures { result.now ≡ listing.instr_name instr }
{
    match instr {
        Instr::Const(_) => "CONST",
        Instr::Move(_, _) => "MOVE",
        Instr::Convert(_) => "CONVERT",
        Instr::Arith(_, _) => "ARITH",
        Instr::Slot(_) => "SLOT",
        Instr::Global(_) => "GLOBAL",
        Instr::Field(_) => "FIELD",
        Instr::Check => "CHECK",
        Instr::CheckNew => "CHECKNEW",
        Instr::Load(_) => "LOAD",
        Instr::Store(_) => "STORE",
        Instr::Push => "PUSH",
        Instr::Pop(_) => "POP",
        Instr::Drop(_) => "DROP",
        Instr::Jump(_) => "JUMP",
        Instr::JumpZ(_) => "JUMPZ",
        Instr::Call(_) => "CALL",
        Instr::Ret => "RET",
        Instr::MainRet => "MAINRET",
        Instr::Off => "OFF",
        Instr::Throw(_) => "THROW",
        Instr::Rethrow => "RETHROW",
        Instr::Unwind => "UNWIND",
        Instr::Catch => "CATCH",
        Instr::Uncatch => "UNCATCH",
        Instr::Current => "CURRENT",
        Instr::RePtr => "REPTR",
        Instr::Terminate => "TERMINATE",
        Instr::Take => "TAKE",
        Instr::Give => "GIVE",
        Instr::Number => "NUMBER",
        Instr::Made => "MADE",
        Instr::Ended => "ENDED",
        Instr::Born => "BORN",
        Instr::Died => "DIED",
        Instr::Suspend(_) => "SUSPEND",
        Instr::AwaitVoid => "AWAITVOID",
        Instr::AwaitBool => "AWAITBOOL",
        Instr::Unpark => "UNPARK",
        Instr::AwaitHandle => "AWAITHANDLE",
        Instr::Resume => "RESUME",
        Instr::Destroy => "DESTROY",
        Instr::Done => "DONE",
        Instr::Promise => "PROMISE",
        Instr::FromPromise => "FROMPROMISE",
        Instr::Post => "POST",
        Instr::ALoad(_) => "ALOAD",
        Instr::AStore(_) => "ASTORE",
        Instr::ASwap(_) => "ASWAP",
        Instr::AAdd(_) => "AADD",
        Instr::ACas(_) => "ACAS",
        Instr::Print => "PRINT",
        Instr::Lit(_) => "LIT",
        Instr::Input => "INPUT",
        Instr::Inputs => "INPUTS",
        Instr::AtSlot(_) => "ATSLOT",
        Instr::Top(_) => "TOP",
        Instr::Raise(_) => "RAISE",
        Instr::ResultAt => "RESULT",
        Instr::Exit(_) => "EXIT",
        Instr::Begin(_) => "BEGIN",
    }
}

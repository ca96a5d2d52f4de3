use co_base::{Limit, Num, Op, Span, Undef};
use sqlite_items::Items;

/// One instruction. a and b are registers, fp is the place of the slots, sp the first free word of the stack.
/// A place in the code is counted from 0.
#[derive(Clone, Copy, Debug)]
pub enum Instr {
    /// a = the number.
    Const(i64),
    /// a = b op a, where it is a value of the type; else it is undefined [expr.add].
    Arith(Op, Num),
    /// a = fp + the number of the slot.
    Slot(u32),
    /// a = the word at a.
    Load,
    /// The word at b = a.
    Store,
    /// a goes onto the stack.
    Push,
    /// b = the word on top of the stack, which it leaves.
    Pop,
    /// The run goes on at this place.
    Jump(u64),
    /// The run goes on at this place if a is 0.
    JumpZ(u64),
    /// a joins the prints, as a signed number.
    Print,
    /// `main` has returned 0.
    MainRet,
}

/// An instruction and the place in the file that it stands for.
#[derive(Clone, Copy, Debug)]
pub struct Placed {
    pub instr: Instr,
    pub span: Span,
}

/// What is run: the instructions, the first of which is at place 0.
#[derive(Debug, Drop)]
pub struct Image {
    pub code: Items<Placed>,
}

/// Whether a run goes on, and if not, what ended it.
#[derive(Clone, Copy, Debug, PartialEq, Eq)]
pub enum Stop {
    Running,
    /// `main` has returned this value.
    Main(i32),
    /// An undefined act, at the place in the file where it stands, or at 0:0.
    Undefined(Undef, Span),
    /// As many instructions as the budget allows were made, and there are more to make.
    Budget,
    Limit(Limit),
}

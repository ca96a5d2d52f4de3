use crate::stop::StopKind;
use co_base::Undef;
use co_code::{Instr, RowCode};

/// What a worker's next turn does, every test of its place, its operands and its room made.
#[derive(Clone, Copy)]
pub enum Due {
    /// Nothing: the worker has stopped.
    Rest,
    /// Draws the stamp of a stop: adds 1 to word 1.
    Stamp(StopKind),
    /// Stops the run: stores 1 in word 2.
    Halt(u64, StopKind),
    /// The load of word 2 after so many instructions.
    LoadStop,
    /// A look's load of word 2.
    LookStop,
    /// A look's load of word 5.
    LookMain,
    /// A look's swap of one cell.
    LookCell,
    /// The budget is used up.
    Spent,
    /// The instruction stops the worker, without an access.
    Meet(StopKind),
    /// The taken handle is that of the no-op coroutine.
    PassTaken,
    /// The resume of a taken handle.
    ResumeTaken(u64),
    /// The instruction does nothing more.
    Pass,
    /// A block of this size is at hand at this place.
    Reuse(u64, u64),
    /// The instruction.
    Do(Instr),
    /// The call of a function with this entry, whose frame has so many words.
    Call(u32, u32),
    /// The suspension that stores this state word.
    Park(u64),
}

/// A row and its number among its function's rows.
#[derive(Clone, Copy)]
pub struct Found {
    pub number: u64,
    pub row: RowCode,
}

/// What a swap of a state word finds: a place to go on at, or an undefined act.
#[derive(Clone, Copy)]
pub enum Woken {
    At(u32),
    Not(Undef),
}

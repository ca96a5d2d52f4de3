use crate::instr::{Instr, Stop};
use co_base::Span;

/// What the next turn does.
#[derive(Clone, Copy, Debug)]
pub enum Due {
    /// Nothing: the run has stopped.
    Nothing,
    /// The budget is used up.
    OutOfBudget,
    /// An instruction, or a place outside the code, that stops the run without an access.
    Meets(Stop),
    /// The instruction, which stands for this place in the file.
    Does(Instr, Span),
}

/// The access of a turn to the list of words.
#[derive(Clone, Copy, Debug)]
pub enum Access {
    Private,
    /// Reads the word at this address.
    Loads(u64),
    /// Writes, at this address, this word.
    Stores(u64, u64),
}

/// What an operator makes of two integers.
#[derive(Clone, Copy, Debug)]
pub enum Computed {
    Value(i64),
    /// The result is no value of the type.
    Outside,
    /// The machine has no such operation.
    Absent,
}

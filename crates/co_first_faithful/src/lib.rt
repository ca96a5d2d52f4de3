//! The theorem of the first run: the code of a program does what the program does, at every number of turns.
#![tactic(auto)]

mod faithful;
mod program;

pub use faithful::code_is_faithful;
pub use program::run_program;

#[cfg(test)]
mod tests;

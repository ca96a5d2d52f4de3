//! Whether a list of tokens is a file of the language, and where it is none, the first token that no file has there.
#![tactic(auto)]

mod fault;
mod laws;
mod machine;
mod scanner;
mod stack;
#[cfg(test)]
mod tests;

pub use fault::Fault;
pub use laws::{
    accepts_files, depth_is_first, nearest_if_refuses_none, steps_are_exact, syntax_is_first,
};
pub use machine::{body_for, step};
pub use scanner::{MOST_LEVELS, scan};
pub use stack::Stack;

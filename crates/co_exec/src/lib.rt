//! One turn of a worker: at most one access to the words, and the worker's state after it.
#![tactic(auto)]

mod due;
mod effect;
mod exec;
mod local;
mod tally;
#[cfg(test)]
mod tests;

pub use co_machine::{Limits, Looked, Posted, StopKind, Turn};
pub use exec::{exec_one, look, post};
pub use local::Local;

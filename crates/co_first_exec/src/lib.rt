//! The machine of a run with one worker: its instructions, what each does, and the run of an image to its stop.
#![tactic(auto)]

mod exec;
mod instr;
mod laws;
mod local;
mod prints;
mod turn;
mod words;

pub use exec::{exec_one, run};
pub use instr::{Image, Instr, Placed, Stop};
pub use laws::{limits_hold, stop_is_final};
pub use local::Local;

#[cfg(test)]
mod tests;

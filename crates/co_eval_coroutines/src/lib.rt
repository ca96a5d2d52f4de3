//! How the body of a coroutine begins and ends, how it awaits, is suspended and answered, and how a coroutine ends.
#![tactic(auto)]

mod answering;
mod awaiting;
mod body;
mod ends;
mod frames;
mod suspending;

pub use answering::{answer_left, answers};
pub use awaiting::{await_operand, await_ready, await_resume};
pub use body::{final_await, guard_left, started, unhandled_left};
pub use ends::{after_end, closes, has_ended, hold_left};
pub use suspending::call_given;

//! How a coroutine is called: its storage, its number, its parameter copies and promise, its result, and how its body begins.
#![tactic(auto)]

mod bodies;
mod calls;
mod copies;
mod promises;
mod results;
mod starting;
mod storage;

pub use bodies::ramp_body;
pub use copies::ramp_copies;
pub use results::{promise_call, ramp_made, ramp_result};
pub use starting::{draws, is_made};
pub use storage::{ramp_take, ramp_taken};

//! What a step does with a statement, and with the frames of statements and handlers.
#![tactic(auto)]

mod caught;
mod executing;
mod fulls;
mod handlers;
mod locals;
mod loops;
mod sequences;

pub use executing::execute;
pub use handlers::{handled, leave_try};
pub use locals::declared;
pub use loops::{leave_body, pass_body, pass_step, test_loop};
pub use sequences::{branch, next_of_block};

//! What a step does that reads or writes one cell of a scalar.
#![tactic(auto)]

mod atomics;
mod reading;
mod scalars;
mod writing;

pub use atomics::{Exchange, compare, swap};
pub use reading::{load, read_of, reads};
pub use scalars::{given_by, parts_for};
pub use writing::{put, writes};

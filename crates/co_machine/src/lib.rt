//! The machine's meaning: what a worker's state is, the access that its next turn makes, the state after it,
//! and the run of several workers over common words. Other crates cite these definitions; the code that does it
//! stands above.
#![tactic(auto)]

mod due;
pub mod laws;
mod limits;
mod prints;
mod stack;
mod state;
mod stop;

pub use due::{Due, Found, Woken};
pub use limits::Limits;
pub use prints::Prints;
pub use stack::Stack;
pub use state::{Control, Entry, Going, Next, Registers, State, Tally};
pub use stop::{Looked, Posted, StopKind, Turn};

//! What a run of a core tree works on: values, objects, blocks, coroutines, agents, and the events of the run.
#![tactic(auto)]

mod events;
mod values;

pub use events::{Event, Move};
pub use values::{Cell, Lifetime, Standing, Value};

//! What a program of the core tree does, one step of one agent after the other, without the machine.
#![tactic(auto)]

mod laws;

pub use laws::{ends_undefined, events_grow, leaves_others, runs_join};

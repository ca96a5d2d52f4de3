//! What a program of the first form does, step by step, without the machine.
#![tactic(auto)]

mod laws;

pub use laws::{ended_stays, prints_grow, sum_is_its_value};

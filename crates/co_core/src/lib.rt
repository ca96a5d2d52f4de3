//! When a unit of the core tree is valid, and the units that are: those that the layers above may rest on.
#![tactic(auto)]

mod laws;
mod unit;

pub use laws::{holds_is_valid, keeps_for_awaits_alone};
pub use unit::Unit;

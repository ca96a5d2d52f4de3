//! How often the objects of a run are born and die.
#![tactic(auto)]

mod laws;

pub use laws::lives_once;

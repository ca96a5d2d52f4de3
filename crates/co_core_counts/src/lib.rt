//! The limits of a valid unit.
#![tactic(auto)]

mod limits;
mod points;
#[cfg(test)]
mod tests;

pub use limits::counts_fit;

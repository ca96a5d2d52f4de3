//! Whether the parts of a unit of the core tree are valid.
#![tactic(auto)]

#[cfg(test)]
mod sample;
#[cfg(test)]
mod tests;
mod unit;

pub use unit::holds;

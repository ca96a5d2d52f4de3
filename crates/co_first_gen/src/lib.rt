//! The code of a program: what the machine runs for each statement.
#![tactic(auto)]

mod emit;

pub use emit::generate;

#[cfg(test)]
mod tests;

//! A copy of a unit of the core tree.
#![tactic(auto)]

mod exprs;
mod stmts;
#[cfg(test)]
mod tests;
mod units;

pub use units::copy;

//! Whether each part of a unit of the core tree has the type that it needs.
#![tactic(auto)]

mod funcs;
mod slots;
mod stmts;
#[cfg(test)]
mod tests;
mod units;

pub use units::all_typed;

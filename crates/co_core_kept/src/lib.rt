//! Whether the temporaries and the kept values of a unit have slots of their own.
#![tactic(auto)]

mod given;
mod held;
mod holders;
mod marks;
#[cfg(test)]
mod tests;

pub use held::held_match;
pub use marks::marks_match;

//! Whether each slot of a function is made once and named only where it is visible, and whether its suspension points differ.
#![tactic(auto)]

mod functions;
mod kinds;
mod makes;
mod once;
mod points;
mod sets;
mod statements;
#[cfg(test)]
mod tests;
mod visible;

pub use functions::all_visible;
pub use once::made_once;
pub use points::points_differ;

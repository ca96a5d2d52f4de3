//! Whether the parameters of each function are listed, and those of a coroutine are copied.
#![tactic(auto)]

mod listed;
mod marks;
mod names;
mod slots;
#[cfg(test)]
mod tests;

pub use listed::params_listed;

//! Whether no class contains itself, and no class and no function is too large.
#![tactic(auto)]

mod nesting;
mod statements;
mod tables;
#[cfg(test)]
mod tests;
mod words;

pub use nesting::classes_nest;
pub use tables::words_of_classes;
pub use words::sizes_fit;

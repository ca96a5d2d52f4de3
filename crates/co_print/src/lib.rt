//! The canonical text of a tree: its tokens one space apart, each declaration, member and statement on a line of its own.
#![tactic(auto)]

mod buffer;
mod declarations;
mod expressions;
mod laws;
mod print;
mod printer;
mod spelling;
mod statements;
#[cfg(test)]
mod tests;
mod types;

pub use laws::printed_spells;
pub use print::print_tree;

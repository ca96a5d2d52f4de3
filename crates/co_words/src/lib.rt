//! The words of a run: one access at a time, whatever stands behind them.
#![tactic(auto)]

mod access;
mod blocks;
mod larger;
mod links;
mod storage;
#[cfg(test)]
mod tests;
mod vec_words;
mod words;

pub use access::Access;
pub use blocks::Blocks;
pub use links::Block;
pub use storage::{StoreFull, give_block, take_block};
pub use vec_words::VecWords;
pub use words::Words;

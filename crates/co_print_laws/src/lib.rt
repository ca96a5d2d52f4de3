//! The tokens of the canonical text derive the tree again, spans aside.
#![tactic(auto)]

mod laws;

pub use laws::{printed_derives, tree_of_tokens};

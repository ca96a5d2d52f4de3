//! The rules of the grammar cover the grammar of the tree: what a tree derives, the rules derive too.
#![tactic(auto)]

mod laws;

pub use laws::{each_tree_is_a_file, rules_cover};

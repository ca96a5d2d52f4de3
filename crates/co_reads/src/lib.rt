//! Where the rules of the grammar derive a list of tokens, the readers read it, with the places of the tree's nodes.
#![tactic(auto)]

mod laws;

pub use laws::{
    bases_are_read, class_paths_are_read, expressions_are_read, operands_are_read, scanned_runs,
    types_are_read,
};

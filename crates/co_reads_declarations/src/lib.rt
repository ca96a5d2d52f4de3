//! The parser answers what the grammar of the tree derives: the readers of declarations read what the rules do, and so they read
//! whole files.
#![tactic(auto)]

mod laws;
#[cfg(test)]
mod tests;

pub use laws::{answers_derive, parses, refuses_no_tree, syntax_faults_are_of_no_tree};

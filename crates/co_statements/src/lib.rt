//! Reads the statements of a list of tokens.
#![tactic(auto)]

mod locals;
mod statements;

pub use locals::{auto_type, parameter};
pub use statements::{block, statement};

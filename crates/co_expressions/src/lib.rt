//! Reads the expressions of a list of tokens.
#![tactic(auto)]

mod expressions;
mod within;

pub use expressions::expression;
pub use within::Within;

//! Builds the tree of a list of tokens.
#![tactic(auto)]

mod declarations;
mod fault;
mod members;
mod parsed;
#[cfg(test)]
mod tests;

pub use fault::ParseFault;
pub use parsed::parse;

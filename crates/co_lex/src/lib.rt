//! The tokens of a source file: words, names, numbers, text literals and marks, each with its place.
#![tactic(auto)]

mod fault;
mod laws;
mod lexer;
mod place;
mod scan;
mod table;
mod tables;
#[cfg(test)]
mod tests;
mod token;

pub use fault::LexFault;
pub use laws::{fault_is_first, spelled_once, tokens_spell};
pub use lexer::lex;
pub use tables::{HEADERS, MARKS, WORDS};
pub use token::{Mark, Token, TokenKind, Word};

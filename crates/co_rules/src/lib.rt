//! The rules of the grammar of the whole language: terminals, patterns, nonterminals, a table of what each derives, and which
//! terminal a token is where the names of classes are known.
#![tactic(auto)]

mod laws;
mod names;
mod pattern;
mod symbol;
mod table;
mod terminal;

pub use laws::one_rule_begins;
pub use names::{ClassNames, class_names};
pub use pattern::{admits, is_plain};
pub use symbol::{Known, Nonterminal, Pattern, Symbol, Terminal};
pub use table::{ARGUMENT, CLASS, FILE, HEAD, LOCAL, OPERAND, STATEMENT, TYPE, UNARY, VALUE};
pub use terminal::terminal_of;

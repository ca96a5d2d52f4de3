//! Laws of the definitions. Each function does nothing: its clause is the law.
//! The readers of statements read what the rules of the grammar derive.
#![tactic(auto)]

mod laws;

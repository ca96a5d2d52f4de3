//! The tree of a file of the first form: `int main() { .. return 0; }` over variables of type `long`.
#![tactic(auto)]

mod tree;

pub use tree::{Atom, Program, Stmt, Sum, SumOp, Term};

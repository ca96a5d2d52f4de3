use co_base::{Span, Text};
use sqlite_items::Items;

/// A file: the names of its variables in the order of their declarations, and the statements of `main` before its `return 0;`.
#[derive(Debug, Drop)]
pub struct Program {
    pub names: Items<Text>,
    pub body: Items<Stmt>,
}

/// A statement. A variable goes by the number of its declaration in the file, counted from 0.
#[derive(Debug, Drop)]
pub enum Stmt {
    /// `long NAME = sum;`
    Declare(u32, Sum),
    /// `NAME = sum;`
    Assign(u32, Sum),
    /// `while (sum) { .. }` [stmt.while]
    While(Sum, Items<Stmt>),
    /// `corun::print(sum);`
    Print(Sum),
}

/// An integer literal, or a variable and what is added to it and taken from it, from the left to the right [expr.add].
/// The span is that of the first token.
#[derive(Debug, Drop)]
pub enum Sum {
    Int(u32, Span),
    Name(u32, Items<Term>, Span),
}

/// An operator and its right operand.
#[derive(Clone, Copy, Debug, PartialEq, Eq)]
pub struct Term {
    pub op: SumOp,
    pub atom: Atom,
}

/// `+` or `-`.
#[derive(Clone, Copy, Debug, PartialEq, Eq)]
pub enum SumOp {
    Add,
    Sub,
}

/// An operand: an integer literal, or a variable by its number.
#[derive(Clone, Copy, Debug, PartialEq, Eq)]
pub enum Atom {
    Int(u32),
    Name(u32),
}

use crate::declarations::Parameter;
use crate::expressions::Expression;
use crate::types::TypeId;
use co_base::{Span, Text};
use sqlite_items::{Boxed, Items};

/// How a variable is initialized [dcl.init].
#[derive(Drop)]
pub enum Initializer {
    None,
    /// `= e`
    Equals(Expression),
    /// `= {..}`
    EqualsBraces(Items<Expression>),
    /// `(..)`
    Parentheses(Items<Expression>),
    /// `{..}`
    Braces(Items<Expression>),
}

/// A variable with its type: a global, a data member or a local [dcl.decl].
#[derive(Drop)]
pub struct Variable {
    pub of: TypeId,
    pub name: Text,
    pub initializer: Initializer,
    pub span: Span,
}

/// What a handler catches: `...`, or a type, with a name or without [except.handle].
#[derive(Drop)]
pub enum Caught {
    All,
    One(Parameter),
}

/// What the head of a `for` begins with [stmt.for].
#[derive(Drop)]
pub enum ForInit {
    None,
    Local(Variable),
    Expression(Expression),
}

/// What stands after `return` [stmt.return].
#[derive(Drop)]
pub enum Returned {
    None,
    Value(Expression),
    Braces(Items<Expression>),
}

/// `{..}` [stmt.block]
#[cycle(statement)]
#[derive(Drop)]
pub struct Block {
    pub statements: Items<Statement>,
    pub span: Span,
}

/// A `catch` with its block [except.handle].
#[cycle(statement)]
#[derive(Drop)]
pub struct Handler {
    pub caught: Caught,
    pub body: Block,
    pub span: Span,
}

/// A statement [stmt.stmt]. A block, a local and a statement of an expression have their span in their first field.
#[cycle(statement)]
#[derive(Drop)]
pub enum Statement {
    Block(Block),
    /// `;` alone
    Empty(Span),
    Local(Variable),
    Expression(Expression, Span),
    /// `try` with at least one handler [except.pre]
    Try(Block, Items<Handler>, Span),
    /// `if` without `else` [stmt.if]
    If(Expression, Boxed<Statement>, Span),
    /// `if` with `else`
    IfElse(Expression, Boxed<Statement>, Boxed<Statement>, Span),
    While(Expression, Boxed<Statement>, Span),
    /// The beginning, the condition, the step and the body [stmt.for].
    For(ForInit, Option<Expression>, Option<Expression>, Boxed<Statement>, Span),
    Break(Span),
    Continue(Span),
    Return(Returned, Span),
    /// `co_return` [stmt.return.coroutine]
    CoReturn(Option<Expression>, Span),
}

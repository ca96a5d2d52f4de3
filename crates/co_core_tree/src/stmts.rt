use crate::exprs::{CoreExpr, Init};
use co_base::{CatchOf, SlotId, Span};
use sqlite_items::{Boxed, Items};

/// A statement [stmt]. Each form ends with its span. The conditions and the step of a loop, the condition of a branch, the
/// initializer of a local and of a return are each a full-expression [intro.execution].
#[cycle(stmt)]
#[derive(Drop)]
pub enum CoreStmt {
    /// Statements; at their end the locals made directly among them die, newest first [stmt.block].
    Scope(Items<CoreStmt>, Span),
    /// A full-expression whose value is dropped [stmt.expr].
    Full(CoreExpr, Span),
    /// Makes a local [stmt.dcl].
    Local(SlotId, Init, Span),
    /// [stmt.if]
    If(CoreExpr, Boxed<CoreStmt>, Boxed<CoreStmt>, Span),
    /// A condition, a step that follows each turn, and a body [stmt.while] [stmt.for].
    Loop(CoreExpr, CoreExpr, Boxed<CoreStmt>, Span),
    /// [stmt.break]
    Break(Span),
    /// [stmt.cont]
    Continue(Span),
    /// [stmt.return]
    Return(Option<Init>, Span),
    /// Goes to the final suspend point of a coroutine [stmt.return.coroutine].
    Leave(Span),
    /// [except.pre]
    Try(Boxed<CoreStmt>, Items<Handler>, Span),
    /// Flowing off the end of a function that has a value to return, which is undefined [stmt.return].
    OffEnd(Span),
}

/// A handler: what it catches, the slot of the value that it catches, if it has one, and its body [except.handle].
#[cycle(stmt)]
#[derive(Drop)]
pub struct Handler {
    pub of: CatchOf,
    pub slot: Option<SlotId>,
    pub body: CoreStmt,
}

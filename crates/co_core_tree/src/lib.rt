//! The core tree: a program in which each conversion, construction, scope and implicit call is written out.
#![tactic(auto)]

mod exprs;
mod kinds;
mod stmts;
mod units;

pub use exprs::{AwaitPlan, CoreExpr, DeletePlan, Init, NewPlan};
pub use kinds::{Answer, AtomicOp, GivePlan, HandleOp, LibOp, Returns, SlotKind, TakePlan};
pub use stmts::{CoreStmt, Handler};
pub use units::{CopyPlan, CoreFunc, FuncRole, GlobalInfo, PromisePlan, SlotInfo, UnitParts};

//! A walk over the acts of an evaluation, from the last act to the first.
#![tactic(auto)]

mod exprs;
mod params;
mod stmts;
mod visitor;

pub use exprs::{visit_await, visit_expr, visit_init};
pub use stmts::{Order, visit_func, visit_inits, visit_stmt};
pub use visitor::{Awaits, Visitor};

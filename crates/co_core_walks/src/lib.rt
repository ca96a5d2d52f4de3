//! Walks over a unit of the core tree, and the rules of validity on its numbers, its ids, its jumps and its ends.
#![tactic(auto)]

mod bodies;
mod fulls;
mod ids;
mod jumps;
mod numbers;
mod rules;
mod scene;
mod tables;
#[cfg(test)]
mod tests;
mod visitor;
mod walk;

pub use bodies::{Standing, StmtVisitor, walk_body, walk_stmt};
pub use fulls::{walk_copies, walk_fulls, walk_func, walk_own};
pub use ids::ids_held;
pub use jumps::{ends_placed, jumps_placed};
pub use numbers::numbers_fit;
pub use rules::{Rule, StmtRule, body_holds, func_holds, own_holds};
pub use scene::Scene;
pub use visitor::Visitor;
pub use walk::{walk_await, walk_expr, walk_init, walk_inits};

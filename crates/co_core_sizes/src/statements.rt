ghost use Rattle.std.specs.Prelude.{◌≡◌, ◌+◌, ◌<◌, IfSome, IfNone};
ghost use Rattle.std.specs.List.{sum_by};
ghost use Rattle.co_core.specs.Counts as spec;
ghost use Rattle.co_core_sizes.specs.Statements.{statements, handler_statements};

use co_core_tree::{CoreFunc, CoreStmt, Handler};

/// What is left of this many statements beside a statement and those in it, if they are enough.
#[cycle(statements)]
#[tactic(auto, using(crate::proofs::Counting::none_beside))]
fn beside_stmt(stmt: &CoreStmt, room: u32) -> Option<u32>
    ensures some { IfSome result (λ left. left + statements stmt.now ≡ room) }
    ensures none { IfNone result (room < statements stmt.now) }
{
    if room == 0 {
        None
    } else {
        beside_parts(stmt, room - 1)
    }
}

/// What is left beside the statements in a statement.
#[cycle(statements)]
#[tactic(auto, using(crate::proofs::Falling::both_fall))]
fn beside_parts(stmt: &CoreStmt, room: u32) -> Option<u32>
    ensures some { IfSome result (λ left. left + statements stmt.now ≡ room + 1) }
    ensures none { IfNone result (room + 1 < statements stmt.now) }
{
    match stmt {
        CoreStmt::Scope(stmts, _) => beside_stmts(stmts.as_slice(), room),
        CoreStmt::If(_, x, y, _) => beside_two(x.get(), y.get(), room),
        CoreStmt::Loop(_, _, body, _) => beside_stmt(body.get(), room),
        CoreStmt::Try(body, handlers, _) => beside_try(handlers.as_slice(), body.get(), room),
        CoreStmt::Full(..)
        | CoreStmt::Local(..)
        | CoreStmt::Break(_)
        | CoreStmt::Continue(_)
        | CoreStmt::Return(..)
        | CoreStmt::Leave(_)
        | CoreStmt::OffEnd(_) => Some(room),
    }
}

#[cycle(statements)]
fn beside_two(x: &CoreStmt, y: &CoreStmt, room: u32) -> Option<u32>
    ensures some { IfSome result (λ left. left + (statements x.now + statements y.now) ≡ room) }
    ensures none { IfNone result (room < statements x.now + statements y.now) }
{
    match beside_stmt(x, room) {
        Some(left) => beside_stmt(y, left),
        None => None,
    }
}

#[cycle(statements)]
fn beside_try(handlers: &[Handler], body: &CoreStmt, room: u32) -> Option<u32>
    ensures some { IfSome result (λ left. left + (statements body.now + sum_by handler_statements handlers.now) ≡ room) }
    ensures none { IfNone result (room < statements body.now + sum_by handler_statements handlers.now) }
{
    match beside_stmt(body, room) {
        Some(left) => beside_handlers(handlers, left),
        None => None,
    }
}

#[cycle(statements)]
fn beside_stmts(stmts: &[CoreStmt], room: u32) -> Option<u32>
    ensures some { IfSome result (λ left. left + sum_by statements stmts.now ≡ room) }
    ensures none { IfNone result (room < sum_by statements stmts.now) }
{
    let mut left = room;
    for stmt in stmts {
        match beside_stmt(stmt, left) {
            Some(fewer) => left = fewer,
            None => return None,
        }
    }
    Some(left)
}

#[cycle(statements)]
fn beside_handlers(handlers: &[Handler], room: u32) -> Option<u32>
    ensures some { IfSome result (λ left. left + sum_by handler_statements handlers.now ≡ room) }
    ensures none { IfNone result (room < sum_by handler_statements handlers.now) }
{
    let mut left = room;
    for handler in handlers {
        match beside_stmt(&handler.body, left) {
            Some(fewer) => left = fewer,
            None => return None,
        }
    }
    Some(left)
}

/// Whether a function has no more than 1,048,576 statements.
pub(crate) fn statements_fit(func: &CoreFunc) -> bool
    ensures { result ≡ spec.statements_fit func.now }
{
    beside_stmt(&func.body, 1_048_576).is_some()
}

ghost use Rattle.std.specs.Prelude.{◌≡◌, ◌&&◌, Some, [], false};
ghost use Rattle.std.specs.List.{list_all};
ghost use Rattle.std.specs.Option.{option_copied};
ghost use Rattle.co_core_typing.specs.Rules.{typed, init_typed};
ghost use Rattle.co_core_typing.specs.Tables as table;
ghost use Rattle.co_core.specs.Bodies.{body_of};
ghost use Rattle.co_core.specs.Typed as spec;
ghost use Rattle.co_core_all_typed.specs.Walks.{within_typed, handler_typed, handler_within};

use co_base::{CatchOf, Num, SlotId};
use co_core_tree::{CoreExpr, CoreStmt, Handler, Init};
use co_core_typed::{Scene, Wholes, check, init_fits, is_thrown_class, slot_type};
use co_core_types::{Known, is_number, is_void};
use co_types::{Head, has_same_head};

fn condition(scene: Scene<'_>, e: &CoreExpr) -> bool
    ensures { result ≡ spec.condition scene.entry.unit.now scene.entry.func.now e.now }
{
    let given = check(scene, e, &Wholes::Outermost);
    given.fits && is_number(Num::Bool, given.view)
}

fn expr_fits(scene: Scene<'_>, e: &CoreExpr) -> bool
    ensures { result ≡ typed scene.entry.unit.now scene.entry.func.now [] e.now }
{
    check(scene, e, &Wholes::Outermost).fits
}

fn local_fits(scene: Scene<'_>, slot: SlotId, init: &Init) -> bool
    ensures { result ≡ init_typed scene.entry.unit.now scene.entry.func.now [] false (table.slot_type scene.entry.func.now slot) init.now }
{
    let to = slot_type(scene.func, slot);
    init_fits(scene, init, to, false, &Wholes::Outermost)
}

fn returned(scene: Scene<'_>, value: Option<&Init>) -> bool
    ensures { result ≡ spec.returned scene.entry.unit.now scene.entry.func.now (option_copied value.entry) }
{
    let to = &scene.func.result;
    match value {
        Some(init) => {
            !is_void(to.head()) && init_fits(scene, init, Known::Of(to), false, &Wholes::Outermost)
        }
        None => is_void(to.head()),
    }
}

fn holds_caught(scene: Scene<'_>, of: CatchOf, slot: SlotId) -> bool
    ensures { result ≡ spec.caught_fits scene.entry.unit.now scene.entry.func.now of (Some slot) }
{
    let head = slot_type(scene.func, slot).head();
    match of {
        CatchOf::Any => false,
        CatchOf::Int => has_same_head(head, Head::Num(Num::Int)),
        CatchOf::Long => has_same_head(head, Head::Num(Num::Long)),
        CatchOf::Bool => has_same_head(head, Head::Num(Num::Bool)),
        CatchOf::Class(class) => has_same_head(head, Head::Class(class)),
    }
}

fn caught_fits(scene: Scene<'_>, of: CatchOf, slot: Option<SlotId>) -> bool
    ensures { result ≡ spec.caught_fits scene.entry.unit.now scene.entry.func.now of slot }
{
    match slot {
        Some(slot) => holds_caught(scene, of, slot),
        None => true,
    }
}

fn catchable(scene: Scene<'_>, of: CatchOf) -> bool
    ensures { result ≡ spec.catchable scene.entry.unit.now scene.entry.func.now of }
{
    match of {
        CatchOf::Class(class) => is_thrown_class(&scene.unit.classes, class),
        _ => true,
    }
}

fn handler_fits(scene: Scene<'_>, handler: &Handler) -> bool
    ensures { result ≡ handler_typed scene.entry.unit.now scene.entry.func.now handler.now }
{
    catchable(scene, handler.of) && caught_fits(scene, handler.of, handler.slot)
}

fn handlers_fit(scene: Scene<'_>, handlers: &[Handler]) -> bool
    ensures { result ≡ list_all (handler_typed scene.entry.unit.now scene.entry.func.now) handlers.now }
{
    let mut rest = handlers;
    while let [handler, next @ ..] = rest {
        if !handler_fits(scene, handler) {
            return false;
        }
        rest = next;
    }
    true
}

/// Whether a statement and those in it have the types that they need.
#[cycle(fitting)]
#[tactic(auto, using(crate::proofs::Statements::opened_statements, crate::proofs::Falling::both_fall))]
fn stmt_fits(scene: Scene<'_>, stmt: &CoreStmt) -> bool
    ensures { result ≡ within_typed scene.entry.unit.now scene.entry.func.now stmt.now }
{
    match stmt {
        CoreStmt::Scope(stmts, _) => stmts_fit(scene, stmts.as_slice()),
        CoreStmt::Full(e, _) => expr_fits(scene, e),
        CoreStmt::Local(slot, init, _) => local_fits(scene, *slot, init),
        CoreStmt::If(e, x, y, _) => branches_fit(scene, e, x.get(), y.get()),
        CoreStmt::Loop(e, step, body, _) => loop_fits(scene, e, step, body.get()),
        CoreStmt::Return(value, _) => returned(scene, value.as_ref()),
        CoreStmt::Try(body, handlers, _) => try_fits(scene, handlers.as_slice(), body.get()),
        CoreStmt::Break(_) | CoreStmt::Continue(_) | CoreStmt::Leave(_) | CoreStmt::OffEnd(_) =>
            true,
    }
}

#[cycle(fitting)]
fn branches_fit(scene: Scene<'_>, e: &CoreExpr, x: &CoreStmt, y: &CoreStmt) -> bool
    ensures { result ≡ (spec.condition scene.entry.unit.now scene.entry.func.now e.now && (within_typed scene.entry.unit.now scene.entry.func.now x.now && within_typed scene.entry.unit.now scene.entry.func.now y.now)) }
{
    condition(scene, e) && (stmt_fits(scene, x) && stmt_fits(scene, y))
}

#[cycle(fitting)]
fn loop_fits(scene: Scene<'_>, e: &CoreExpr, step: &CoreExpr, body: &CoreStmt) -> bool
    ensures { result ≡ ((spec.condition scene.entry.unit.now scene.entry.func.now e.now && typed scene.entry.unit.now scene.entry.func.now [] step.now) && within_typed scene.entry.unit.now scene.entry.func.now body.now) }
{
    (condition(scene, e) && expr_fits(scene, step)) && stmt_fits(scene, body)
}

#[cycle(fitting)]
fn try_fits(scene: Scene<'_>, handlers: &[Handler], body: &CoreStmt) -> bool
    ensures { result ≡ (list_all (handler_typed scene.entry.unit.now scene.entry.func.now) handlers.now && (within_typed scene.entry.unit.now scene.entry.func.now body.now && list_all (handler_within scene.entry.unit.now scene.entry.func.now) handlers.now)) }
{
    handlers_fit(scene, handlers) && (stmt_fits(scene, body) && bodies_fit(scene, handlers))
}

#[cycle(fitting)]
fn stmts_fit(scene: Scene<'_>, stmts: &[CoreStmt]) -> bool
    ensures { result ≡ list_all (within_typed scene.entry.unit.now scene.entry.func.now) stmts.now }
{
    for stmt in stmts {
        if !stmt_fits(scene, stmt) {
            return false;
        }
    }
    true
}

#[cycle(fitting)]
fn bodies_fit(scene: Scene<'_>, handlers: &[Handler]) -> bool
    ensures { result ≡ list_all (handler_within scene.entry.unit.now scene.entry.func.now) handlers.now }
{
    for handler in handlers {
        if !stmt_fits(scene, &handler.body) {
            return false;
        }
    }
    true
}

/// Whether each statement of the function has the types that it needs.
pub(crate) fn body_fits(scene: Scene<'_>) -> bool
    ensures { result ≡ list_all (spec.placed_typed scene.entry.unit.now scene.entry.func.now) (body_of scene.entry.func.now) }
{
    stmt_fits(scene, &scene.func.body)
}

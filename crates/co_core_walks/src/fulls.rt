ghost use Rattle.std.specs.Prelude.{◌≡◌, List, flat_map, fold};
ghost use Rattle.co_base.specs.declared.span.Span.{Span};
ghost use Rattle.co_core_tree.specs.declared.stmts.CoreStmt.TheVariants as stmt;
ghost use Rattle.co_core_tree.specs.declared.units.CoreFunc.{CoreFunc as Func};
ghost use Rattle.co_core.specs.Bodies.{copies_fulls, func_acts, inits_fulls, joined_acts, own_fulls, plan_fulls, role_fulls};
ghost use Rattle.co_core.specs.Bodies as body;
ghost use Rattle.co_core_walks.specs.Lists.{stmt_acts};

use crate::visitor::Visitor;
use crate::walk::{walk_await, walk_expr, walk_init, walk_inits};
use co_core_tree::{CopyPlan, CoreFunc, CoreStmt, FuncRole, Handler, Init, PromisePlan};

/// Visits the acts of the initializer of a `Return`, if it has one.
fn walk_given<V: Visitor>(v: &mut V, given: &Option<Init>)
    ensures { (funcs : List Func) (at : Span) → v.new ≡ fold V.after v.old (joined_acts funcs (own_fulls funcs (stmt.Return given.now at))) }
{
    match given {
        Some(init) => walk_init(v, init),
        None => {}
    }
}

/// Visits the acts of the full-expressions of a statement that are no part of a statement in it.
pub fn walk_own<V: Visitor>(v: &mut V, s: &CoreStmt)
    ensures { (funcs : List Func) → v.new ≡ fold V.after v.old (joined_acts funcs (own_fulls funcs s.now)) }
{
    match s {
        CoreStmt::Full(e, _) => walk_expr(v, e),
        CoreStmt::Local(_, init, _) => walk_init(v, init),
        CoreStmt::If(e, _, _, _) => walk_expr(v, e),
        CoreStmt::Loop(e, step, _, _) => {
            walk_expr(v, e);
            walk_expr(v, step);
        }
        CoreStmt::Return(given, _) => walk_given(v, given),
        CoreStmt::Scope(_, _)
        | CoreStmt::Try(_, _, _)
        | CoreStmt::Break(_)
        | CoreStmt::Continue(_)
        | CoreStmt::Leave(_)
        | CoreStmt::OffEnd(_) => {}
    }
}

/// Visits the acts of the full-expressions of a statement and of those in it, in the order of the text.
#[cycle(fulls)]
pub fn walk_fulls<V: Visitor>(v: &mut V, s: &CoreStmt)
    ensures { (funcs : List Func) (stands : body.Standing) → v.new ≡ fold V.after v.old (stmt_acts funcs stands s.now) }
{
    walk_own(v, s);
    match s {
        CoreStmt::Scope(stmts, _) => walk_list(v, stmts.as_slice()),
        CoreStmt::If(_, x, y, _) => {
            walk_fulls(v, x.get());
            walk_fulls(v, y.get());
        }
        CoreStmt::Loop(_, _, body, _) => walk_fulls(v, body.get()),
        CoreStmt::Try(body, handlers, _) => {
            walk_fulls(v, body.get());
            walk_handlers(v, handlers.as_slice());
        }
        CoreStmt::Full(_, _) => {}
        CoreStmt::Local(_, _, _) => {}
        CoreStmt::Break(_) => {}
        CoreStmt::Continue(_) => {}
        CoreStmt::Return(_, _) => {}
        CoreStmt::Leave(_) => {}
        CoreStmt::OffEnd(_) => {}
    }
}

#[cycle(fulls)]
fn walk_list<V: Visitor>(v: &mut V, stmts: &[CoreStmt])
    ensures { (funcs : List Func) (stands : body.Standing) → v.new ≡ fold V.after v.old (flat_map (stmt_acts funcs stands) stmts.now) }
{
    for s in stmts {
        walk_fulls(v, s);
    }
}

#[cycle(fulls)]
fn walk_handlers<V: Visitor>(v: &mut V, handlers: &[Handler])
    ensures { (funcs : List Func) (stands : body.Standing) → v.new ≡ fold V.after v.old (flat_map (λ handler. stmt_acts funcs stands handler.body) handlers.now) }
{
    for handler in handlers {
        walk_fulls(v, &handler.body);
    }
}

/// Visits the acts of the copies of parameters.
pub fn walk_copies<V: Visitor>(v: &mut V, copies: &[CopyPlan])
    ensures { (funcs : List Func) → v.new ≡ fold V.after v.old (joined_acts funcs (copies_fulls funcs copies.now)) }
{
    for copy in copies {
        walk_init(v, &copy.init);
    }
}

fn walk_plan<V: Visitor>(v: &mut V, plan: &Option<PromisePlan>)
    ensures { (funcs : List Func) → v.new ≡ fold V.after v.old (joined_acts funcs (plan_fulls funcs plan.now)) }
{
    match plan {
        Some(plan) => {
            walk_inits(v, plan.take_args.as_slice());
            walk_copies(v, plan.copies.as_slice());
            walk_inits(v, plan.ctor_args.as_slice());
            walk_await(v, &plan.initial);
            walk_await(v, &plan.last);
        }
        None => {}
    }
}

fn walk_role<V: Visitor>(v: &mut V, role: &FuncRole)
    ensures { (funcs : List Func) → v.new ≡ fold V.after v.old (joined_acts funcs (role_fulls funcs role.now)) }
{
    match role {
        FuncRole::Ctor(_, members) => walk_inits(v, members.as_slice()),
        FuncRole::Plain | FuncRole::Dtor(_) => {}
    }
}

/// Visits all acts of a function, in the order of the text.
pub fn walk_func<V: Visitor>(v: &mut V, func: &CoreFunc)
    ensures { (funcs : List Func) → v.new ≡ fold V.after v.old (func_acts funcs func.now) }
{
    walk_role(v, &func.role);
    walk_plan(v, &func.plan);
    walk_fulls(v, &func.body);
}

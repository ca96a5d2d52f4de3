ghost use Rattle.std.specs.Prelude.{◌≡◌, List, fold};
ghost use Rattle.co_base.specs.declared.span.Span.{Span};
ghost use Rattle.co_core_tree.specs.declared.stmts.CoreStmt.TheVariants as stmt;
ghost use Rattle.co_core_tree.specs.declared.units.CoreFunc.{CoreFunc as Func};
ghost use Rattle.co_core_scopes.specs.Scoped.{handled, listed, stmt_seen};

use crate::sets::local_of;
use crate::visible::{Full, Visible};
use co_core_tree::{CoreStmt, Handler, Init};

/// Looks up each slot that the initializer of a `Return` names, if it has one.
fn visit_given(v: &mut Visible<'_>, given: &Option<Init>)
    ensures { (funcs : List Func) (at : Span) → v.new ≡ stmt_seen funcs v.old (stmt.Return given.now at) }
{
    match given {
        Some(init) => v.visit_full(None, Full::Init(init)),
        None => {}
    }
}

/// Looks up each slot that a statement names where it names it. A local is visible from its own initializer on to the end of
/// its `Scope` [basic.scope.block].
#[cycle(stmts)]
pub(crate) fn visit_stmt(v: &mut Visible<'_>, s: &CoreStmt)
    ensures { (funcs : List Func) → v.new ≡ stmt_seen funcs v.old s.now }
{
    match s {
        CoreStmt::Scope(stmts, _) => {
            let stmts = stmts.as_slice();
            visit_list(v, stmts);
            v.leave_list(stmts);
        }
        CoreStmt::Full(e, _) => v.visit_full(None, Full::Expr(e)),
        CoreStmt::Local(slot, init, _) => v.visit_full(Some(*slot), Full::Init(init)),
        CoreStmt::If(e, x, y, _) => {
            v.visit_full(None, Full::Expr(e));
            visit_stmt(v, x.get());
            visit_stmt(v, y.get());
        }
        CoreStmt::Loop(e, step, body, _) => {
            v.visit_full(None, Full::Expr(e));
            v.visit_full(None, Full::Expr(step));
            visit_stmt(v, body.get());
        }
        CoreStmt::Return(given, _) => visit_given(v, given),
        CoreStmt::Try(body, handlers, _) => {
            visit_stmt(v, body.get());
            visit_handlers(v, handlers.as_slice());
        }
        CoreStmt::Break(_) => {}
        CoreStmt::Continue(_) => {}
        CoreStmt::Leave(_) => {}
        CoreStmt::OffEnd(_) => {}
    }
}

#[cycle(stmts)]
fn visit_list(v: &mut Visible<'_>, stmts: &[CoreStmt])
    ensures { (funcs : List Func) → v.new ≡ fold (listed funcs) v.old stmts.now }
{
    for s in stmts {
        visit_stmt(v, s);
        v.enter(local_of(s));
    }
}

/// The variable of a handler is visible in its body [except.handle].
#[cycle(stmts)]
fn visit_handlers(v: &mut Visible<'_>, handlers: &[Handler])
    ensures { (funcs : List Func) → v.new ≡ fold (handled funcs) v.old handlers.now }
{
    for handler in handlers {
        v.enter(handler.slot);
        visit_stmt(v, &handler.body);
        v.leave(handler.slot);
    }
}

ghost use Rattle.std.specs.Prelude.{◌≡◌, IfOk};
ghost use Rattle.std.specs.Option.{option_copied};
ghost use Rattle.co_core_tree.specs.declared.stmts.CoreStmt.TheVariants as stmt;

use crate::exprs::{copy_expr, copy_init};
use co_base::{NoMemory, SlotId, Span};
use co_core_tree::{CoreExpr, CoreStmt, Handler, Init};
use sqlite_items::{Boxed, Items};
use std::alloc::Global;

/// A statement that is equal to this one.
#[cycle(copying)]
#[tactic(auto, using(crate::proofs::Depths::both_fall))]
pub(crate) fn copy_stmt(alloc: Global, stmt: &CoreStmt) -> Result<CoreStmt, NoMemory>
    ensures { IfOk result (λ copied. copied ≡ stmt.now) }
{
    match stmt {
        CoreStmt::Scope(stmts, at) => copy_scope(alloc, stmts.as_slice(), *at),
        CoreStmt::Full(e, at) => copy_full(alloc, e, *at),
        CoreStmt::Local(slot, init, at) => copy_local(alloc, *slot, init, *at),
        CoreStmt::If(e, x, y, at) => copy_if(alloc, e, x.get(), y.get(), *at),
        CoreStmt::Loop(e, step, body, at) => copy_loop(alloc, e, step, body.get(), *at),
        CoreStmt::Break(at) => Ok(CoreStmt::Break(*at)),
        CoreStmt::Continue(at) => Ok(CoreStmt::Continue(*at)),
        CoreStmt::Return(value, at) => copy_return(alloc, value.as_ref(), *at),
        CoreStmt::Leave(at) => Ok(CoreStmt::Leave(*at)),
        CoreStmt::Try(body, handlers, at) => {
            copy_try(alloc, handlers.as_slice(), body.get(), *at)
        }
        CoreStmt::OffEnd(at) => Ok(CoreStmt::OffEnd(*at)),
    }
}

fn copy_full(alloc: Global, e: &CoreExpr, at: Span) -> Result<CoreStmt, NoMemory>
    ensures { IfOk result (λ copied. copied ≡ stmt.Full e.now at) }
{
    let e = copy_expr(alloc, e)?;
    Ok(CoreStmt::Full(e, at))
}

fn copy_local(alloc: Global, slot: SlotId, init: &Init, at: Span) -> Result<CoreStmt, NoMemory>
    ensures { IfOk result (λ copied. copied ≡ stmt.Local slot init.now at) }
{
    let init = copy_init(alloc, init)?;
    Ok(CoreStmt::Local(slot, init, at))
}

fn copy_return(alloc: Global, value: Option<&Init>, at: Span) -> Result<CoreStmt, NoMemory>
    ensures { IfOk result (λ copied. copied ≡ stmt.Return (option_copied value.entry) at) }
{
    match value {
        Some(init) => {
            let init = copy_init(alloc, init)?;
            Ok(CoreStmt::Return(Some(init), at))
        }
        None => Ok(CoreStmt::Return(None, at)),
    }
}

#[cycle(copying)]
fn copy_scope(alloc: Global, stmts: &[CoreStmt], at: Span) -> Result<CoreStmt, NoMemory>
    ensures { IfOk result (λ copied. copied ≡ stmt.Scope stmts.now at) }
{
    let stmts = copy_stmts(alloc, stmts)?;
    Ok(CoreStmt::Scope(stmts, at))
}

#[cycle(copying)]
fn copy_if(
    alloc: Global,
    e: &CoreExpr,
    x: &CoreStmt,
    y: &CoreStmt,
    at: Span,
) -> Result<CoreStmt, NoMemory>
    ensures { IfOk result (λ copied. copied ≡ stmt.If e.now x.now y.now at) }
{
    let e = copy_expr(alloc, e)?;
    let x = boxed(alloc, x)?;
    let y = boxed(alloc, y)?;
    Ok(CoreStmt::If(e, x, y, at))
}

#[cycle(copying)]
fn copy_loop(
    alloc: Global,
    e: &CoreExpr,
    step: &CoreExpr,
    body: &CoreStmt,
    at: Span,
) -> Result<CoreStmt, NoMemory>
    ensures { IfOk result (λ copied. copied ≡ stmt.Loop e.now step.now body.now at) }
{
    let e = copy_expr(alloc, e)?;
    let step = copy_expr(alloc, step)?;
    let body = boxed(alloc, body)?;
    Ok(CoreStmt::Loop(e, step, body, at))
}

#[cycle(copying)]
fn copy_try(
    alloc: Global,
    handlers: &[Handler],
    body: &CoreStmt,
    at: Span,
) -> Result<CoreStmt, NoMemory>
    ensures { IfOk result (λ copied. copied ≡ stmt.Try body.now handlers.now at) }
{
    let body = boxed(alloc, body)?;
    let handlers = copy_handlers(alloc, handlers)?;
    Ok(CoreStmt::Try(body, handlers, at))
}

#[cycle(copying)]
fn boxed(alloc: Global, stmt: &CoreStmt) -> Result<Boxed<CoreStmt>, NoMemory>
    ensures { IfOk result (λ copied. copied ≡ stmt.now) }
{
    let stmt = copy_stmt(alloc, stmt)?;
    Ok(Boxed::new(alloc, stmt)?)
}

#[cycle(copying)]
fn copy_stmts(alloc: Global, stmts: &[CoreStmt]) -> Result<Items<CoreStmt>, NoMemory>
    ensures { IfOk result (λ copied. copied ≡ stmts.now) }
{
    let mut copied = Items::new(alloc);
    for item in stmts {
        copied.push(copy_stmt(alloc, item)?)?;
    }
    Ok(copied)
}

#[cycle(copying)]
fn copy_handler(alloc: Global, handler: &Handler) -> Result<Handler, NoMemory>
    ensures { IfOk result (λ copied. copied ≡ handler.now) }
{
    let body = copy_stmt(alloc, &handler.body)?;
    Ok(Handler {
        of: handler.of,
        slot: handler.slot,
        body,
    })
}

#[cycle(copying)]
fn copy_handlers(alloc: Global, handlers: &[Handler]) -> Result<Items<Handler>, NoMemory>
    ensures { IfOk result (λ copied. copied ≡ handlers.now) }
{
    let mut copied = Items::new(alloc);
    for item in handlers {
        copied.push(copy_handler(alloc, item)?)?;
    }
    Ok(copied)
}

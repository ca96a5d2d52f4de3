ghost use Rattle.std.specs.Prelude.{◌≡◌, Some};
ghost use Rattle.co_core.specs.Bodies.{inits_fulls, copies_fulls, joined_acts, plan_fulls, role_fulls};
ghost use Rattle.co_core_acts.specs.Visits.{back, awaits_of};
ghost use Rattle.co_core_acts.specs.Fulls.{stmt_fulls, stmts_fulls, handlers_fulls, turn_fulls, acts_in};

use crate::exprs::{visit_await, visit_expr, visit_init};
use crate::visitor::{Awaits, Visitor};
use co_core_tree::{CopyPlan, CoreExpr, CoreFunc, CoreStmt, FuncRole, Handler, Init, PromisePlan};

/// In which order the full-expressions of a statement stand: that of the text, or that of evaluation, where the step of a loop
/// comes after its body [stmt.for].
#[derive(Clone, Copy, Debug, PartialEq, Eq)]
pub enum Order {
    Text,
    Evaluation,
}

/// Visits the acts of a statement.
#[cycle(stmts)]
#[tactic(auto, using(crate::proofs::Statements::empty_stmts))]
pub fn visit_stmt<V: Visitor>(
    visitor: &mut V,
    funcs: &[CoreFunc],
    order: Order,
    stmt: &CoreStmt,
) -> Awaits
    ensures visited { visitor.new ≡ back V.after visitor.old (joined_acts funcs.now (stmt_fulls funcs.now order stmt.now)) }
    ensures awaits { result ≡ awaits_of funcs.now (joined_acts funcs.now (stmt_fulls funcs.now order stmt.now)) }
{
    match stmt {
        CoreStmt::Scope(stmts, _) => visit_stmts(visitor, funcs, order, stmts.as_slice()),
        CoreStmt::Full(e, _) => visit_expr(visitor, funcs, false, false, e),
        CoreStmt::Local(_, init, _) => visit_init(visitor, funcs, false, false, init),
        CoreStmt::If(e, x, y, _) => {
            let last = visit_stmt(visitor, funcs, order, y.get());
            let later = visit_stmt(visitor, funcs, order, x.get()).and(last);
            visit_expr(visitor, funcs, false, false, e).and(later)
        }
        CoreStmt::Loop(e, step, body, _) => {
            let later = visit_turn(visitor, funcs, order, body.get(), step);
            visit_expr(visitor, funcs, false, false, e).and(later)
        }
        CoreStmt::Break(_) => Awaits::none(),
        CoreStmt::Continue(_) => Awaits::none(),
        CoreStmt::Return(Some(init), _) => visit_init(visitor, funcs, false, false, init),
        CoreStmt::Return(None, _) => Awaits::none(),
        CoreStmt::Leave(_) => Awaits::none(),
        CoreStmt::Try(body, handlers, _) => {
            let later = visit_handlers(visitor, funcs, order, handlers.as_slice());
            visit_stmt(visitor, funcs, order, body.get()).and(later)
        }
        CoreStmt::OffEnd(_) => Awaits::none(),
    }
}

#[cycle(stmts)]
fn visit_turn<V: Visitor>(
    visitor: &mut V,
    funcs: &[CoreFunc],
    order: Order,
    body: &CoreStmt,
    step: &CoreExpr,
) -> Awaits
    ensures visited { visitor.new ≡ back V.after visitor.old (joined_acts funcs.now (turn_fulls funcs.now order body.now step.now)) }
    ensures awaits { result ≡ awaits_of funcs.now (joined_acts funcs.now (turn_fulls funcs.now order body.now step.now)) }
{
    match order {
        Order::Text => {
            let later = visit_stmt(visitor, funcs, order, body);
            visit_expr(visitor, funcs, false, false, step).and(later)
        }
        Order::Evaluation => {
            let later = visit_expr(visitor, funcs, false, false, step);
            visit_stmt(visitor, funcs, order, body).and(later)
        }
    }
}

#[cycle(stmts)]
fn visit_stmts<V: Visitor>(
    visitor: &mut V,
    funcs: &[CoreFunc],
    order: Order,
    stmts: &[CoreStmt],
) -> Awaits
    ensures visited { visitor.new ≡ back V.after visitor.old (joined_acts funcs.now (stmts_fulls funcs.now order stmts.now)) }
    ensures awaits { result ≡ awaits_of funcs.now (joined_acts funcs.now (stmts_fulls funcs.now order stmts.now)) }
{
    let mut later = Awaits::none();
    let mut at = stmts.len();
    while at > 0 {
        at -= 1;
        later = visit_stmt(visitor, funcs, order, &stmts[at]).and(later);
    }
    later
}

#[cycle(stmts)]
fn visit_handlers<V: Visitor>(
    visitor: &mut V,
    funcs: &[CoreFunc],
    order: Order,
    handlers: &[Handler],
) -> Awaits
    ensures visited { visitor.new ≡ back V.after visitor.old (joined_acts funcs.now (handlers_fulls funcs.now order handlers.now)) }
    ensures awaits { result ≡ awaits_of funcs.now (joined_acts funcs.now (handlers_fulls funcs.now order handlers.now)) }
{
    let mut later = Awaits::none();
    let mut at = handlers.len();
    while at > 0 {
        at -= 1;
        later = visit_stmt(visitor, funcs, order, &handlers[at].body).and(later);
    }
    later
}

/// Visits the acts of initializers, of which each is a full-expression.
pub fn visit_inits<V: Visitor>(visitor: &mut V, funcs: &[CoreFunc], inits: &[Init]) -> Awaits
    ensures visited { visitor.new ≡ back V.after visitor.old (joined_acts funcs.now (inits_fulls funcs.now inits.now)) }
    ensures awaits { result ≡ awaits_of funcs.now (joined_acts funcs.now (inits_fulls funcs.now inits.now)) }
{
    let mut later = Awaits::none();
    let mut at = inits.len();
    while at > 0 {
        at -= 1;
        later = visit_init(visitor, funcs, false, false, &inits[at]).and(later);
    }
    later
}

fn visit_copies<V: Visitor>(visitor: &mut V, funcs: &[CoreFunc], copies: &[CopyPlan]) -> Awaits
    ensures visited { visitor.new ≡ back V.after visitor.old (joined_acts funcs.now (copies_fulls funcs.now copies.now)) }
    ensures awaits { result ≡ awaits_of funcs.now (joined_acts funcs.now (copies_fulls funcs.now copies.now)) }
{
    let mut later = Awaits::none();
    let mut at = copies.len();
    while at > 0 {
        at -= 1;
        later = visit_init(visitor, funcs, false, false, &copies[at].init).and(later);
    }
    later
}

fn visit_role<V: Visitor>(visitor: &mut V, funcs: &[CoreFunc], role: &FuncRole) -> Awaits
    ensures visited { visitor.new ≡ back V.after visitor.old (joined_acts funcs.now (role_fulls funcs.now role.now)) }
    ensures awaits { result ≡ awaits_of funcs.now (joined_acts funcs.now (role_fulls funcs.now role.now)) }
{
    match role {
        FuncRole::Ctor(_, members) => visit_inits(visitor, funcs, members.as_slice()),
        FuncRole::Plain | FuncRole::Dtor(_) => Awaits::none(),
    }
}

fn visit_promise<V: Visitor>(visitor: &mut V, funcs: &[CoreFunc], plan: &PromisePlan) -> Awaits
    ensures visited { visitor.new ≡ back V.after visitor.old (joined_acts funcs.now (plan_fulls funcs.now (Some plan.now))) }
    ensures awaits { result ≡ awaits_of funcs.now (joined_acts funcs.now (plan_fulls funcs.now (Some plan.now))) }
{
    let last = visit_await(visitor, funcs, &plan.last);
    let initial = visit_await(visitor, funcs, &plan.initial);
    let args = visit_inits(visitor, funcs, plan.ctor_args.as_slice());
    let copies = visit_copies(visitor, funcs, plan.copies.as_slice());
    let taken = visit_inits(visitor, funcs, plan.take_args.as_slice());
    taken.and(copies.and(args.and(initial.and(last))))
}

fn visit_coroutine<V: Visitor>(
    visitor: &mut V,
    funcs: &[CoreFunc],
    plan: &Option<PromisePlan>,
) -> Awaits
    ensures visited { visitor.new ≡ back V.after visitor.old (joined_acts funcs.now (plan_fulls funcs.now plan.now)) }
    ensures awaits { result ≡ awaits_of funcs.now (joined_acts funcs.now (plan_fulls funcs.now plan.now)) }
{
    match plan {
        Some(plan) => visit_promise(visitor, funcs, plan),
        None => Awaits::none(),
    }
}

/// Visits all acts of a function.
pub fn visit_func<V: Visitor>(
    visitor: &mut V,
    funcs: &[CoreFunc],
    order: Order,
    func: &CoreFunc,
) -> Awaits
    ensures visited { visitor.new ≡ back V.after visitor.old (acts_in funcs.now order func.now) }
    ensures awaits { result ≡ awaits_of funcs.now (acts_in funcs.now order func.now) }
{
    let body = visit_stmt(visitor, funcs, order, &func.body);
    let plan = visit_coroutine(visitor, funcs, &func.plan);
    visit_role(visitor, funcs, &func.role).and(plan.and(body))
}

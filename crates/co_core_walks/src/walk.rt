ghost use Rattle.std.specs.Prelude.{◌≡◌, Bool, false, List, flat_map, fold};
ghost use Rattle.co_base.specs.declared.ids.FuncId.{FuncId};
ghost use Rattle.co_core_tree.specs.Acts.{Does, Starts, acts, init_acts};
ghost use Rattle.co_core_walks.specs.Lists.{plan_acts, inits_acts};

use crate::visitor::Visitor;
use co_core_tree::{AwaitPlan, CoreExpr, Init};

/// Visits the acts of an expression in the order of evaluation.
#[cycle(walk)]
pub fn walk_expr<V: Visitor>(v: &mut V, e: &CoreExpr)
    ensures { (objects : FuncId → List Bool) (c o : Bool) → v.new ≡ fold V.after v.old (acts objects c o e.now) }
{
    walk_parts(v, e);
    v.visit_expr(e);
}

/// Visits the acts of an expression but for its own.
#[cycle(walk)]
fn walk_parts<V: Visitor>(v: &mut V, e: &CoreExpr)
    ensures { (objects : FuncId → List Bool) (c o : Bool) → V.after v.new (Does c e.now) ≡ fold V.after v.old (acts objects c o e.now) }
{
    match e {
        CoreExpr::Field(part, _, _) => walk_expr(v, part.get()),
        CoreExpr::Deref(part, _) => walk_expr(v, part.get()),
        CoreExpr::Address(part, _) => walk_expr(v, part.get()),
        CoreExpr::Load(part, _) => walk_expr(v, part.get()),
        CoreExpr::Store(place, value, _) => {
            walk_expr(v, value.get());
            walk_expr(v, place.get());
        }
        CoreExpr::Exchange(place, value, _) => {
            walk_expr(v, place.get());
            walk_expr(v, value.get());
        }
        CoreExpr::Update(_, _, place, value, _, _) => {
            walk_expr(v, value.get());
            walk_expr(v, place.get());
        }
        CoreExpr::Arith(_, _, left, right, _) => {
            walk_expr(v, left.get());
            walk_expr(v, right.get());
        }
        CoreExpr::Convert(_, part, _) => walk_expr(v, part.get()),
        CoreExpr::Test(part, _) => walk_expr(v, part.get()),
        CoreExpr::Same(left, right, _) => {
            walk_expr(v, left.get());
            walk_expr(v, right.get());
        }
        CoreExpr::Both(left, right, _) => {
            walk_expr(v, left.get());
            walk_expr(v, right.get());
        }
        CoreExpr::Either(left, right, _) => {
            walk_expr(v, left.get());
            walk_expr(v, right.get());
        }
        CoreExpr::Pick(condition, x, y, _) => {
            walk_expr(v, condition.get());
            walk_expr(v, x.get());
            walk_expr(v, y.get());
        }
        CoreExpr::Call(_, args, _) => walk_inits(v, args.as_slice()),
        CoreExpr::Temp(_, init, _) => walk_init(v, init.get()),
        CoreExpr::Throw(_, part, _) => walk_expr(v, part.get()),
        CoreExpr::RethrowPtr(part, _) => walk_expr(v, part.get()),
        CoreExpr::Await(plan) => walk_await(v, plan.get()),
        CoreExpr::Handle(_, operands, _) => walk_exprs(v, operands.as_slice()),
        CoreExpr::Atomic(_, operands, _) => walk_exprs(v, operands.as_slice()),
        CoreExpr::Lib(_, operands, _) => walk_exprs(v, operands.as_slice()),
        CoreExpr::New(plan) => walk_init(v, &plan.get().init),
        CoreExpr::Delete(plan) => walk_expr(v, &plan.get().pointer),
        CoreExpr::Const(_, _, _)
        | CoreExpr::Null(_)
        | CoreExpr::Slot(_, _)
        | CoreExpr::Global(_, _)
        | CoreExpr::Whole(_, _)
        | CoreExpr::Rethrow(_)
        | CoreExpr::Terminate(_)
        | CoreExpr::Current(_) => {}
    }
}

/// Visits the acts of the parts of an await.
#[cycle(walk)]
pub fn walk_await<V: Visitor>(v: &mut V, plan: &AwaitPlan)
    ensures { (objects : FuncId → List Bool) (c : Bool) → v.new ≡ fold V.after v.old (plan_acts objects c plan.now) }
{
    walk_expr(v, &plan.operand);
    walk_expr(v, &plan.ready);
    walk_expr(v, &plan.suspend);
    walk_expr(v, &plan.resume);
}

/// Visits the acts of an initializer in the order of evaluation.
#[cycle(walk)]
pub fn walk_init<V: Visitor>(v: &mut V, i: &Init)
    ensures { (objects : FuncId → List Bool) (c o : Bool) → v.new ≡ fold V.after v.old (init_acts objects c o i.now) }
{
    walk_init_parts(v, i);
    v.visit_init(i);
}

#[cycle(walk)]
fn walk_init_parts<V: Visitor>(v: &mut V, i: &Init)
    ensures { (objects : FuncId → List Bool) (c o : Bool) → V.after v.new (Starts i.now) ≡ fold V.after v.old (init_acts objects c o i.now) }
{
    match i {
        Init::Ctor(_, args) => walk_inits(v, args.as_slice()),
        Init::Members(members) => walk_inits(v, members.as_slice()),
        Init::Value(e) => walk_expr(v, e),
        Init::Result(e) => walk_expr(v, e),
        Init::Raw => {}
        Init::Choose(e, x, y) => {
            walk_expr(v, e);
            walk_init(v, x.get());
            walk_init(v, y.get());
        }
    }
}

#[cycle(walk)]
fn walk_exprs<V: Visitor>(v: &mut V, es: &[CoreExpr])
    ensures { (objects : FuncId → List Bool) (c : Bool) → v.new ≡ fold V.after v.old (flat_map (acts objects c false) es.now) }
{
    for e in es {
        walk_expr(v, e);
    }
}

/// Visits the acts of the initializers of a list, one after the other.
#[cycle(walk)]
pub fn walk_inits<V: Visitor>(v: &mut V, is: &[Init])
    ensures { (objects : FuncId → List Bool) (flags : List Bool) (c : Bool) → v.new ≡ fold V.after v.old (inits_acts objects flags c is.now) }
{
    for i in is {
        walk_init(v, i);
    }
}

ghost use Rattle.std.specs.Prelude.{◌≡◌, ◌≤◌, Bool, true, false, ◌||◌, cond, ◌∷◌, [], ◌++◌, drop};
ghost use Rattle.co_core.specs.Bodies.{await_acts};
ghost use Rattle.co_core_tree.specs.Acts.{Does, Keeps, OfExpr, acts, init_acts};
ghost use Rattle.co_core_tree.specs.Slots.{class_params};
ghost use Rattle.co_core_acts.specs.Visits.{back, awaits_of, operands_acts, inits_acts, arguments_acts, plan_acts, joined};

use crate::params::takes_class;
use crate::visitor::{Awaits, Visitor, either, keep_argument, keep_expr, temp};
use co_base::FuncId;
use co_core_tree::{AwaitPlan, CoreExpr, CoreFunc, Init, NewPlan};

/// Visits the acts of an expression; `object` tells whether it is the argument for a class parameter.
#[cycle(acting)]
pub fn visit_expr<V: Visitor>(
    visitor: &mut V,
    funcs: &[CoreFunc],
    conditional: bool,
    object: bool,
    e: &CoreExpr,
) -> Awaits
    ensures visited { visitor.new ≡ back V.after visitor.old (acts (class_params funcs.now) conditional object e.now) }
    ensures awaits { (c o : Bool) → result ≡ awaits_of funcs.now (acts (class_params funcs.now) c o e.now) }
{
    match e {
        CoreExpr::Const(..) => alone(visitor, conditional, e),
        CoreExpr::Null(_) => alone(visitor, conditional, e),
        CoreExpr::Slot(..) => alone(visitor, conditional, e),
        CoreExpr::Global(..) => alone(visitor, conditional, e),
        CoreExpr::Field(part, _, _) => one(visitor, funcs, conditional, part.get(), e),
        CoreExpr::Deref(part, _) => one(visitor, funcs, conditional, part.get(), e),
        CoreExpr::Address(part, _) => one(visitor, funcs, conditional, part.get(), e),
        CoreExpr::Whole(..) => alone(visitor, conditional, e),
        CoreExpr::Load(part, _) => one(visitor, funcs, conditional, part.get(), e),
        CoreExpr::Store(place, value, _) => {
            let later = one(visitor, funcs, conditional, place.get(), e);
            kept_earlier(visitor, funcs, conditional, value.get(), later)
        }
        CoreExpr::Exchange(place, value, _) => {
            let later = one(visitor, funcs, conditional, value.get(), e);
            kept_earlier(visitor, funcs, conditional, place.get(), later)
        }
        CoreExpr::Update(_, _, place, value, _, _) => {
            let later = one(visitor, funcs, conditional, place.get(), e);
            kept_earlier(visitor, funcs, conditional, value.get(), later)
        }
        CoreExpr::Arith(_, _, left, right, _) => {
            let later = one(visitor, funcs, conditional, right.get(), e);
            kept_earlier(visitor, funcs, conditional, left.get(), later)
        }
        CoreExpr::Convert(_, part, _) => one(visitor, funcs, conditional, part.get(), e),
        CoreExpr::Test(part, _) => one(visitor, funcs, conditional, part.get(), e),
        CoreExpr::Same(left, right, _) => {
            let later = one(visitor, funcs, conditional, right.get(), e);
            kept_earlier(visitor, funcs, conditional, left.get(), later)
        }
        CoreExpr::Both(left, right, _) => {
            let later = branch(visitor, funcs, conditional, right.get(), e);
            earlier(visitor, funcs, conditional, left.get(), later)
        }
        CoreExpr::Either(left, right, _) => {
            let later = branch(visitor, funcs, conditional, right.get(), e);
            earlier(visitor, funcs, conditional, left.get(), later)
        }
        CoreExpr::Pick(condition, x, y, _) => {
            let last = branch(visitor, funcs, conditional, y.get(), e);
            let later = earlier(visitor, funcs, true, x.get(), last);
            earlier(visitor, funcs, conditional, condition.get(), later)
        }
        CoreExpr::Call(func, args, _) => call(
            visitor,
            funcs,
            conditional,
            *func,
            args.as_slice(),
            e,
        ),
        CoreExpr::Temp(_, init, _) => {
            temp(visitor, conditional, object, e);
            visit_init(visitor, funcs, conditional, false, init.get())
        }
        CoreExpr::Throw(_, part, _) => one(visitor, funcs, conditional, part.get(), e),
        CoreExpr::Rethrow(_) => alone(visitor, conditional, e),
        CoreExpr::Terminate(_) => alone(visitor, conditional, e),
        CoreExpr::Current(_) => alone(visitor, conditional, e),
        CoreExpr::RethrowPtr(part, _) => one(visitor, funcs, conditional, part.get(), e),
        CoreExpr::Await(plan) => awaited(visitor, funcs, conditional, plan.get(), e),
        CoreExpr::Handle(_, operands, _) => many(
            visitor,
            funcs,
            conditional,
            operands.as_slice(),
            e,
        ),
        CoreExpr::Atomic(_, operands, _) => many(
            visitor,
            funcs,
            conditional,
            operands.as_slice(),
            e,
        ),
        CoreExpr::Lib(_, operands, _) => many(visitor, funcs, conditional, operands.as_slice(), e),
        CoreExpr::New(plan) => made(visitor, funcs, conditional, plan.get(), e),
        CoreExpr::Delete(plan) => one(visitor, funcs, conditional, &plan.get().pointer, e),
    }
}

fn alone<V: Visitor>(visitor: &mut V, conditional: bool, e: &CoreExpr) -> Awaits
    ensures visited { visitor.new ≡ V.after visitor.old (Does conditional e.now) }
    ensures any { result.any ≡ false }
    ensures in_new { result.in_new ≡ false }
{
    visitor.does(conditional, e);
    Awaits::none()
}

#[cycle(acting)]
fn one<V: Visitor>(
    visitor: &mut V,
    funcs: &[CoreFunc],
    conditional: bool,
    part: &CoreExpr,
    whole: &CoreExpr,
) -> Awaits
    ensures visited { visitor.new ≡ back V.after visitor.old (acts (class_params funcs.now) conditional false part.now ++ Does conditional whole.now ∷ []) }
    ensures awaits { (c : Bool) → result ≡ awaits_of funcs.now (acts (class_params funcs.now) c false part.now) }
{
    visitor.does(conditional, whole);
    visit_expr(visitor, funcs, conditional, false, part)
}

/// An operand that may not be evaluated, and the act of the whole.
#[cycle(acting)]
fn branch<V: Visitor>(
    visitor: &mut V,
    funcs: &[CoreFunc],
    conditional: bool,
    part: &CoreExpr,
    whole: &CoreExpr,
) -> Awaits
    ensures visited { visitor.new ≡ back V.after visitor.old (acts (class_params funcs.now) true false part.now ++ Does conditional whole.now ∷ []) }
    ensures awaits { (c : Bool) → result ≡ awaits_of funcs.now (acts (class_params funcs.now) c false part.now) }
{
    visitor.does(conditional, whole);
    visit_expr(visitor, funcs, true, false, part)
}

/// A part before what has been visited, in which these awaits are.
#[cycle(acting)]
fn earlier<V: Visitor>(
    visitor: &mut V,
    funcs: &[CoreFunc],
    conditional: bool,
    part: &CoreExpr,
    later: Awaits,
) -> Awaits
    ensures visited { visitor.new ≡ back V.after visitor.old (acts (class_params funcs.now) conditional false part.now) }
    ensures awaits { (c : Bool) → result ≡ joined (awaits_of funcs.now (acts (class_params funcs.now) c false part.now)) later }
{
    visit_expr(visitor, funcs, conditional, false, part).and(later)
}

/// The same of a part whose value is kept where what comes later awaits.
#[cycle(acting)]
fn kept_earlier<V: Visitor>(
    visitor: &mut V,
    funcs: &[CoreFunc],
    conditional: bool,
    part: &CoreExpr,
    later: Awaits,
) -> Awaits
    ensures visited { visitor.new ≡ back V.after (cond later.any (V.after visitor.old (Keeps (OfExpr part.now))) visitor.old) (acts (class_params funcs.now) conditional false part.now) }
    ensures awaits { (c : Bool) → result ≡ joined (awaits_of funcs.now (acts (class_params funcs.now) c false part.now)) later }
{
    keep_expr(visitor, part, later.any);
    visit_expr(visitor, funcs, conditional, false, part).and(later)
}

#[cycle(acting)]
fn call<V: Visitor>(
    visitor: &mut V,
    funcs: &[CoreFunc],
    conditional: bool,
    func: FuncId,
    args: &[Init],
    whole: &CoreExpr,
) -> Awaits
    ensures visited { visitor.new ≡ back V.after visitor.old (arguments_acts funcs.now (class_params funcs.now func) conditional args.now ++ Does conditional whole.now ∷ []) }
    ensures awaits { (c : Bool) → result ≡ awaits_of funcs.now (arguments_acts funcs.now (class_params funcs.now func) c args.now) }
{
    visitor.does(conditional, whole);
    visit_args(visitor, funcs, conditional, func, 0, args)
}

#[cycle(acting)]
fn many<V: Visitor>(
    visitor: &mut V,
    funcs: &[CoreFunc],
    conditional: bool,
    operands: &[CoreExpr],
    whole: &CoreExpr,
) -> Awaits
    ensures visited { visitor.new ≡ back V.after visitor.old (operands_acts funcs.now conditional operands.now ++ Does conditional whole.now ∷ []) }
    ensures awaits { (c : Bool) → result ≡ awaits_of funcs.now (operands_acts funcs.now c operands.now) }
{
    visitor.does(conditional, whole);
    visit_operands(visitor, funcs, conditional, operands)
}

#[cycle(acting)]
fn awaited<V: Visitor>(
    visitor: &mut V,
    funcs: &[CoreFunc],
    conditional: bool,
    plan: &AwaitPlan,
    whole: &CoreExpr,
) -> Awaits
    ensures visited { visitor.new ≡ back V.after visitor.old (plan_acts funcs.now conditional plan.now ++ Does conditional whole.now ∷ []) }
    ensures any { result.any ≡ true }
    ensures in_new { (c : Bool) → result.in_new ≡ (awaits_of funcs.now (plan_acts funcs.now c plan.now)).in_new }
{
    visitor.does(conditional, whole);
    let parts = visit_plan(visitor, funcs, conditional, plan);
    Awaits {
        any: true,
        in_new: parts.in_new,
    }
}

#[cycle(acting)]
fn made<V: Visitor>(
    visitor: &mut V,
    funcs: &[CoreFunc],
    conditional: bool,
    plan: &NewPlan,
    whole: &CoreExpr,
) -> Awaits
    ensures visited { visitor.new ≡ back V.after visitor.old (init_acts (class_params funcs.now) (conditional || plan.now.may_be_null) false plan.now.init ++ Does conditional whole.now ∷ []) }
    ensures any { (c : Bool) → result.any ≡ (awaits_of funcs.now (init_acts (class_params funcs.now) c false plan.now.init)).any }
    ensures in_new { (c d : Bool) → result.in_new ≡ ((awaits_of funcs.now (init_acts (class_params funcs.now) c false plan.now.init)).in_new || (awaits_of funcs.now (init_acts (class_params funcs.now) d false plan.now.init)).any) }
{
    visitor.does(conditional, whole);
    let unsure = either(conditional, plan.may_be_null);
    visit_init(visitor, funcs, unsure, false, &plan.init).within_new()
}

#[cycle(acting)]
fn visit_plan<V: Visitor>(
    visitor: &mut V,
    funcs: &[CoreFunc],
    conditional: bool,
    plan: &AwaitPlan,
) -> Awaits
    ensures visited { visitor.new ≡ back V.after visitor.old (plan_acts funcs.now conditional plan.now) }
    ensures awaits { (c : Bool) → result ≡ awaits_of funcs.now (plan_acts funcs.now c plan.now) }
{
    let resume = visit_expr(visitor, funcs, conditional, false, &plan.resume);
    let suspend = visit_expr(visitor, funcs, conditional, false, &plan.suspend);
    let ready = visit_expr(visitor, funcs, conditional, false, &plan.ready);
    let operand = visit_expr(visitor, funcs, conditional, false, &plan.operand);
    operand.and(ready.and(suspend.and(resume)))
}

/// Visits the acts of an initializer; `object` tells whether it makes the object of a class parameter.
#[cycle(acting)]
pub fn visit_init<V: Visitor>(
    visitor: &mut V,
    funcs: &[CoreFunc],
    conditional: bool,
    object: bool,
    init: &Init,
) -> Awaits
    ensures visited { visitor.new ≡ back V.after visitor.old (init_acts (class_params funcs.now) conditional object init.now) }
    ensures awaits { (c o : Bool) → result ≡ awaits_of funcs.now (init_acts (class_params funcs.now) c o init.now) }
{
    visitor.starts(init);
    match init {
        Init::Ctor(func, args) => visit_args(
            visitor,
            funcs,
            conditional,
            *func,
            1,
            args.as_slice(),
        ),
        Init::Members(members) => visit_members(visitor, funcs, conditional, members.as_slice()),
        Init::Value(e) => visit_expr(visitor, funcs, conditional, object, e),
        Init::Result(e) => visit_expr(visitor, funcs, conditional, false, e),
        Init::Raw => Awaits::none(),
        Init::Choose(e, x, y) => {
            let last = visit_init(visitor, funcs, true, false, y.get());
            let later = visit_init(visitor, funcs, true, false, x.get()).and(last);
            earlier(visitor, funcs, conditional, e, later)
        }
    }
}

#[cycle(acting)]
fn visit_operands<V: Visitor>(
    visitor: &mut V,
    funcs: &[CoreFunc],
    conditional: bool,
    operands: &[CoreExpr],
) -> Awaits
    ensures visited { visitor.new ≡ back V.after visitor.old (operands_acts funcs.now conditional operands.now) }
    ensures awaits { (c : Bool) → result ≡ awaits_of funcs.now (operands_acts funcs.now c operands.now) }
{
    let mut later = Awaits::none();
    let mut at = operands.len();
    while at > 0 {
        at -= 1;
        let operand = &operands[at];
        keep_expr(visitor, operand, later.any);
        later = visit_expr(visitor, funcs, conditional, false, operand).and(later);
    }
    later
}

#[cycle(acting)]
fn visit_members<V: Visitor>(
    visitor: &mut V,
    funcs: &[CoreFunc],
    conditional: bool,
    members: &[Init],
) -> Awaits
    ensures visited { visitor.new ≡ back V.after visitor.old (inits_acts funcs.now conditional members.now) }
    ensures awaits { (c : Bool) → result ≡ awaits_of funcs.now (inits_acts funcs.now c members.now) }
{
    let mut later = Awaits::none();
    let mut at = members.len();
    while at > 0 {
        at -= 1;
        later = visit_init(visitor, funcs, conditional, false, &members[at]).and(later);
    }
    later
}

/// Visits the acts of arguments. The first is for the parameter of the number `start`.
#[cycle(acting)]
fn visit_args<V: Visitor>(
    visitor: &mut V,
    funcs: &[CoreFunc],
    conditional: bool,
    func: FuncId,
    start: usize,
    args: &[Init],
) -> Awaits
    requires { start ≤ 1 }
    ensures visited { visitor.new ≡ back V.after visitor.old (arguments_acts funcs.now (drop start (class_params funcs.now func)) conditional args.now) }
    ensures awaits { (c : Bool) → result ≡ awaits_of funcs.now (arguments_acts funcs.now (drop start (class_params funcs.now func)) c args.now) }
{
    let mut later = Awaits::none();
    let mut at = args.len();
    while at > 0 {
        at -= 1;
        let arg = &args[at];
        let object = takes_class(funcs, func, start + at);
        keep_argument(visitor, arg, object, later.any);
        later = visit_init(visitor, funcs, conditional, object, arg).and(later);
    }
    later
}

/// Visits the acts of the initial or the final await of a coroutine.
pub fn visit_await<V: Visitor>(visitor: &mut V, funcs: &[CoreFunc], plan: &AwaitPlan) -> Awaits
    ensures visited { visitor.new ≡ back V.after visitor.old (await_acts funcs.now plan.now) }
    ensures awaits { result ≡ awaits_of funcs.now (await_acts funcs.now plan.now) }
{
    visit_plan(visitor, funcs, false, plan)
}

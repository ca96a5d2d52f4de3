ghost use Rattle.std.specs.Prelude.{◌≡◌, IfOk};
ghost use Rattle.co_core_tree.specs.declared.exprs.CoreExpr.TheVariants as expr;
ghost use Rattle.co_core_tree.specs.declared.exprs.Init.TheVariants as init;

use co_base::{FuncId, NoMemory, Num, Op, SlotId, Span};
use co_core_tree::{AtomicOp, AwaitPlan, CoreExpr, DeletePlan, HandleOp, Init, LibOp, NewPlan};
use co_types::CoType;
use sqlite_items::{Boxed, Items};
use std::alloc::Global;

/// An expression that is equal to this one.
#[cycle(copying)]
#[tactic(auto, using(crate::proofs::Depths::both_fall))]
pub(crate) fn copy_expr(alloc: Global, e: &CoreExpr) -> Result<CoreExpr, NoMemory>
    ensures { IfOk result (λ copied. copied ≡ e.now) }
{
    match e {
        CoreExpr::Const(num, value, at) => Ok(CoreExpr::Const(*num, *value, *at)),
        CoreExpr::Null(at) => Ok(CoreExpr::Null(*at)),
        CoreExpr::Slot(slot, at) => Ok(CoreExpr::Slot(*slot, *at)),
        CoreExpr::Global(global, at) => Ok(CoreExpr::Global(*global, *at)),
        CoreExpr::Field(object, number, at) => copy_field(alloc, object.get(), *number, *at),
        CoreExpr::Deref(pointer, at) => copy_deref(alloc, pointer.get(), *at),
        CoreExpr::Address(place, at) => copy_address(alloc, place.get(), *at),
        CoreExpr::Whole(number, at) => Ok(CoreExpr::Whole(*number, *at)),
        CoreExpr::Load(place, at) => copy_load(alloc, place.get(), *at),
        CoreExpr::Store(place, value, at) => copy_store(alloc, place.get(), value.get(), *at),
        CoreExpr::Exchange(place, value, at) => {
            copy_exchange(alloc, place.get(), value.get(), *at)
        }
        CoreExpr::Update(op, num, place, value, old, at) => {
            copy_update(alloc, *op, *num, place.get(), value.get(), *old, *at)
        }
        CoreExpr::Arith(op, num, left, right, at) => {
            copy_arith(alloc, *op, *num, left.get(), right.get(), *at)
        }
        CoreExpr::Convert(num, part, at) => copy_convert(alloc, *num, part.get(), *at),
        CoreExpr::Test(part, at) => copy_test(alloc, part.get(), *at),
        CoreExpr::Same(left, right, at) => copy_same(alloc, left.get(), right.get(), *at),
        CoreExpr::Both(left, right, at) => copy_both(alloc, left.get(), right.get(), *at),
        CoreExpr::Either(left, right, at) => copy_either(alloc, left.get(), right.get(), *at),
        CoreExpr::Pick(condition, x, y, at) => {
            copy_pick(alloc, condition.get(), x.get(), y.get(), *at)
        }
        CoreExpr::Call(func, args, at) => copy_call(alloc, *func, args.as_slice(), *at),
        CoreExpr::Temp(slot, init, at) => copy_temp(alloc, *slot, init.get(), *at),
        CoreExpr::Throw(of, part, at) => copy_throw(alloc, of, part.get(), *at),
        CoreExpr::Rethrow(at) => Ok(CoreExpr::Rethrow(*at)),
        CoreExpr::Terminate(at) => Ok(CoreExpr::Terminate(*at)),
        CoreExpr::Current(at) => Ok(CoreExpr::Current(*at)),
        CoreExpr::RethrowPtr(part, at) => copy_rethrow_ptr(alloc, part.get(), *at),
        CoreExpr::Await(plan) => copy_await_expr(alloc, plan.get()),
        CoreExpr::Handle(op, operands, at) => copy_handle(alloc, *op, operands.as_slice(), *at),
        CoreExpr::Atomic(op, operands, at) => copy_atomic(alloc, *op, operands.as_slice(), *at),
        CoreExpr::Lib(op, operands, at) => copy_lib(alloc, *op, operands.as_slice(), *at),
        CoreExpr::New(plan) => copy_new_expr(alloc, plan.get()),
        CoreExpr::Delete(plan) => copy_delete_expr(alloc, plan.get()),
    }
}

#[cycle(copying)]
fn boxed(alloc: Global, e: &CoreExpr) -> Result<Boxed<CoreExpr>, NoMemory>
    ensures { IfOk result (λ copied. copied ≡ e.now) }
{
    let e = copy_expr(alloc, e)?;
    Ok(Boxed::new(alloc, e)?)
}

#[cycle(copying)]
fn copy_field(alloc: Global, object: &CoreExpr, number: u32, at: Span) -> Result<CoreExpr, NoMemory>
    ensures { IfOk result (λ copied. copied ≡ expr.Field object.now number at) }
{
    let object = boxed(alloc, object)?;
    Ok(CoreExpr::Field(object, number, at))
}

#[cycle(copying)]
fn copy_deref(alloc: Global, pointer: &CoreExpr, at: Span) -> Result<CoreExpr, NoMemory>
    ensures { IfOk result (λ copied. copied ≡ expr.Deref pointer.now at) }
{
    let pointer = boxed(alloc, pointer)?;
    Ok(CoreExpr::Deref(pointer, at))
}

#[cycle(copying)]
fn copy_address(alloc: Global, place: &CoreExpr, at: Span) -> Result<CoreExpr, NoMemory>
    ensures { IfOk result (λ copied. copied ≡ expr.Address place.now at) }
{
    let place = boxed(alloc, place)?;
    Ok(CoreExpr::Address(place, at))
}

#[cycle(copying)]
fn copy_load(alloc: Global, place: &CoreExpr, at: Span) -> Result<CoreExpr, NoMemory>
    ensures { IfOk result (λ copied. copied ≡ expr.Load place.now at) }
{
    let place = boxed(alloc, place)?;
    Ok(CoreExpr::Load(place, at))
}

#[cycle(copying)]
fn copy_test(alloc: Global, part: &CoreExpr, at: Span) -> Result<CoreExpr, NoMemory>
    ensures { IfOk result (λ copied. copied ≡ expr.Test part.now at) }
{
    let part = boxed(alloc, part)?;
    Ok(CoreExpr::Test(part, at))
}

#[cycle(copying)]
fn copy_rethrow_ptr(alloc: Global, part: &CoreExpr, at: Span) -> Result<CoreExpr, NoMemory>
    ensures { IfOk result (λ copied. copied ≡ expr.RethrowPtr part.now at) }
{
    let part = boxed(alloc, part)?;
    Ok(CoreExpr::RethrowPtr(part, at))
}

#[cycle(copying)]
fn copy_convert(alloc: Global, num: Num, part: &CoreExpr, at: Span) -> Result<CoreExpr, NoMemory>
    ensures { IfOk result (λ copied. copied ≡ expr.Convert num part.now at) }
{
    let part = boxed(alloc, part)?;
    Ok(CoreExpr::Convert(num, part, at))
}

#[cycle(copying)]
fn copy_store(
    alloc: Global,
    place: &CoreExpr,
    value: &CoreExpr,
    at: Span,
) -> Result<CoreExpr, NoMemory>
    ensures { IfOk result (λ copied. copied ≡ expr.Store place.now value.now at) }
{
    let place = boxed(alloc, place)?;
    let value = boxed(alloc, value)?;
    Ok(CoreExpr::Store(place, value, at))
}

#[cycle(copying)]
fn copy_exchange(
    alloc: Global,
    place: &CoreExpr,
    value: &CoreExpr,
    at: Span,
) -> Result<CoreExpr, NoMemory>
    ensures { IfOk result (λ copied. copied ≡ expr.Exchange place.now value.now at) }
{
    let place = boxed(alloc, place)?;
    let value = boxed(alloc, value)?;
    Ok(CoreExpr::Exchange(place, value, at))
}

#[cycle(copying)]
fn copy_same(
    alloc: Global,
    left: &CoreExpr,
    right: &CoreExpr,
    at: Span,
) -> Result<CoreExpr, NoMemory>
    ensures { IfOk result (λ copied. copied ≡ expr.Same left.now right.now at) }
{
    let left = boxed(alloc, left)?;
    let right = boxed(alloc, right)?;
    Ok(CoreExpr::Same(left, right, at))
}

#[cycle(copying)]
fn copy_both(
    alloc: Global,
    left: &CoreExpr,
    right: &CoreExpr,
    at: Span,
) -> Result<CoreExpr, NoMemory>
    ensures { IfOk result (λ copied. copied ≡ expr.Both left.now right.now at) }
{
    let left = boxed(alloc, left)?;
    let right = boxed(alloc, right)?;
    Ok(CoreExpr::Both(left, right, at))
}

#[cycle(copying)]
fn copy_either(
    alloc: Global,
    left: &CoreExpr,
    right: &CoreExpr,
    at: Span,
) -> Result<CoreExpr, NoMemory>
    ensures { IfOk result (λ copied. copied ≡ expr.Either left.now right.now at) }
{
    let left = boxed(alloc, left)?;
    let right = boxed(alloc, right)?;
    Ok(CoreExpr::Either(left, right, at))
}

#[cycle(copying)]
fn copy_update(
    alloc: Global,
    op: Op,
    num: Num,
    place: &CoreExpr,
    value: &CoreExpr,
    old: bool,
    at: Span,
) -> Result<CoreExpr, NoMemory>
    ensures { IfOk result (λ copied. copied ≡ expr.Update op num place.now value.now old at) }
{
    let place = boxed(alloc, place)?;
    let value = boxed(alloc, value)?;
    Ok(CoreExpr::Update(op, num, place, value, old, at))
}

#[cycle(copying)]
fn copy_arith(
    alloc: Global,
    op: Op,
    num: Num,
    left: &CoreExpr,
    right: &CoreExpr,
    at: Span,
) -> Result<CoreExpr, NoMemory>
    ensures { IfOk result (λ copied. copied ≡ expr.Arith op num left.now right.now at) }
{
    let left = boxed(alloc, left)?;
    let right = boxed(alloc, right)?;
    Ok(CoreExpr::Arith(op, num, left, right, at))
}

#[cycle(copying)]
fn copy_pick(
    alloc: Global,
    condition: &CoreExpr,
    x: &CoreExpr,
    y: &CoreExpr,
    at: Span,
) -> Result<CoreExpr, NoMemory>
    ensures { IfOk result (λ copied. copied ≡ expr.Pick condition.now x.now y.now at) }
{
    let condition = boxed(alloc, condition)?;
    let x = boxed(alloc, x)?;
    let y = boxed(alloc, y)?;
    Ok(CoreExpr::Pick(condition, x, y, at))
}

#[cycle(copying)]
fn copy_call(alloc: Global, func: FuncId, args: &[Init], at: Span) -> Result<CoreExpr, NoMemory>
    ensures { IfOk result (λ copied. copied ≡ expr.Call func args.now at) }
{
    let args = copy_inits(alloc, args)?;
    Ok(CoreExpr::Call(func, args, at))
}

#[cycle(copying)]
fn copy_temp(alloc: Global, slot: SlotId, init: &Init, at: Span) -> Result<CoreExpr, NoMemory>
    ensures { IfOk result (λ copied. copied ≡ expr.Temp slot init.now at) }
{
    let init = boxed_init(alloc, init)?;
    Ok(CoreExpr::Temp(slot, init, at))
}

#[cycle(copying)]
fn copy_throw(alloc: Global, of: &CoType, part: &CoreExpr, at: Span) -> Result<CoreExpr, NoMemory>
    ensures { IfOk result (λ copied. copied ≡ expr.Throw of.now part.now at) }
{
    let of = of.copy(alloc)?;
    let part = boxed(alloc, part)?;
    Ok(CoreExpr::Throw(of, part, at))
}

#[cycle(copying)]
fn copy_handle(
    alloc: Global,
    op: HandleOp,
    operands: &[CoreExpr],
    at: Span,
) -> Result<CoreExpr, NoMemory>
    ensures { IfOk result (λ copied. copied ≡ expr.Handle op operands.now at) }
{
    let operands = copy_exprs(alloc, operands)?;
    Ok(CoreExpr::Handle(op, operands, at))
}

#[cycle(copying)]
fn copy_atomic(
    alloc: Global,
    op: AtomicOp,
    operands: &[CoreExpr],
    at: Span,
) -> Result<CoreExpr, NoMemory>
    ensures { IfOk result (λ copied. copied ≡ expr.Atomic op operands.now at) }
{
    let operands = copy_exprs(alloc, operands)?;
    Ok(CoreExpr::Atomic(op, operands, at))
}

#[cycle(copying)]
fn copy_lib(alloc: Global, op: LibOp, operands: &[CoreExpr], at: Span) -> Result<CoreExpr, NoMemory>
    ensures { IfOk result (λ copied. copied ≡ expr.Lib op operands.now at) }
{
    let operands = copy_exprs(alloc, operands)?;
    Ok(CoreExpr::Lib(op, operands, at))
}

#[cycle(copying)]
fn copy_await_expr(alloc: Global, plan: &AwaitPlan) -> Result<CoreExpr, NoMemory>
    ensures { IfOk result (λ copied. copied ≡ expr.Await plan.now) }
{
    let plan = copy_await(alloc, plan)?;
    let plan = Boxed::new(alloc, plan)?;
    Ok(CoreExpr::Await(plan))
}

#[cycle(copying)]
fn copy_new_expr(alloc: Global, plan: &NewPlan) -> Result<CoreExpr, NoMemory>
    ensures { IfOk result (λ copied. copied ≡ expr.New plan.now) }
{
    let plan = copy_new(alloc, plan)?;
    let plan = Boxed::new(alloc, plan)?;
    Ok(CoreExpr::New(plan))
}

#[cycle(copying)]
fn copy_delete_expr(alloc: Global, plan: &DeletePlan) -> Result<CoreExpr, NoMemory>
    ensures { IfOk result (λ copied. copied ≡ expr.Delete plan.now) }
{
    let plan = copy_delete(alloc, plan)?;
    let plan = Boxed::new(alloc, plan)?;
    Ok(CoreExpr::Delete(plan))
}

#[cycle(copying)]
fn copy_exprs(alloc: Global, exprs: &[CoreExpr]) -> Result<Items<CoreExpr>, NoMemory>
    ensures { IfOk result (λ copied. copied ≡ exprs.now) }
{
    let mut copied = Items::new(alloc);
    for item in exprs {
        copied.push(copy_expr(alloc, item)?)?;
    }
    Ok(copied)
}

/// The parts of an await that are equal to these.
#[cycle(copying)]
#[tactic(auto, using(crate::proofs::Depths::both_fall))]
pub(crate) fn copy_await(alloc: Global, plan: &AwaitPlan) -> Result<AwaitPlan, NoMemory>
    ensures { IfOk result (λ copied. copied ≡ plan.now) }
{
    let (operand, ready) = copy_two(alloc, &plan.operand, &plan.ready)?;
    let (suspend, resume) = copy_two(alloc, &plan.suspend, &plan.resume)?;
    Ok(AwaitPlan {
        operand,
        holder: plan.holder,
        ready,
        suspend,
        answer: plan.answer,
        resume,
        point: plan.point,
        span: plan.span,
    })
}

#[cycle(copying)]
fn copy_two(alloc: Global, x: &CoreExpr, y: &CoreExpr) -> Result<(CoreExpr, CoreExpr), NoMemory>
    ensures { IfOk result (λ copied. copied ≡ (x.now, y.now)) }
{
    let x = copy_expr(alloc, x)?;
    let y = copy_expr(alloc, y)?;
    Ok((x, y))
}

#[cycle(copying)]
fn copy_new(alloc: Global, plan: &NewPlan) -> Result<NewPlan, NoMemory>
    ensures { IfOk result (λ copied. copied ≡ plan.now) }
{
    let of = plan.of.copy(alloc)?;
    let init = copy_init(alloc, &plan.init)?;
    Ok(NewPlan {
        of,
        take: plan.take,
        may_be_null: plan.may_be_null,
        init,
        give: plan.give,
        span: plan.span,
    })
}

#[cycle(copying)]
fn copy_delete(alloc: Global, plan: &DeletePlan) -> Result<DeletePlan, NoMemory>
    ensures { IfOk result (λ copied. copied ≡ plan.now) }
{
    let of = plan.of.copy(alloc)?;
    let pointer = copy_expr(alloc, &plan.pointer)?;
    Ok(DeletePlan {
        of,
        pointer,
        destroy: plan.destroy,
        give: plan.give,
        span: plan.span,
    })
}

/// An initializer that is equal to this one.
#[cycle(copying)]
#[tactic(auto, using(crate::proofs::Depths::both_fall))]
pub(crate) fn copy_init(alloc: Global, init: &Init) -> Result<Init, NoMemory>
    ensures { IfOk result (λ copied. copied ≡ init.now) }
{
    match init {
        Init::Ctor(func, args) => copy_ctor(alloc, *func, args.as_slice()),
        Init::Members(members) => copy_members(alloc, members.as_slice()),
        Init::Value(e) => copy_value(alloc, e),
        Init::Result(e) => copy_result(alloc, e),
        Init::Raw => Ok(Init::Raw),
        Init::Choose(condition, x, y) => copy_choose(alloc, condition, x.get(), y.get()),
    }
}

#[cycle(copying)]
fn copy_ctor(alloc: Global, func: FuncId, args: &[Init]) -> Result<Init, NoMemory>
    ensures { IfOk result (λ copied. copied ≡ init.Ctor func args.now) }
{
    let args = copy_inits(alloc, args)?;
    Ok(Init::Ctor(func, args))
}

#[cycle(copying)]
fn copy_members(alloc: Global, members: &[Init]) -> Result<Init, NoMemory>
    ensures { IfOk result (λ copied. copied ≡ init.Members members.now) }
{
    let members = copy_inits(alloc, members)?;
    Ok(Init::Members(members))
}

#[cycle(copying)]
fn copy_value(alloc: Global, e: &CoreExpr) -> Result<Init, NoMemory>
    ensures { IfOk result (λ copied. copied ≡ init.Value e.now) }
{
    let e = copy_expr(alloc, e)?;
    Ok(Init::Value(e))
}

#[cycle(copying)]
fn copy_result(alloc: Global, e: &CoreExpr) -> Result<Init, NoMemory>
    ensures { IfOk result (λ copied. copied ≡ init.Result e.now) }
{
    let e = copy_expr(alloc, e)?;
    Ok(Init::Result(e))
}

#[cycle(copying)]
fn copy_choose(alloc: Global, condition: &CoreExpr, x: &Init, y: &Init) -> Result<Init, NoMemory>
    ensures { IfOk result (λ copied. copied ≡ init.Choose condition.now x.now y.now) }
{
    let condition = copy_expr(alloc, condition)?;
    let x = boxed_init(alloc, x)?;
    let y = boxed_init(alloc, y)?;
    Ok(Init::Choose(condition, x, y))
}

#[cycle(copying)]
fn boxed_init(alloc: Global, init: &Init) -> Result<Boxed<Init>, NoMemory>
    ensures { IfOk result (λ copied. copied ≡ init.now) }
{
    let init = copy_init(alloc, init)?;
    Ok(Boxed::new(alloc, init)?)
}

/// Initializers that are equal to these.
#[cycle(copying)]
pub(crate) fn copy_inits(alloc: Global, inits: &[Init]) -> Result<Items<Init>, NoMemory>
    ensures { IfOk result (λ copied. copied ≡ inits.now) }
{
    let mut copied = Items::new(alloc);
    for item in inits {
        copied.push(copy_init(alloc, item)?)?;
    }
    Ok(copied)
}

use crate::{ends_noexcept, finals_noexcept, main_fits, plans_call, storage_fits};
use co_base::{ClassId, FuncId, NoMemory, Num, SlotId, Span, SuspendId, Text};
use co_core_tree::{
    Answer, AwaitPlan, CoreExpr, CoreFunc, CoreStmt, DeletePlan, FuncRole, GivePlan, PromisePlan,
    Returns, TakePlan, UnitParts,
};
use co_types::{ClassTable, CoType};
use sqlite_items::{Boxed, Items};
use std::alloc::Global;
use std::test::Fail;

const AT: Span = Span { line: 1, col: 1 };

/// A function without parameters that gives an `int`.
fn function(alloc: Global, role: FuncRole, body: CoreStmt) -> Result<CoreFunc, NoMemory> {
    Ok(CoreFunc {
        name: Text::from_slice(alloc, b"f")?,
        params: Items::new(alloc),
        result: CoType::Num(Num::Int),
        slots: Items::new(alloc),
        body,
        noexcept: false,
        plan: None,
        role,
        span: AT,
    })
}

/// A unit of `main` and another function.
fn two_functions(alloc: Global, other: CoreFunc) -> Result<UnitParts, NoMemory> {
    let mut funcs = Items::new(alloc);
    funcs.push(function(alloc, FuncRole::Plain, CoreStmt::OffEnd(AT))?)?;
    funcs.push(other)?;
    Ok(UnitParts {
        classes: ClassTable::new(alloc),
        globals: Items::new(alloc),
        funcs,
        texts: Items::new(alloc),
        main: FuncId(0),
    })
}

fn calls(alloc: Global, func: u32) -> Result<UnitParts, NoMemory> {
    let body = CoreStmt::Full(CoreExpr::Call(FuncId(func), Items::new(alloc), AT), AT);
    two_functions(alloc, function(alloc, FuncRole::Plain, body)?)
}

#[test]
fn nothing_names_main(rt: HostRuntime) -> Result<(), Fail> {
    assert!(rt; main_fits(&calls(rt.alloc(), 1)?));
    assert!(rt; !main_fits(&calls(rt.alloc(), 0)?));
    Ok(())
}

fn deletes(alloc: Global, give: GivePlan) -> Result<UnitParts, NoMemory> {
    let plan = DeletePlan {
        of: CoType::Num(Num::Int),
        pointer: CoreExpr::Null(AT),
        destroy: None,
        give,
        span: AT,
    };
    let body = CoreStmt::Full(CoreExpr::Delete(Boxed::new(alloc, plan)?), AT);
    two_functions(alloc, function(alloc, FuncRole::Plain, body)?)
}

#[test]
fn storage_is_released_by_what_takes_it(rt: HostRuntime) -> Result<(), Fail> {
    assert!(rt; storage_fits(&deletes(rt.alloc(), GivePlan::Global)?));
    assert!(rt; !storage_fits(&deletes(rt.alloc(), GivePlan::Own(FuncId(1)))?));
    assert!(rt; !ends_noexcept(&deletes(rt.alloc(), GivePlan::Own(FuncId(1)))?));
    Ok(())
}

#[test]
fn destructors_are_noexcept(rt: HostRuntime) -> Result<(), Fail> {
    let role = FuncRole::Dtor(ClassId(0));
    let throws = function(rt.alloc(), role, CoreStmt::OffEnd(AT))?;
    assert!(rt; !ends_noexcept(&two_functions(rt.alloc(), throws)?));
    let role = FuncRole::Dtor(ClassId(0));
    let mut keeps = function(rt.alloc(), role, CoreStmt::OffEnd(AT))?;
    keeps.noexcept = true;
    assert!(rt; ends_noexcept(&two_functions(rt.alloc(), keeps)?));
    Ok(())
}

/// An await whose last part is this expression.
fn resumes_by(resume: CoreExpr) -> AwaitPlan {
    AwaitPlan {
        operand: CoreExpr::Slot(SlotId(0), AT),
        holder: SlotId(0),
        ready: CoreExpr::Null(AT),
        suspend: CoreExpr::Null(AT),
        answer: Answer::Void,
        resume,
        point: SuspendId(3),
        span: AT,
    }
}

/// The plan of a coroutine whose final await ends in this expression.
fn plan_of(alloc: Global, resume: CoreExpr) -> PromisePlan {
    PromisePlan {
        promise: ClassId(0),
        ctor: Some(FuncId(2)),
        with_params: false,
        ctor_args: Items::new(alloc),
        copies: Items::new(alloc),
        take: TakePlan::Global,
        take_args: Items::new(alloc),
        on_null: None,
        give: GivePlan::Global,
        result: FuncId(1),
        initial: resumes_by(CoreExpr::Rethrow(AT)),
        last: resumes_by(resume),
        returns: Returns::Neither,
        unhandled: FuncId(1),
    }
}

/// A unit of `main`, a coroutine and the constructor of its promise.
fn coroutine(alloc: Global, plan: PromisePlan) -> Result<UnitParts, NoMemory> {
    let mut func = function(alloc, FuncRole::Plain, CoreStmt::Leave(AT))?;
    func.plan = Some(plan);
    let mut unit = two_functions(alloc, func)?;
    let role = FuncRole::Ctor(ClassId(0), Items::new(alloc));
    unit.funcs
        .push(function(alloc, role, CoreStmt::OffEnd(AT))?)?;
    Ok(unit)
}

fn ends_by(alloc: Global, resume: CoreExpr) -> Result<UnitParts, NoMemory> {
    coroutine(alloc, plan_of(alloc, resume))
}

#[test]
fn final_awaits_throw_nothing(rt: HostRuntime) -> Result<(), Fail> {
    assert!(rt; finals_noexcept(&ends_by(rt.alloc(), CoreExpr::Null(AT))?));
    assert!(rt; !finals_noexcept(&ends_by(rt.alloc(), CoreExpr::Rethrow(AT))?));
    Ok(())
}

/// A unit whose coroutine makes its promise by this function.
fn made_by(alloc: Global, ctor: Option<FuncId>) -> Result<UnitParts, NoMemory> {
    let mut plan = plan_of(alloc, CoreExpr::Null(AT));
    plan.ctor = ctor;
    coroutine(alloc, plan)
}

/// A unit whose coroutine calls this function where an exception leaves its body.
fn handled_by(alloc: Global, unhandled: u32) -> Result<UnitParts, NoMemory> {
    let mut plan = plan_of(alloc, CoreExpr::Null(AT));
    plan.unhandled = FuncId(unhandled);
    coroutine(alloc, plan)
}

#[test]
fn plans_name_functions_that_fit(rt: HostRuntime) -> Result<(), Fail> {
    assert!(rt; plans_call(&made_by(rt.alloc(), Some(FuncId(2)))?));
    assert!(rt; !plans_call(&made_by(rt.alloc(), Some(FuncId(1)))?));
    assert!(rt; !plans_call(&made_by(rt.alloc(), None)?));
    assert!(rt; plans_call(&handled_by(rt.alloc(), 0)?));
    assert!(rt; !plans_call(&handled_by(rt.alloc(), 3)?));
    Ok(())
}

/// A unit whose coroutine takes its storage like this.
fn taken_by(alloc: Global, take: TakePlan) -> Result<UnitParts, NoMemory> {
    let mut plan = plan_of(alloc, CoreExpr::Null(AT));
    plan.take = take;
    coroutine(alloc, plan)
}

#[test]
fn coroutines_take_storage_by_what_takes_a_size(rt: HostRuntime) -> Result<(), Fail> {
    assert!(rt; plans_call(&taken_by(rt.alloc(), TakePlan::Global)?));
    assert!(rt; !plans_call(&taken_by(rt.alloc(), TakePlan::Own(FuncId(1)))?));
    assert!(rt; !plans_call(&taken_by(rt.alloc(), TakePlan::OwnWith(FuncId(1)))?));
    Ok(())
}

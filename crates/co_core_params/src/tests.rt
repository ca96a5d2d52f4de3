use crate::listed::func_params;
use co_base::{ClassId, FuncId, NoMemory, Num, SlotId, Span, SuspendId, Text};
use co_core_tree::{
    Answer, AwaitPlan, CopyPlan, CoreExpr, CoreFunc, CoreStmt, FuncRole, GivePlan, Init,
    PromisePlan, Returns, SlotInfo, SlotKind, TakePlan,
};
use co_types::CoType;
use sqlite_items::Items;
use std::alloc::Global;
use std::test::Fail;

const AT: Span = Span { line: 1, col: 1 };

/// A parameter of type `int`, its copy, and a promise.
fn three_slots(alloc: Global) -> Result<Items<SlotInfo>, NoMemory> {
    let mut slots = Items::new(alloc);
    slots.push(SlotInfo {
        of: CoType::Num(Num::Int),
        kind: SlotKind::Param,
    })?;
    slots.push(SlotInfo {
        of: CoType::Num(Num::Int),
        kind: SlotKind::Copy,
    })?;
    slots.push(SlotInfo {
        of: CoType::Class(ClassId(0)),
        kind: SlotKind::Promise,
    })?;
    Ok(slots)
}

/// One parameter of type `int`.
fn one_slot(alloc: Global) -> Result<Items<SlotInfo>, NoMemory> {
    let mut slots = Items::new(alloc);
    slots.push(SlotInfo {
        of: CoType::Num(Num::Int),
        kind: SlotKind::Param,
    })?;
    Ok(slots)
}

fn function(
    alloc: Global,
    slots: Items<SlotInfo>,
    params: Items<SlotId>,
) -> Result<CoreFunc, NoMemory> {
    Ok(CoreFunc {
        name: Text::from_slice(alloc, b"f")?,
        params,
        result: CoType::Num(Num::Int),
        slots,
        body: CoreStmt::Leave(AT),
        noexcept: false,
        plan: None,
        role: FuncRole::Plain,
        span: AT,
    })
}

fn lists(alloc: Global, params: &[SlotId]) -> Result<bool, NoMemory> {
    let params = Items::from_slice(alloc, params)?;
    let func = function(alloc, one_slot(alloc)?, params)?;
    Ok(func_params(&[], &func))
}

#[test]
fn each_parameter_is_listed_once(rt: HostRuntime) -> Result<(), Fail> {
    assert!(rt; lists(rt.alloc(), &[SlotId(0)])?);
    assert!(rt; !lists(rt.alloc(), &[])?);
    assert!(rt; !lists(rt.alloc(), &[SlotId(0), SlotId(0)])?);
    assert!(rt; !lists(rt.alloc(), &[SlotId(1)])?);
    Ok(())
}

fn awaits() -> AwaitPlan {
    AwaitPlan {
        operand: CoreExpr::Slot(SlotId(1), AT),
        holder: SlotId(1),
        ready: CoreExpr::Null(AT),
        suspend: CoreExpr::Null(AT),
        answer: Answer::Void,
        resume: CoreExpr::Null(AT),
        point: SuspendId(3),
        span: AT,
    }
}

/// The plan of a coroutine that copies its parameter into this slot.
fn copies_to(alloc: Global, promise: u32, to: u32) -> Result<PromisePlan, NoMemory> {
    let mut copies = Items::new(alloc);
    copies.push(CopyPlan {
        from: SlotId(0),
        to: SlotId(to),
        init: Init::Raw,
    })?;
    Ok(PromisePlan {
        promise: ClassId(promise),
        ctor: None,
        with_params: false,
        ctor_args: Items::new(alloc),
        copies,
        take: TakePlan::Global,
        take_args: Items::new(alloc),
        on_null: None,
        give: GivePlan::Global,
        result: FuncId(0),
        initial: awaits(),
        last: awaits(),
        returns: Returns::Neither,
        unhandled: FuncId(0),
    })
}

/// Whether a coroutine keeps the rules whose body names a slot.
fn coroutine_names(alloc: Global, plan: PromisePlan, slot: u32) -> Result<bool, NoMemory> {
    let params = Items::from_slice(alloc, &[SlotId(0)])?;
    let mut func = function(alloc, three_slots(alloc)?, params)?;
    func.plan = Some(plan);
    func.body = CoreStmt::Full(CoreExpr::Slot(SlotId(slot), AT), AT);
    Ok(func_params(&[], &func))
}

fn names(alloc: Global, promise: u32, to: u32, slot: u32) -> Result<bool, NoMemory> {
    coroutine_names(alloc, copies_to(alloc, promise, to)?, slot)
}

#[test]
fn coroutines_name_copies_of_parameters(rt: HostRuntime) -> Result<(), Fail> {
    assert!(rt; names(rt.alloc(), 0, 1, 1)?);
    assert!(rt; !names(rt.alloc(), 0, 1, 0)?);
    assert!(rt; !names(rt.alloc(), 1, 1, 1)?);
    assert!(rt; !names(rt.alloc(), 0, 2, 1)?);
    Ok(())
}

#[test]
fn functions_without_a_plan_have_no_promise(rt: HostRuntime) -> Result<(), Fail> {
    let params = Items::from_slice(rt.alloc(), &[SlotId(0)])?;
    let func = function(rt.alloc(), three_slots(rt.alloc())?, params)?;
    assert!(rt; !func_params(&[], &func));
    Ok(())
}

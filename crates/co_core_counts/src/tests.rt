use crate::counts_fit;
use crate::points::after_funcs;
use co_base::{ClassId, FuncId, NoMemory, Num, SlotId, Span, SuspendId, Text};
use co_core_tree::{
    Answer, AwaitPlan, CoreExpr, CoreFunc, CoreStmt, FuncRole, GivePlan, GlobalInfo, PromisePlan,
    Returns, SlotInfo, SlotKind, TakePlan, UnitParts,
};
use co_types::{ClassTable, CoType};
use sqlite_items::{Boxed, Items};
use std::alloc::Global;
use std::test::Fail;

const AT: Span = Span { line: 1, col: 1 };

/// A function without parameters and slots.
fn function(
    alloc: Global,
    plan: Option<PromisePlan>,
    body: CoreStmt,
) -> Result<CoreFunc, NoMemory> {
    Ok(CoreFunc {
        name: Text::from_slice(alloc, b"f")?,
        params: Items::new(alloc),
        result: CoType::Num(Num::Int),
        slots: Items::new(alloc),
        body,
        noexcept: false,
        plan,
        role: FuncRole::Plain,
        span: AT,
    })
}

fn unit_of(alloc: Global, func: CoreFunc) -> Result<UnitParts, NoMemory> {
    let mut funcs = Items::new(alloc);
    funcs.push(func)?;
    Ok(UnitParts {
        classes: ClassTable::new(alloc),
        globals: Items::new(alloc),
        funcs,
        texts: Items::new(alloc),
        main: FuncId(0),
    })
}

fn await_at(point: u32) -> AwaitPlan {
    AwaitPlan {
        operand: CoreExpr::Slot(SlotId(0), AT),
        holder: SlotId(0),
        ready: CoreExpr::Null(AT),
        suspend: CoreExpr::Null(AT),
        answer: Answer::Void,
        resume: CoreExpr::Null(AT),
        point: SuspendId(point),
        span: AT,
    }
}

fn promise(alloc: Global) -> PromisePlan {
    PromisePlan {
        promise: ClassId(0),
        ctor: None,
        with_params: false,
        ctor_args: Items::new(alloc),
        copies: Items::new(alloc),
        take: TakePlan::Global,
        take_args: Items::new(alloc),
        on_null: None,
        give: GivePlan::Global,
        result: FuncId(1),
        initial: await_at(0),
        last: await_at(1),
        returns: Returns::Neither,
        unhandled: FuncId(1),
    }
}

fn awaits_once(alloc: Global) -> Result<CoreStmt, NoMemory> {
    Ok(CoreStmt::Full(CoreExpr::Await(Boxed::new(alloc, await_at(3))?), AT))
}

fn coroutine(alloc: Global, body: CoreStmt) -> Result<CoreFunc, NoMemory> {
    function(alloc, Some(promise(alloc)), body)
}

#[test]
fn a_coroutine_has_one_point_more_than_awaits(rt: HostRuntime) -> Result<(), Fail> {
    let func = coroutine(rt.alloc(), awaits_once(rt.alloc())?)?;
    let unit = unit_of(rt.alloc(), func)?;
    assert!(rt; after_funcs(unit.funcs.as_slice(), Some(3)).is_none());
    assert!(rt; after_funcs(unit.funcs.as_slice(), Some(4)) == Some(0));
    assert!(rt; counts_fit(&unit));
    Ok(())
}

#[test]
fn another_function_has_no_points(rt: HostRuntime) -> Result<(), Fail> {
    let unit = unit_of(rt.alloc(), function(rt.alloc(), None, CoreStmt::Leave(AT))?)?;
    assert!(rt; after_funcs(unit.funcs.as_slice(), Some(0)) == Some(0));
    Ok(())
}

/// A function with so many locals.
fn with_slots(alloc: Global, count: usize) -> Result<CoreFunc, NoMemory> {
    let mut func = function(alloc, None, CoreStmt::OffEnd(AT))?;
    for _ in 0..count {
        func.slots.push(SlotInfo {
            of: CoType::Num(Num::Int),
            kind: SlotKind::Local,
        })?;
    }
    Ok(func)
}

#[test]
fn a_function_has_no_more_than_4096_slots(rt: HostRuntime) -> Result<(), Fail> {
    assert!(rt; counts_fit(&unit_of(rt.alloc(), with_slots(rt.alloc(), 4096)?)?));
    assert!(rt; !counts_fit(&unit_of(rt.alloc(), with_slots(rt.alloc(), 4097)?)?));
    Ok(())
}

#[test]
fn a_unit_has_no_more_than_1024_globals(rt: HostRuntime) -> Result<(), Fail> {
    let mut unit = unit_of(
        rt.alloc(),
        function(rt.alloc(), None, CoreStmt::OffEnd(AT))?,
    )?;
    for _ in 0..1024 {
        unit.globals.push(GlobalInfo {
            of: CoType::Num(Num::Int),
            value: 0,
        })?;
    }
    assert!(rt; counts_fit(&unit));
    unit.globals.push(GlobalInfo {
        of: CoType::Num(Num::Int),
        value: 0,
    })?;
    assert!(rt; !counts_fit(&unit));
    Ok(())
}

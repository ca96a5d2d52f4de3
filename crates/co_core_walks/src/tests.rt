use crate::{ends_placed, ids_held, jumps_placed, numbers_fit};
use co_base::{CatchOf, FuncId, NoMemory, Num, Op, SlotId, Span, SuspendId, Text};
use co_core_tree::{
    Answer, AwaitPlan, CoreExpr, CoreFunc, CoreStmt, FuncRole, Handler, SlotInfo, SlotKind,
    UnitParts,
};
use co_types::{ClassTable, CoType};
use sqlite_items::{Boxed, Items};
use std::alloc::Global;
use std::test::Fail;

const AT: Span = Span { line: 1, col: 1 };

/// A unit of one function with one local of type `int`.
fn unit_of(alloc: Global, body: CoreStmt) -> Result<UnitParts, NoMemory> {
    let mut slots = Items::new(alloc);
    slots.push(SlotInfo {
        of: CoType::Num(Num::Int),
        kind: SlotKind::Local,
    })?;
    let mut funcs = Items::new(alloc);
    funcs.push(CoreFunc {
        name: Text::from_slice(alloc, b"main")?,
        params: Items::new(alloc),
        result: CoType::Num(Num::Int),
        slots,
        body,
        noexcept: false,
        plan: None,
        role: FuncRole::Plain,
        span: AT,
    })?;
    Ok(UnitParts {
        classes: ClassTable::new(alloc),
        globals: Items::new(alloc),
        funcs,
        texts: Items::new(alloc),
        main: FuncId(0),
    })
}

fn constant(num: Num, v: i64) -> CoreExpr {
    CoreExpr::Const(num, v, AT)
}

fn full(alloc: Global, e: CoreExpr) -> Result<UnitParts, NoMemory> {
    unit_of(alloc, CoreStmt::Full(e, AT))
}

fn awaits(alloc: Global) -> Result<CoreExpr, NoMemory> {
    let plan = AwaitPlan {
        operand: CoreExpr::Slot(SlotId(0), AT),
        holder: SlotId(0),
        ready: CoreExpr::Slot(SlotId(0), AT),
        suspend: CoreExpr::Slot(SlotId(0), AT),
        answer: Answer::Void,
        resume: CoreExpr::Slot(SlotId(0), AT),
        point: SuspendId(3),
        span: AT,
    };
    Ok(CoreExpr::Await(Boxed::new(alloc, plan)?))
}

/// `try {} catch (...) { e; }`
fn in_handler(alloc: Global, e: CoreExpr) -> Result<UnitParts, NoMemory> {
    let mut handlers = Items::new(alloc);
    handlers.push(Handler {
        of: CatchOf::Any,
        slot: None,
        body: CoreStmt::Full(e, AT),
    })?;
    let body = Boxed::new(alloc, CoreStmt::Scope(Items::new(alloc), AT))?;
    unit_of(alloc, CoreStmt::Try(body, handlers, AT))
}

/// `while (true) break;`
fn broken_loop(alloc: Global) -> Result<UnitParts, NoMemory> {
    let body = Boxed::new(alloc, CoreStmt::Break(AT))?;
    let step = constant(Num::Int, 0);
    unit_of(
        alloc,
        CoreStmt::Loop(constant(Num::Bool, 1), step, body, AT),
    )
}

#[test]
fn numbers_are_values_of_their_types(rt: HostRuntime) -> Result<(), Fail> {
    let alloc = rt.alloc();
    assert!(rt; numbers_fit(&full(alloc, constant(Num::Bool, 1))?));
    assert!(rt; !numbers_fit(&full(alloc, constant(Num::Bool, 2))?));
    assert!(rt; !numbers_fit(&full(alloc, constant(Num::Int, 1 << 31))?));
    let left = Boxed::new(alloc, constant(Num::Bool, 1))?;
    let right = Boxed::new(alloc, constant(Num::Bool, 0))?;
    let sum = CoreExpr::Arith(Op::Add, Num::Bool, left, right, AT);
    assert!(rt; !numbers_fit(&full(alloc, sum)?));
    Ok(())
}

#[test]
fn names_are_in_their_tables(rt: HostRuntime) -> Result<(), Fail> {
    let alloc = rt.alloc();
    assert!(rt; ids_held(&full(alloc, CoreExpr::Slot(SlotId(0), AT))?));
    assert!(rt; !ids_held(&full(alloc, CoreExpr::Slot(SlotId(1), AT))?));
    assert!(rt; !ids_held(&full(alloc, CoreExpr::Global(0, AT))?));
    let call = CoreExpr::Call(FuncId(0), Items::new(alloc), AT);
    assert!(rt; ids_held(&full(alloc, call)?));
    let call = CoreExpr::Call(FuncId(1), Items::new(alloc), AT);
    assert!(rt; !ids_held(&full(alloc, call)?));
    Ok(())
}

#[test]
fn jumps_stand_in_loops_and_awaits_in_coroutines(rt: HostRuntime) -> Result<(), Fail> {
    let alloc = rt.alloc();
    assert!(rt; jumps_placed(&broken_loop(alloc)?));
    assert!(rt; !jumps_placed(&unit_of(alloc, CoreStmt::Break(AT))?));
    assert!(rt; !jumps_placed(&unit_of(alloc, CoreStmt::Continue(AT))?));
    assert!(rt; !jumps_placed(&full(alloc, awaits(alloc)?)?));
    Ok(())
}

#[test]
fn functions_return_and_coroutines_leave(rt: HostRuntime) -> Result<(), Fail> {
    let alloc = rt.alloc();
    assert!(rt; ends_placed(&unit_of(alloc, CoreStmt::Return(None, AT))?));
    assert!(rt; !ends_placed(&unit_of(alloc, CoreStmt::Leave(AT))?));
    assert!(rt; ends_placed(&in_handler(alloc, constant(Num::Int, 0))?));
    assert!(rt; !ends_placed(&in_handler(alloc, awaits(alloc)?)?));
    Ok(())
}

use crate::functions::func_visible;
use crate::once::func_makes_once;
use crate::points_differ;
use co_base::{CatchOf, FuncId, NoMemory, Num, SlotId, Span, SuspendId, Text};
use co_core_tree::{
    Answer, AwaitPlan, CoreExpr, CoreFunc, CoreStmt, FuncRole, Handler, Init, SlotInfo, SlotKind,
    UnitParts,
};
use co_core_walks::Scene;
use co_types::{ClassTable, CoType};
use sqlite_items::{Boxed, Items};
use std::alloc::Global;
use std::test::Fail;

const AT: Span = Span { line: 1, col: 1 };

/// A function with a local and a temporary of type `int`.
fn function(alloc: Global, body: CoreStmt) -> Result<CoreFunc, NoMemory> {
    let mut slots = Items::new(alloc);
    slots.push(SlotInfo {
        of: CoType::Num(Num::Int),
        kind: SlotKind::Local,
    })?;
    slots.push(SlotInfo {
        of: CoType::Num(Num::Int),
        kind: SlotKind::Temp,
    })?;
    Ok(CoreFunc {
        name: Text::from_slice(alloc, b"main")?,
        params: Items::new(alloc),
        result: CoType::Num(Num::Int),
        slots,
        body,
        noexcept: false,
        plan: None,
        role: FuncRole::Plain,
        span: AT,
    })
}

/// Whether a body makes its slots once, where it is the list of these statements.
fn list_makes_once(alloc: Global, stmts: Items<CoreStmt>) -> Result<bool, NoMemory> {
    body_makes_once(alloc, CoreStmt::Scope(stmts, AT))
}

/// A unit of these functions.
fn unit_of(alloc: Global, funcs: Items<CoreFunc>) -> UnitParts {
    UnitParts {
        classes: ClassTable::new(alloc),
        globals: Items::new(alloc),
        funcs,
        texts: Items::new(alloc),
        main: FuncId(0),
    }
}

fn body_makes_once(alloc: Global, body: CoreStmt) -> Result<bool, NoMemory> {
    let unit = unit_of(alloc, Items::new(alloc));
    let func = function(alloc, body)?;
    Ok(func_makes_once(Scene {
        unit: &unit,
        func: &func,
    }))
}

fn local(slot: u32) -> CoreStmt {
    CoreStmt::Local(SlotId(slot), Init::Raw, AT)
}

/// A full-expression that makes a temporary.
fn temporary(alloc: Global, slot: u32) -> Result<CoreStmt, NoMemory> {
    let init = Boxed::new(alloc, Init::Raw)?;
    Ok(CoreStmt::Full(CoreExpr::Temp(SlotId(slot), init, AT), AT))
}

#[test]
fn slots_are_made_once_by_what_their_kind_says(rt: HostRuntime) -> Result<(), Fail> {
    let alloc = rt.alloc();
    let mut once = Items::new(alloc);
    once.push(local(0))?;
    once.push(temporary(alloc, 1)?)?;
    assert!(rt; list_makes_once(alloc, once)?);
    let mut twice = Items::new(alloc);
    twice.push(local(0))?;
    twice.push(local(0))?;
    assert!(rt; !list_makes_once(alloc, twice)?);
    let mut other_kind = Items::new(alloc);
    other_kind.push(temporary(alloc, 0)?)?;
    assert!(rt; !list_makes_once(alloc, other_kind)?);
    assert!(rt; !body_makes_once(alloc, local(0))?);
    Ok(())
}

/// Whether the statements of a list name visible slots alone.
fn list_is_visible(alloc: Global, stmts: Items<CoreStmt>) -> Result<bool, NoMemory> {
    let unit = unit_of(alloc, Items::new(alloc));
    let func = function(alloc, CoreStmt::Scope(stmts, AT))?;
    Ok(func_visible(Scene {
        unit: &unit,
        func: &func,
    }))
}

/// A full-expression that names a slot.
fn named(slot: u32) -> CoreStmt {
    CoreStmt::Full(CoreExpr::Slot(SlotId(slot), AT), AT)
}

/// `{ int i; }`
fn scope_of_local(alloc: Global) -> Result<CoreStmt, NoMemory> {
    let mut stmts = Items::new(alloc);
    stmts.push(local(0))?;
    Ok(CoreStmt::Scope(stmts, AT))
}

/// `try {} catch (int i) { i; }`
fn caught(alloc: Global) -> Result<CoreStmt, NoMemory> {
    let mut handlers = Items::new(alloc);
    handlers.push(Handler {
        of: CatchOf::Int,
        slot: Some(SlotId(0)),
        body: named(0),
    })?;
    let body = Boxed::new(alloc, CoreStmt::Scope(Items::new(alloc), AT))?;
    Ok(CoreStmt::Try(body, handlers, AT))
}

/// A full-expression that makes a temporary and names it.
fn made_and_named(alloc: Global) -> Result<CoreStmt, NoMemory> {
    let init = Boxed::new(alloc, Init::Raw)?;
    let left = Boxed::new(alloc, CoreExpr::Temp(SlotId(1), init, AT))?;
    let right = Boxed::new(alloc, CoreExpr::Slot(SlotId(1), AT))?;
    Ok(CoreStmt::Full(CoreExpr::Same(left, right, AT), AT))
}

/// A local whose initializer names itself.
fn names_itself() -> CoreStmt {
    let own = CoreExpr::Slot(SlotId(0), AT);
    CoreStmt::Local(SlotId(0), Init::Value(own), AT)
}

#[test]
fn locals_are_visible_to_the_end_of_their_scope(rt: HostRuntime) -> Result<(), Fail> {
    let alloc = rt.alloc();
    let mut after = Items::new(alloc);
    after.push(names_itself())?;
    after.push(named(0))?;
    assert!(rt; list_is_visible(alloc, after)?);
    let mut before = Items::new(alloc);
    before.push(named(0))?;
    before.push(local(0))?;
    assert!(rt; !list_is_visible(alloc, before)?);
    let mut outside = Items::new(alloc);
    outside.push(scope_of_local(alloc)?)?;
    outside.push(named(0))?;
    assert!(rt; !list_is_visible(alloc, outside)?);
    Ok(())
}

#[test]
fn temporaries_are_visible_in_their_full_expression(rt: HostRuntime) -> Result<(), Fail> {
    let alloc = rt.alloc();
    let mut inside = Items::new(alloc);
    inside.push(made_and_named(alloc)?)?;
    assert!(rt; list_is_visible(alloc, inside)?);
    let mut next = Items::new(alloc);
    next.push(temporary(alloc, 1)?)?;
    next.push(named(1))?;
    assert!(rt; !list_is_visible(alloc, next)?);
    Ok(())
}

#[test]
fn variables_of_handlers_are_visible_in_them(rt: HostRuntime) -> Result<(), Fail> {
    let alloc = rt.alloc();
    let mut inside = Items::new(alloc);
    inside.push(caught(alloc)?)?;
    assert!(rt; list_is_visible(alloc, inside)?);
    let mut later = Items::new(alloc);
    later.push(caught(alloc)?)?;
    later.push(named(0))?;
    assert!(rt; !list_is_visible(alloc, later)?);
    Ok(())
}

fn awaits(alloc: Global, point: u32) -> Result<CoreStmt, NoMemory> {
    let plan = AwaitPlan {
        operand: CoreExpr::Null(AT),
        holder: SlotId(0),
        ready: CoreExpr::Null(AT),
        suspend: CoreExpr::Null(AT),
        answer: Answer::Void,
        resume: CoreExpr::Null(AT),
        point: SuspendId(point),
        span: AT,
    };
    Ok(CoreStmt::Full(CoreExpr::Await(Boxed::new(alloc, plan)?), AT))
}

/// A function that awaits at two points.
fn awaits_twice(alloc: Global, a: u32, b: u32) -> Result<CoreFunc, NoMemory> {
    let mut stmts = Items::new(alloc);
    stmts.push(awaits(alloc, a)?)?;
    stmts.push(awaits(alloc, b)?)?;
    function(alloc, CoreStmt::Scope(stmts, AT))
}

/// Whether points differ in a unit of two functions, where the first awaits at these two points.
fn two_points_differ(alloc: Global, a: u32, b: u32) -> Result<bool, NoMemory> {
    let mut funcs = Items::new(alloc);
    funcs.push(awaits_twice(alloc, a, b)?)?;
    funcs.push(awaits_twice(alloc, 3, 4)?)?;
    Ok(points_differ(&unit_of(alloc, funcs)))
}

#[test]
fn suspension_points_of_a_function_differ(rt: HostRuntime) -> Result<(), Fail> {
    let alloc = rt.alloc();
    assert!(rt; two_points_differ(alloc, 3, 4)?);
    assert!(rt; !two_points_differ(alloc, 3, 3)?);
    assert!(rt; !two_points_differ(alloc, 2, 3)?);
    assert!(rt; two_points_differ(alloc, 0, 65_534)?);
    assert!(rt; !two_points_differ(alloc, 0, 65_535)?);
    Ok(())
}

use crate::held::func_held;
use crate::marks_match;
use co_base::{ClassId, FuncId, NoMemory, Num, Op, SlotId, Span, SuspendId, Text};
use co_core_tree::{
    Answer, AwaitPlan, CoreExpr, CoreFunc, CoreStmt, FuncRole, Init, SlotInfo, SlotKind, UnitParts,
};
use co_core_typed::Scene;
use co_types::{ClassTable, CoType};
use sqlite_items::{Boxed, Items};
use std::alloc::Global;
use std::test::Fail;

const AT: Span = Span { line: 1, col: 1 };

fn function(alloc: Global, slots: Items<SlotInfo>, body: CoreStmt) -> Result<CoreFunc, NoMemory> {
    Ok(CoreFunc {
        name: Text::from_slice(alloc, b"f")?,
        params: Items::new(alloc),
        result: CoType::Num(Num::Int),
        slots,
        body,
        noexcept: false,
        plan: None,
        role: FuncRole::Plain,
        span: AT,
    })
}

fn unit_of(alloc: Global, funcs: Items<CoreFunc>) -> UnitParts {
    UnitParts {
        classes: ClassTable::new(alloc),
        globals: Items::new(alloc),
        funcs,
        texts: Items::new(alloc),
        main: FuncId(0),
    }
}

fn number(num: Num) -> CoreExpr {
    CoreExpr::Const(num, 1, AT)
}

// ---- marks

/// The slot of a temporary of a class, and marks.
fn marked_slots(alloc: Global, marks: usize) -> Result<Items<SlotInfo>, NoMemory> {
    let mut slots = Items::new(alloc);
    slots.push(SlotInfo {
        of: CoType::Class(ClassId(0)),
        kind: SlotKind::Temp,
    })?;
    for _ in 0..marks {
        slots.push(SlotInfo {
            of: CoType::Num(Num::Bool),
            kind: SlotKind::Mark,
        })?;
    }
    Ok(slots)
}

fn temporary(alloc: Global) -> Result<CoreExpr, NoMemory> {
    Ok(CoreExpr::Temp(SlotId(0), Boxed::new(alloc, Init::Raw)?, AT))
}

fn both(alloc: Global, left: CoreExpr, right: CoreExpr) -> Result<CoreExpr, NoMemory> {
    let left = Boxed::new(alloc, left)?;
    Ok(CoreExpr::Both(left, Boxed::new(alloc, right)?, AT))
}

/// Whether this is the number of marks of a function that evaluates an expression.
fn has_marks(alloc: Global, marks: usize, e: CoreExpr) -> Result<bool, NoMemory> {
    let func = function(alloc, marked_slots(alloc, marks)?, CoreStmt::Full(e, AT))?;
    let mut funcs = Items::new(alloc);
    funcs.push(func)?;
    Ok(marks_match(&unit_of(alloc, funcs)))
}

/// Whether it is that of a function that makes a temporary in the right operand of `&&`.
fn right_has_marks(alloc: Global, marks: usize) -> Result<bool, NoMemory> {
    let e = both(alloc, number(Num::Bool), temporary(alloc)?)?;
    has_marks(alloc, marks, e)
}

#[test]
fn a_conditional_temporary_has_a_mark(rt: HostRuntime) -> Result<(), Fail> {
    assert!(rt; !right_has_marks(rt.alloc(), 0)?);
    assert!(rt; right_has_marks(rt.alloc(), 1)?);
    assert!(rt; !right_has_marks(rt.alloc(), 2)?);
    Ok(())
}

#[test]
fn another_temporary_has_no_mark(rt: HostRuntime) -> Result<(), Fail> {
    let left = both(rt.alloc(), temporary(rt.alloc())?, number(Num::Bool))?;
    assert!(rt; has_marks(rt.alloc(), 0, left)?);
    Ok(())
}

// ---- kept values

/// The slot of an awaiter, and those of kept numbers.
fn held_slots(alloc: Global, kept: &[Num]) -> Result<Items<SlotInfo>, NoMemory> {
    let mut slots = Items::new(alloc);
    slots.push(SlotInfo {
        of: CoType::Num(Num::Int),
        kind: SlotKind::Held,
    })?;
    for num in kept {
        slots.push(SlotInfo {
            of: CoType::Num(*num),
            kind: SlotKind::Held,
        })?;
    }
    Ok(slots)
}

fn await_in_slot_0() -> AwaitPlan {
    AwaitPlan {
        operand: CoreExpr::Slot(SlotId(0), AT),
        holder: SlotId(0),
        ready: CoreExpr::Null(AT),
        suspend: CoreExpr::Null(AT),
        answer: Answer::Void,
        resume: CoreExpr::Null(AT),
        point: SuspendId(3),
        span: AT,
    }
}

fn awaits(alloc: Global) -> Result<CoreExpr, NoMemory> {
    Ok(CoreExpr::Await(Boxed::new(alloc, await_in_slot_0())?))
}

/// A sum whose left operand is kept while the right one awaits.
fn sum(alloc: Global, num: Num) -> Result<CoreExpr, NoMemory> {
    let right = Boxed::new(alloc, awaits(alloc)?)?;
    let left = Boxed::new(alloc, number(num))?;
    Ok(CoreExpr::Arith(Op::Add, num, left, right, AT))
}

/// Whether a function with these slots and this body keeps its values.
fn slots_keep(alloc: Global, slots: Items<SlotInfo>, body: CoreStmt) -> Result<bool, NoMemory> {
    let func = function(alloc, slots, body)?;
    let unit = unit_of(alloc, Items::new(alloc));
    Ok(func_held(Scene {
        unit: &unit,
        func: &func,
    }))
}

fn sum_is_kept(alloc: Global, kept: &[Num]) -> Result<bool, NoMemory> {
    let body = CoreStmt::Full(sum(alloc, Num::Int)?, AT);
    slots_keep(alloc, held_slots(alloc, kept)?, body)
}

#[test]
fn a_kept_value_has_a_slot(rt: HostRuntime) -> Result<(), Fail> {
    assert!(rt; sum_is_kept(rt.alloc(), &[Num::Int])?);
    assert!(rt; !sum_is_kept(rt.alloc(), &[])?);
    assert!(rt; !sum_is_kept(rt.alloc(), &[Num::Long])?);
    assert!(rt; !sum_is_kept(rt.alloc(), &[Num::Int, Num::Int])?);
    Ok(())
}

/// A loop that keeps an `int` in its body and a `long` in its step.
fn turns(alloc: Global) -> Result<CoreStmt, NoMemory> {
    let body = Boxed::new(alloc, CoreStmt::Full(sum(alloc, Num::Int)?, AT))?;
    let step = sum(alloc, Num::Long)?;
    Ok(CoreStmt::Loop(number(Num::Bool), step, body, AT))
}

fn turns_are_kept(alloc: Global, kept: &[Num]) -> Result<bool, NoMemory> {
    let slots = held_slots(alloc, kept)?;
    slots_keep(alloc, slots, turns(alloc)?)
}

#[test]
fn the_step_of_a_loop_comes_after_its_body(rt: HostRuntime) -> Result<(), Fail> {
    assert!(rt; turns_are_kept(rt.alloc(), &[Num::Int, Num::Long])?);
    assert!(rt; !turns_are_kept(rt.alloc(), &[Num::Long, Num::Int])?);
    Ok(())
}

/// Whether the place of an `int` is kept by a slot of this type.
fn place_is_kept(alloc: Global, of: CoType) -> Result<bool, NoMemory> {
    let mut slots = held_slots(alloc, &[])?;
    slots.push(SlotInfo {
        of,
        kind: SlotKind::Held,
    })?;
    slots.push(SlotInfo {
        of: CoType::Num(Num::Int),
        kind: SlotKind::Local,
    })?;
    let place = Boxed::new(alloc, CoreExpr::Slot(SlotId(2), AT))?;
    let value = Boxed::new(alloc, awaits(alloc)?)?;
    let e = CoreExpr::Exchange(place, value, AT);
    slots_keep(alloc, slots, CoreStmt::Full(e, AT))
}

#[test]
fn a_place_is_kept_by_a_reference(rt: HostRuntime) -> Result<(), Fail> {
    let target = Boxed::new(rt.alloc(), CoType::Num(Num::Int))?;
    assert!(rt; place_is_kept(rt.alloc(), CoType::Ref(target))?);
    assert!(rt; !place_is_kept(rt.alloc(), CoType::Num(Num::Int))?);
    Ok(())
}

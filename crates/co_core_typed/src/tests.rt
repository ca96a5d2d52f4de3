use crate::{Scene, Wholes, check};
use co_base::{FuncId, NoMemory, Num, Op, SlotId, Span, Text};
use co_core_tree::{CoreExpr, CoreFunc, CoreStmt, FuncRole, SlotInfo, SlotKind, UnitParts};
use co_types::{ClassTable, CoType};
use sqlite_items::{Boxed, Items};
use std::alloc::Global;
use std::test::Fail;

const AT: Span = Span { line: 1, col: 1 };

/// A function with one local of type `int`.
fn one_local(alloc: Global) -> Result<CoreFunc, NoMemory> {
    let mut slots = Items::new(alloc);
    slots.push(SlotInfo {
        of: CoType::Num(Num::Int),
        kind: SlotKind::Local,
    })?;
    Ok(CoreFunc {
        name: Text::from_slice(alloc, b"f")?,
        params: Items::new(alloc),
        result: CoType::Void,
        slots,
        body: CoreStmt::Scope(Items::new(alloc), AT),
        noexcept: false,
        plan: None,
        role: FuncRole::Plain,
        span: AT,
    })
}

fn no_functions(alloc: Global) -> UnitParts {
    UnitParts {
        classes: ClassTable::new(alloc),
        globals: Items::new(alloc),
        funcs: Items::new(alloc),
        texts: Items::new(alloc),
        main: FuncId(0),
    }
}

/// The value of a slot plus a constant, computed in a type.
fn sum(alloc: Global, num: Num, slot: u32) -> Result<CoreExpr, NoMemory> {
    let place = Boxed::new(alloc, CoreExpr::Slot(SlotId(slot), AT))?;
    let left = Boxed::new(alloc, CoreExpr::Load(place, AT))?;
    let right = Boxed::new(alloc, CoreExpr::Const(num, 1, AT))?;
    Ok(CoreExpr::Arith(Op::Add, num, left, right, AT))
}

#[test]
fn operands_have_the_type_of_the_sum(rt: HostRuntime) -> Result<(), Fail> {
    let unit = no_functions(rt.alloc());
    let func = one_local(rt.alloc())?;
    let scene = Scene {
        unit: &unit,
        func: &func,
    };
    let wholes = Wholes::Outermost;
    let right = sum(rt.alloc(), Num::Int, 0)?;
    assert!(rt; check(scene, &right, &wholes).fits);
    let other_type = sum(rt.alloc(), Num::Long, 0)?;
    assert!(rt; !check(scene, &other_type, &wholes).fits);
    let no_slot = sum(rt.alloc(), Num::Int, 1)?;
    assert!(rt; !check(scene, &no_slot, &wholes).fits);
    let unread = CoreExpr::Address(Boxed::new(rt.alloc(), right)?, AT);
    assert!(rt; !check(scene, &unread, &wholes).fits);
    Ok(())
}

use crate::copy;
use co_base::{CatchOf, ClassId, FuncId, NoMemory, Num, SlotId, Span, Text};
use co_core_tree::{
    CoreExpr, CoreFunc, CoreStmt, FuncRole, GlobalInfo, Handler, Init, SlotInfo, SlotKind,
    UnitParts,
};
use co_types::{ClassTable, CoType};
use sqlite_items::{Boxed, Items};
use std::alloc::Global;
use std::test::Fail;

const AT: Span = Span { line: 1, col: 1 };

/// A function `int main()` with a body and one local of type `int`.
fn main_of(alloc: Global, body: CoreStmt, role: FuncRole) -> Result<CoreFunc, NoMemory> {
    let mut slots = Items::new(alloc);
    slots.push(SlotInfo {
        of: CoType::Num(Num::Int),
        kind: SlotKind::Local,
    })?;
    Ok(CoreFunc {
        name: Text::from_slice(alloc, b"main")?,
        params: Items::new(alloc),
        result: CoType::Num(Num::Int),
        slots,
        body,
        noexcept: true,
        plan: None,
        role,
        span: AT,
    })
}

/// The parts of a unit with this function alone.
fn unit_of(alloc: Global, func: CoreFunc) -> Result<UnitParts, NoMemory> {
    let mut funcs = Items::new(alloc);
    funcs.push(func)?;
    Ok(UnitParts {
        classes: ClassTable::new(alloc),
        globals: Items::new(alloc),
        funcs,
        texts: Items::new(alloc),
        main: FuncId(0),
    })
}

fn constant(value: i64) -> CoreExpr {
    CoreExpr::Const(Num::Int, value, AT)
}

fn is_constant(e: &CoreExpr, value: i64) -> bool {
    match e {
        CoreExpr::Const(Num::Int, v, _) => *v == value,
        _ => false,
    }
}

/// `try { return 7; } catch (...) { slot = 8; }`
fn tried(alloc: Global) -> Result<CoreStmt, NoMemory> {
    let returned = CoreStmt::Return(Some(Init::Value(constant(7))), AT);
    let body = Boxed::new(alloc, returned)?;
    let place = Boxed::new(alloc, CoreExpr::Slot(SlotId(0), AT))?;
    let value = Boxed::new(alloc, constant(8))?;
    let mut handlers = Items::new(alloc);
    handlers.push(Handler {
        of: CatchOf::Any,
        slot: None,
        body: CoreStmt::Full(CoreExpr::Store(place, value, AT), AT),
    })?;
    Ok(CoreStmt::Try(body, handlers, AT))
}

/// Whether a statement returns this constant.
fn returns(stmt: &CoreStmt, value: i64) -> bool {
    match stmt {
        CoreStmt::Return(Some(Init::Value(e)), _) => is_constant(e, value),
        _ => false,
    }
}

/// Whether a statement stores this constant to a slot.
fn stores(stmt: &CoreStmt, value: i64) -> bool {
    match stmt {
        CoreStmt::Full(CoreExpr::Store(place, stored, _), _) => {
            is_constant(stored.get(), value) && is_slot(place.get())
        }
        _ => false,
    }
}

fn is_slot(e: &CoreExpr) -> bool {
    match e {
        CoreExpr::Slot(slot, _) => slot.0 == 0,
        _ => false,
    }
}

/// Whether it is what `tried` gives.
fn is_tried(stmt: &CoreStmt) -> bool {
    match stmt {
        CoreStmt::Try(body, handlers, _) => {
            returns(body.get(), 7) && are_handled(handlers.as_slice())
        }
        _ => false,
    }
}

fn are_handled(handlers: &[Handler]) -> bool {
    match handlers {
        [handler] => stores(&handler.body, 8),
        _ => false,
    }
}

/// Whether it is a constructor of this class with this many initializers.
fn constructs(role: &FuncRole, class: u32, count: usize) -> bool {
    match role {
        FuncRole::Ctor(of, members) => of.0 == class && members.len() == count,
        _ => false,
    }
}

#[test]
fn a_copy_has_the_same_statements(rt: HostRuntime) -> Result<(), Fail> {
    let func = main_of(rt.alloc(), tried(rt.alloc())?, FuncRole::Plain)?;
    let unit = unit_of(rt.alloc(), func)?;
    let copied = copy(rt.alloc(), &unit)?;
    match copied.funcs.as_slice() {
        [func] => assert!(rt; is_tried(&func.body)),
        _ => assert!(rt; false),
    }
    Ok(())
}

#[test]
fn a_copy_has_the_same_functions(rt: HostRuntime) -> Result<(), Fail> {
    let mut members = Items::new(rt.alloc());
    members.push(Init::Value(constant(5)))?;
    members.push(Init::Raw)?;
    let role = FuncRole::Ctor(ClassId(2), members);
    let func = main_of(rt.alloc(), CoreStmt::OffEnd(AT), role)?;
    let unit = unit_of(rt.alloc(), func)?;
    let copied = copy(rt.alloc(), &unit)?;
    match copied.funcs.as_slice() {
        [func] => {
            assert!(rt; func.noexcept);
            assert!(rt; func.name.as_slice() == b"main".as_slice());
            assert!(rt; func.slots.len() == 1);
            assert!(rt; constructs(&func.role, 2, 2));
        }
        _ => assert!(rt; false),
    }
    Ok(())
}

#[test]
fn a_copy_has_the_same_tables(rt: HostRuntime) -> Result<(), Fail> {
    let func = main_of(rt.alloc(), CoreStmt::OffEnd(AT), FuncRole::Plain)?;
    let mut unit = unit_of(rt.alloc(), func)?;
    unit.globals.push(GlobalInfo {
        of: CoType::Num(Num::Long),
        value: 5,
    })?;
    unit.texts.push(Text::from_slice(rt.alloc(), b"hello")?)?;
    let copied = copy(rt.alloc(), &unit)?;
    match copied.globals.as_slice() {
        [global] => assert!(rt; global.value == 5),
        _ => assert!(rt; false),
    }
    match copied.texts.as_slice() {
        [text] => assert!(rt; text.as_slice() == b"hello".as_slice()),
        _ => assert!(rt; false),
    }
    Ok(())
}

use crate::all_typed;
use co_base::{CatchOf, FuncId, NoMemory, Num, Op, SlotId, Span, Text};
use co_core_tree::{
    CoreExpr, CoreFunc, CoreStmt, FuncRole, GlobalInfo, Handler, Init, SlotInfo, SlotKind,
    UnitParts,
};
use co_types::{ClassTable, CoType};
use sqlite_items::{Boxed, Items};
use std::alloc::Global;
use std::test::Fail;

const AT: Span = Span { line: 1, col: 1 };

/// A unit of one function with one local of type `int` and a body, which gives a value of a type.
fn unit_of(alloc: Global, of: CoType, body: CoreStmt) -> Result<UnitParts, NoMemory> {
    let mut slots = Items::new(alloc);
    slots.push(SlotInfo {
        of: CoType::Num(Num::Int),
        kind: SlotKind::Local,
    })?;
    let mut funcs = Items::new(alloc);
    funcs.push(CoreFunc {
        name: Text::from_slice(alloc, b"f")?,
        params: Items::new(alloc),
        result: of,
        slots,
        body,
        noexcept: false,
        plan: None,
        role: FuncRole::Plain,
        span: AT,
    })?;
    Ok(UnitParts {
        classes: ClassTable::new(alloc),
        globals: Items::new(alloc),
        funcs,
        texts: Items::new(alloc),
        main: FuncId(0),
    })
}

/// The sum in the type `int` of a constant of a type and one of type `int`.
fn sum(alloc: Global, num: Num) -> Result<CoreExpr, NoMemory> {
    let left = Boxed::new(alloc, CoreExpr::Const(num, 1, AT))?;
    let right = Boxed::new(alloc, CoreExpr::Const(Num::Int, 2, AT))?;
    Ok(CoreExpr::Arith(Op::Add, Num::Int, left, right, AT))
}

/// A unit whose function computes that sum.
fn adds(alloc: Global, num: Num) -> Result<UnitParts, NoMemory> {
    let mut stmts = Items::new(alloc);
    stmts.push(CoreStmt::Full(sum(alloc, num)?, AT))?;
    unit_of(alloc, CoType::Void, CoreStmt::Scope(stmts, AT))
}

/// A unit whose function tries nothing, and catches what it keeps in its local.
fn catches(alloc: Global, of: CatchOf, num: Num) -> Result<UnitParts, NoMemory> {
    let body = Boxed::new(alloc, CoreStmt::Scope(Items::new(alloc), AT))?;
    let mut handlers = Items::new(alloc);
    handlers.push(Handler {
        of,
        slot: Some(SlotId(0)),
        body: CoreStmt::Full(sum(alloc, num)?, AT),
    })?;
    unit_of(alloc, CoType::Void, CoreStmt::Try(body, handlers, AT))
}

/// A unit whose function gives a constant of a type, if any, where it is to give one of another.
fn returns(alloc: Global, to: CoType, num: Option<Num>) -> Result<UnitParts, NoMemory> {
    let value = match num {
        Some(num) => Some(Init::Value(CoreExpr::Const(num, 1, AT))),
        None => None,
    };
    unit_of(alloc, to, CoreStmt::Return(value, AT))
}

/// A unit with a global of a type.
fn has_global(alloc: Global, of: CoType) -> Result<UnitParts, NoMemory> {
    let mut unit = unit_of(alloc, CoType::Void, CoreStmt::OffEnd(AT))?;
    unit.globals.push(GlobalInfo { of, value: 0 })?;
    Ok(unit)
}

#[test]
fn operands_of_a_statement_have_the_type_of_the_sum(rt: HostRuntime) -> Result<(), Fail> {
    assert!(rt; all_typed(&adds(rt.alloc(), Num::Int)?));
    assert!(rt; !all_typed(&adds(rt.alloc(), Num::Long)?));
    Ok(())
}

#[test]
fn a_handler_keeps_what_it_catches(rt: HostRuntime) -> Result<(), Fail> {
    assert!(rt; all_typed(&catches(rt.alloc(), CatchOf::Int, Num::Int)?));
    assert!(rt; !all_typed(&catches(rt.alloc(), CatchOf::Long, Num::Int)?));
    assert!(rt; !all_typed(&catches(rt.alloc(), CatchOf::Any, Num::Int)?));
    assert!(rt; !all_typed(&catches(rt.alloc(), CatchOf::Int, Num::Long)?));
    Ok(())
}

#[test]
fn a_value_has_the_type_of_the_result(rt: HostRuntime) -> Result<(), Fail> {
    let int = CoType::Num(Num::Int);
    assert!(rt; all_typed(&returns(rt.alloc(), int.copy(rt.alloc())?, Some(Num::Int))?));
    assert!(rt; !all_typed(&returns(rt.alloc(), int.copy(rt.alloc())?, Some(Num::Long))?));
    assert!(rt; !all_typed(&returns(rt.alloc(), int, None)?));
    assert!(rt; all_typed(&returns(rt.alloc(), CoType::Void, None)?));
    assert!(rt; !all_typed(&returns(rt.alloc(), CoType::Void, Some(Num::Int))?));
    Ok(())
}

#[test]
fn a_global_is_of_a_type_of_numbers(rt: HostRuntime) -> Result<(), Fail> {
    assert!(rt; all_typed(&has_global(rt.alloc(), CoType::Num(Num::Long))?));
    assert!(rt; !all_typed(&has_global(rt.alloc(), CoType::ExceptionPtr)?));
    Ok(())
}

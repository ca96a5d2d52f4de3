use crate::exprs::{AwaitPlan, Init};
use crate::kinds::{GivePlan, Returns, SlotKind, TakePlan};
use crate::stmts::CoreStmt;
use co_base::{ClassId, FuncId, SlotId, Span, Text};
use co_types::{ClassTable, CoType};
use sqlite_items::Items;

/// A slot of a function: the type and the kind of what it holds.
#[derive(Debug, Drop)]
pub struct SlotInfo {
    pub of: CoType,
    pub kind: SlotKind,
}

/// A global variable: its type and the constant that it starts with, a null pointer's being 0, and an atomic's that of its
/// plain value [basic.start.static].
#[derive(Debug, Drop)]
pub struct GlobalInfo {
    pub of: CoType,
    pub value: i64,
}

/// What a function is to a class. A constructor has an initializer for each field, in the order of the fields, each a
/// full-expression that is evaluated before the body [class.base.init]. A destructor ends the fields after its body
/// [class.dtor]. In both slot 0 refers to the object.
#[derive(Drop)]
pub enum FuncRole {
    Plain,
    Ctor(ClassId, Items<Init>),
    Dtor(ClassId),
}

/// A function: its parameters' slots in their order, and all its slots by number. `noexcept` tells whether an exception that
/// would leave it calls `std::terminate` [except.spec]. A plan stands with a coroutine [dcl.fct.def.coroutine].
#[derive(Drop)]
pub struct CoreFunc {
    pub name: Text,
    pub params: Items<SlotId>,
    pub result: CoType,
    pub slots: Items<SlotInfo>,
    pub body: CoreStmt,
    pub noexcept: bool,
    pub plan: Option<PromisePlan>,
    pub role: FuncRole,
    pub span: Span,
}

/// How a parameter is copied into a coroutine's frame [dcl.fct.def.coroutine].
#[derive(Drop)]
pub struct CopyPlan {
    pub from: SlotId,
    pub to: SlotId,
    pub init: Init,
}

/// What stands around the body of a coroutine [dcl.fct.def.coroutine]. The storage is allocated, where `take_args` follow the
/// number of bytes in `OwnWith`; a null pointer makes the call return what `on_null` gives, where it is there. The copies are
/// made, then the promise by `ctor`, which has an argument for each parameter where `with_params` is set and else none, then
/// the result of the call by `result`. `initial` and `last` are the initial and the final await, `unhandled` is called in
/// the handler around the body, and `give` releases the storage.
#[derive(Drop)]
pub struct PromisePlan {
    pub promise: ClassId,
    pub ctor: Option<FuncId>,
    pub with_params: bool,
    pub ctor_args: Items<Init>,
    pub copies: Items<CopyPlan>,
    pub take: TakePlan,
    pub take_args: Items<Init>,
    pub on_null: Option<FuncId>,
    pub give: GivePlan,
    pub result: FuncId,
    pub initial: AwaitPlan,
    pub last: AwaitPlan,
    pub returns: Returns,
    pub unhandled: FuncId,
}

/// A program: its classes, globals, functions and texts, each by its number, and the function `main`.
#[derive(Drop)]
pub struct UnitParts {
    pub classes: ClassTable,
    pub globals: Items<GlobalInfo>,
    pub funcs: Items<CoreFunc>,
    pub texts: Items<Text>,
    pub main: FuncId,
}

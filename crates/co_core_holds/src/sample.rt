//! A valid unit, and the same unit with one flaw for each rule of validity.

use co_base::{CatchOf, ClassId, FuncId, NoMemory, Num, Op, SlotId, Span, SuspendId, Text};
use co_core_tree::{
    Answer, AwaitPlan, CopyPlan, CoreExpr, CoreFunc, CoreStmt, DeletePlan, FuncRole, GivePlan,
    GlobalInfo, Handler, Init, LibOp, NewPlan, PromisePlan, Returns, SlotInfo, SlotKind, TakePlan,
    UnitParts,
};
use co_types::{ClassInfo, ClassTable, CoType, FieldInfo, FuncInfo};
use sqlite_items::{Boxed, Items};
use std::alloc::Global;

/// Which rule of validity the unit breaks.
#[derive(Clone, Copy, Debug, PartialEq, Eq)]
pub(crate) enum Flaw {
    Nothing,
    Ids,
    Types,
    Numbers,
    Scopes,
    Jumps,
    Points,
    Ends,
    Finals,
    Main,
    Made,
    Returns,
    Params,
    Plans,
    Marks,
    Storage,
    Held,
    Classes,
    Sizes,
    Counts,
}

const AT: Span = Span { line: 1, col: 1 };

const TASK: ClassId = ClassId(0);

const GUARD: ClassId = ClassId(1);

const PROMISE: ClassId = ClassId(2);

const WORK: FuncId = FuncId(1);

const PROMISE_CONSTRUCTOR: FuncId = FuncId(2);

const GET_RETURN_OBJECT: FuncId = FuncId(3);

const RETURN_VOID: FuncId = FuncId(4);

const GUARD_DESTRUCTOR: FuncId = FuncId(5);

// ---- expressions

fn constant(num: Num, value: i64) -> CoreExpr {
    CoreExpr::Const(num, value, AT)
}

fn load(alloc: Global, slot: u32) -> Result<CoreExpr, NoMemory> {
    let place = CoreExpr::Slot(SlotId(slot), AT);
    Ok(CoreExpr::Load(Boxed::new(alloc, place)?, AT))
}

fn one_init(alloc: Global, init: Init) -> Result<Items<Init>, NoMemory> {
    let mut inits = Items::new(alloc);
    inits.push(init)?;
    Ok(inits)
}

fn temporary(alloc: Global, slot: u32, init: Init) -> Result<CoreExpr, NoMemory> {
    Ok(CoreExpr::Temp(SlotId(slot), Boxed::new(alloc, init)?, AT))
}

/// `true ? Guard{1}.held : 0`, whose temporary is made in a conditional operand.
fn conditional_guard(alloc: Global) -> Result<CoreExpr, NoMemory> {
    let members = one_init(alloc, Init::Value(constant(Num::Int, 1)))?;
    let guard = temporary(alloc, 2, Init::Members(members))?;
    let field = CoreExpr::Field(Boxed::new(alloc, guard)?, 0, AT);
    let held = CoreExpr::Load(Boxed::new(alloc, field)?, AT);
    let condition = Boxed::new(alloc, constant(Num::Bool, 1))?;
    let other = Boxed::new(alloc, constant(Num::Int, 0))?;
    Ok(CoreExpr::Pick(condition, Boxed::new(alloc, held)?, other, AT))
}

/// `delete new int(3)`
fn new_and_delete(alloc: Global, flaw: Flaw) -> Result<CoreExpr, NoMemory> {
    let new = NewPlan {
        of: CoType::Num(Num::Int),
        take: TakePlan::Global,
        may_be_null: flaw == Flaw::Storage,
        init: Init::Value(constant(Num::Int, 3)),
        give: GivePlan::Global,
        span: AT,
    };
    let delete = DeletePlan {
        of: CoType::Num(Num::Int),
        pointer: CoreExpr::New(Boxed::new(alloc, new)?),
        destroy: None,
        give: GivePlan::Global,
        span: AT,
    };
    Ok(CoreExpr::Delete(Boxed::new(alloc, delete)?))
}

/// `corun::text` of the only text.
fn text(alloc: Global, flaw: Flaw) -> Result<CoreExpr, NoMemory> {
    let mut operands = Items::new(alloc);
    operands.push(constant(Num::Int, if flaw == Flaw::Ids { 1 } else { 0 }))?;
    Ok(CoreExpr::Lib(LibOp::Lit, operands, AT))
}

/// An await of a `std::suspend_always` in this slot, which gives what `resume` gives.
fn await_always(
    alloc: Global,
    slot: u32,
    point: u32,
    resume: CoreExpr,
) -> Result<AwaitPlan, NoMemory> {
    Ok(AwaitPlan {
        operand: temporary(alloc, slot, Init::Members(Items::new(alloc)))?,
        holder: SlotId(slot),
        ready: constant(Num::Bool, 0),
        suspend: constant(Num::Int, 0),
        answer: Answer::Void,
        resume,
        point: SuspendId(point),
        span: AT,
    })
}

// ---- statements

/// `while (true) break;`
fn broken_loop(alloc: Global, flaw: Flaw) -> Result<CoreStmt, NoMemory> {
    let truth = if flaw == Flaw::Numbers { 2 } else { 1 };
    let body = Boxed::new(alloc, CoreStmt::Break(AT))?;
    let step = constant(Num::Int, 0);
    Ok(CoreStmt::Loop(constant(Num::Bool, truth), step, body, AT))
}

/// `try { throw 1; } catch (int x) {}`
fn thrown_and_caught(alloc: Global) -> Result<CoreStmt, NoMemory> {
    let thrown = Boxed::new(alloc, constant(Num::Int, 1))?;
    let throws = CoreExpr::Throw(CoType::Num(Num::Int), thrown, AT);
    let body = Boxed::new(alloc, CoreStmt::Full(throws, AT))?;
    let mut handlers = Items::new(alloc);
    handlers.push(Handler {
        of: CatchOf::Int,
        slot: Some(SlotId(5)),
        body: CoreStmt::Scope(Items::new(alloc), AT),
    })?;
    Ok(CoreStmt::Try(body, handlers, AT))
}

/// `int local = 7;`
fn local(flaw: Flaw) -> CoreStmt {
    let num = if flaw == Flaw::Types {
        Num::Long
    } else {
        Num::Int
    };
    CoreStmt::Local(SlotId(0), Init::Value(constant(num, 7)), AT)
}

fn returns_nothing() -> CoreStmt {
    CoreStmt::Return(None, AT)
}

/// The statements that a flaw puts before those of `main`.
fn flawed_start(alloc: Global, flaw: Flaw) -> Result<Items<CoreStmt>, NoMemory> {
    let mut stmts = Items::new(alloc);
    match flaw {
        Flaw::Scopes => stmts.push(CoreStmt::Full(load(alloc, 0)?, AT))?,
        Flaw::Jumps => stmts.push(CoreStmt::Break(AT))?,
        Flaw::Main => {
            let calls = CoreExpr::Call(FuncId(0), Items::new(alloc), AT);
            stmts.push(CoreStmt::Full(calls, AT))?;
        }
        Flaw::Made => stmts.push(local(flaw))?,
        _ => {}
    }
    Ok(stmts)
}

/// The body of `main`.
fn main_body(alloc: Global, flaw: Flaw) -> Result<CoreStmt, NoMemory> {
    let mut stmts = flawed_start(alloc, flaw)?;
    stmts.push(local(flaw))?;
    stmts.push(CoreStmt::Full(load(alloc, 0)?, AT))?;
    stmts.push(broken_loop(alloc, flaw)?)?;
    stmts.push(CoreStmt::Full(conditional_guard(alloc)?, AT))?;
    stmts.push(CoreStmt::Full(new_and_delete(alloc, flaw)?, AT))?;
    stmts.push(CoreStmt::Full(text(alloc, flaw)?, AT))?;
    stmts.push(thrown_and_caught(alloc)?)?;
    let args = one_init(alloc, Init::Value(constant(Num::Int, 3)))?;
    let task = temporary(alloc, 4, Init::Result(CoreExpr::Call(WORK, args, AT)))?;
    stmts.push(CoreStmt::Full(task, AT))?;
    stmts.push(if flaw == Flaw::Returns {
        CoreStmt::Leave(AT)
    } else {
        CoreStmt::Return(Some(Init::Value(constant(Num::Int, 0))), AT)
    })?;
    Ok(CoreStmt::Scope(stmts, AT))
}

/// `n + co_await std::suspend_always{}`, where the awaited value is 2: the value of `n` is kept.
fn work_body(alloc: Global) -> Result<CoreStmt, NoMemory> {
    let plan = await_always(alloc, 5, 3, constant(Num::Int, 2))?;
    let awaits = CoreExpr::Await(Boxed::new(alloc, plan)?);
    let left = Boxed::new(alloc, load(alloc, 1)?)?;
    let right = Boxed::new(alloc, awaits)?;
    let sum = CoreExpr::Arith(Op::Add, Num::Int, left, right, AT);
    let mut stmts = Items::new(alloc);
    stmts.push(CoreStmt::Full(sum, AT))?;
    stmts.push(CoreStmt::Leave(AT))?;
    Ok(CoreStmt::Scope(stmts, AT))
}

// ---- functions

fn int_type() -> CoType {
    CoType::Num(Num::Int)
}

fn reference_to(alloc: Global, class: ClassId) -> Result<CoType, NoMemory> {
    Ok(CoType::Ref(Boxed::new(alloc, CoType::Class(class))?))
}

fn slot(of: CoType, kind: SlotKind) -> SlotInfo {
    SlotInfo { of, kind }
}

fn main_slots(alloc: Global, flaw: Flaw) -> Result<Items<SlotInfo>, NoMemory> {
    let mark = if flaw == Flaw::Marks {
        SlotKind::Local
    } else {
        SlotKind::Mark
    };
    let mut slots = Items::new(alloc);
    slots.push(slot(int_type(), SlotKind::Local))?;
    slots.push(slot(CoType::Class(GUARD), SlotKind::Local))?;
    slots.push(slot(CoType::Class(GUARD), SlotKind::Temp))?;
    slots.push(slot(CoType::Num(Num::Bool), mark))?;
    slots.push(slot(CoType::Class(TASK), SlotKind::Temp))?;
    slots.push(slot(int_type(), SlotKind::Local))?;
    if flaw == Flaw::Params {
        slots.push(slot(int_type(), SlotKind::Param))?;
    }
    Ok(slots)
}

fn main_function(alloc: Global, flaw: Flaw) -> Result<CoreFunc, NoMemory> {
    Ok(CoreFunc {
        name: Text::from_slice(alloc, b"main")?,
        params: Items::new(alloc),
        result: int_type(),
        slots: main_slots(alloc, flaw)?,
        body: main_body(alloc, flaw)?,
        noexcept: false,
        plan: None,
        role: FuncRole::Plain,
        span: AT,
    })
}

fn work_slots(alloc: Global, flaw: Flaw) -> Result<Items<SlotInfo>, NoMemory> {
    let kept = if flaw == Flaw::Held {
        Num::Long
    } else {
        Num::Int
    };
    let mut slots = Items::new(alloc);
    slots.push(slot(int_type(), SlotKind::Param))?;
    slots.push(slot(int_type(), SlotKind::Copy))?;
    slots.push(slot(CoType::Class(PROMISE), SlotKind::Promise))?;
    slots.push(slot(CoType::SuspendAlways, SlotKind::Temp))?;
    slots.push(slot(CoType::SuspendAlways, SlotKind::Temp))?;
    slots.push(slot(CoType::SuspendAlways, SlotKind::Temp))?;
    slots.push(slot(CoType::Num(kept), SlotKind::Held))?;
    Ok(slots)
}

fn work_plan(alloc: Global, flaw: Flaw) -> Result<PromisePlan, NoMemory> {
    let mut copies = Items::new(alloc);
    copies.push(CopyPlan {
        from: SlotId(0),
        to: SlotId(1),
        init: Init::Value(load(alloc, 0)?),
    })?;
    let last_resume = if flaw == Flaw::Finals {
        CoreExpr::Rethrow(AT)
    } else {
        constant(Num::Int, 0)
    };
    let last_point = if flaw == Flaw::Points { 0 } else { 1 };
    let unhandled = if flaw == Flaw::Plans {
        GET_RETURN_OBJECT
    } else {
        RETURN_VOID
    };
    Ok(PromisePlan {
        promise: PROMISE,
        ctor: Some(PROMISE_CONSTRUCTOR),
        with_params: false,
        ctor_args: Items::new(alloc),
        copies,
        take: TakePlan::Global,
        take_args: Items::new(alloc),
        on_null: None,
        give: GivePlan::Global,
        result: GET_RETURN_OBJECT,
        initial: await_always(alloc, 3, 0, constant(Num::Int, 0))?,
        last: await_always(alloc, 4, last_point, last_resume)?,
        returns: Returns::Void(RETURN_VOID),
        unhandled,
    })
}

fn work_function(alloc: Global, flaw: Flaw) -> Result<CoreFunc, NoMemory> {
    let mut params = Items::new(alloc);
    params.push(SlotId(0))?;
    Ok(CoreFunc {
        name: Text::from_slice(alloc, b"work")?,
        params,
        result: CoType::Class(TASK),
        slots: work_slots(alloc, flaw)?,
        body: work_body(alloc)?,
        noexcept: false,
        plan: Some(work_plan(alloc, flaw)?),
        role: FuncRole::Plain,
        span: AT,
    })
}

/// A function whose one parameter refers to an object of a class.
fn member(
    alloc: Global,
    class: ClassId,
    gives: CoType,
    role: FuncRole,
    body: CoreStmt,
) -> Result<CoreFunc, NoMemory> {
    let mut params = Items::new(alloc);
    params.push(SlotId(0))?;
    let mut slots = Items::new(alloc);
    slots.push(slot(reference_to(alloc, class)?, SlotKind::Param))?;
    Ok(CoreFunc {
        name: Text::from_slice(alloc, b"member")?,
        params,
        result: gives,
        slots,
        body,
        noexcept: true,
        plan: None,
        role,
        span: AT,
    })
}

fn promise_functions(alloc: Global, funcs: &mut Items<CoreFunc>) -> Result<(), NoMemory> {
    let role = FuncRole::Ctor(PROMISE, Items::new(alloc));
    funcs.push(member(alloc, PROMISE, CoType::Void, role, returns_nothing())?)?;
    let members = one_init(alloc, Init::Value(constant(Num::Int, 0)))?;
    let gives = CoreStmt::Return(Some(Init::Members(members)), AT);
    let task = CoType::Class(TASK);
    funcs.push(member(alloc, PROMISE, task, FuncRole::Plain, gives)?)?;
    let nothing = returns_nothing();
    funcs.push(member(alloc, PROMISE, CoType::Void, FuncRole::Plain, nothing)?)?;
    Ok(())
}

fn functions(alloc: Global, flaw: Flaw) -> Result<Items<CoreFunc>, NoMemory> {
    let mut funcs = Items::new(alloc);
    funcs.push(main_function(alloc, flaw)?)?;
    funcs.push(work_function(alloc, flaw)?)?;
    promise_functions(alloc, &mut funcs)?;
    let role = FuncRole::Dtor(GUARD);
    let mut destructor = member(alloc, GUARD, CoType::Void, role, returns_nothing())?;
    destructor.noexcept = flaw != Flaw::Ends;
    funcs.push(destructor)?;
    Ok(funcs)
}

// ---- classes and globals

/// A class with this many fields of a type.
fn class(alloc: Global, name: &[u8], of: Field, count: u32) -> Result<ClassInfo, NoMemory> {
    let mut fields = Items::new(alloc);
    for _ in 0..count {
        fields.push(FieldInfo {
            name: Text::from_slice(alloc, b"x")?,
            of: of.of(),
            span: AT,
            initialized: false,
        })?;
    }
    Ok(ClassInfo {
        name: Text::from_slice(alloc, name)?,
        outer: None,
        fields,
        funcs: Items::new(alloc),
        aliases: Items::new(alloc),
        span: AT,
    })
}

/// The type of a field of the unit's classes.
#[derive(Clone, Copy)]
enum Field {
    Int,
    ExceptionPtr,
    Class(ClassId),
}

impl Field {
    fn of(self) -> CoType {
        match self {
            Field::Int => int_type(),
            Field::ExceptionPtr => CoType::ExceptionPtr,
            Field::Class(class) => CoType::Class(class),
        }
    }
}

fn guard_class(alloc: Global) -> Result<ClassInfo, NoMemory> {
    let mut info = class(alloc, b"Guard", Field::Int, 1)?;
    info.funcs.push(FuncInfo {
        id: GUARD_DESTRUCTOR,
        name: Text::from_slice(alloc, b"~Guard")?,
        params: Items::new(alloc),
        result: CoType::Void,
        is_static: false,
        is_noexcept: true,
        is_deleted: false,
        is_implicit: false,
        is_defaulted: false,
        span: AT,
    })?;
    Ok(info)
}

fn add(classes: &mut ClassTable, info: ClassInfo) -> Result<(), NoMemory> {
    if classes.len() < 1024 && info.fields.len() < 10_000 && info.funcs.len() < 100 {
        let _ = classes.add(info)?;
    }
    Ok(())
}

fn class_table(alloc: Global, flaw: Flaw) -> Result<ClassTable, NoMemory> {
    let mut classes = ClassTable::new(alloc);
    add(&mut classes, class(alloc, b"Task", Field::Int, 1)?)?;
    add(&mut classes, guard_class(alloc)?)?;
    add(&mut classes, class(alloc, b"Promise", Field::Int, 0)?)?;
    if flaw == Flaw::Classes {
        let itself = Field::Class(ClassId(3));
        add(&mut classes, class(alloc, b"Endless", itself, 1)?)?;
    }
    if flaw == Flaw::Sizes {
        let large = class(alloc, b"Large", Field::ExceptionPtr, 257)?;
        add(&mut classes, large)?;
    }
    Ok(classes)
}

fn globals(alloc: Global, flaw: Flaw) -> Result<Items<GlobalInfo>, NoMemory> {
    let count = if flaw == Flaw::Counts { 1025 } else { 1 };
    let mut infos = Items::new(alloc);
    for _ in 0..count {
        infos.push(GlobalInfo {
            of: int_type(),
            value: 0,
        })?;
    }
    Ok(infos)
}

/// The unit with a flaw.
pub(crate) fn unit_with(alloc: Global, flaw: Flaw) -> Result<UnitParts, NoMemory> {
    let mut texts = Items::new(alloc);
    texts.push(Text::from_slice(alloc, b"text")?)?;
    Ok(UnitParts {
        classes: class_table(alloc, flaw)?,
        globals: globals(alloc, flaw)?,
        funcs: functions(alloc, flaw)?,
        texts,
        main: FuncId(0),
    })
}

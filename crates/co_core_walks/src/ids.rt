ghost use Rattle.std.specs.Prelude.{◌≡◌, ◌&&◌, refl, length, slice_get};
ghost use Rattle.std.specs.List.{list_all};
ghost use Rattle.co_core.specs.Bodies.{body_of, func_acts};
ghost use Rattle.co_core.specs.Ids as spec;
ghost use Rattle.co_core_walks.specs.Lists.{ends_named, handle_names, handler_names, lib_names, lit_held};

use crate::bodies::Standing;
use crate::rules::{Rule, StmtRule, body_holds, func_holds};
use crate::scene::Scene;
use crate::tables::{
    class_held, class_held_if, classes_held, func_held, func_held_if, globals_held, type_held,
};
use co_base::{CatchOf, SlotId};
use co_core_tree::{
    CopyPlan, CoreExpr, CoreFunc, CoreStmt, DeletePlan, FuncRole, GivePlan, HandleOp, Handler,
    Init, LibOp, NewPlan, PromisePlan, Returns, SlotInfo, TakePlan, UnitParts,
};

fn take_held(unit: &UnitParts, take: TakePlan) -> bool
    ensures { result ≡ spec.take_held unit.now take }
{
    match take {
        TakePlan::Global => true,
        TakePlan::Own(func) => func_held(unit, func),
        TakePlan::OwnWith(func) => func_held(unit, func),
    }
}

fn give_held(unit: &UnitParts, give: GivePlan) -> bool
    ensures { result ≡ spec.give_held unit.now give }
{
    match give {
        GivePlan::Global => true,
        GivePlan::Own(func) => func_held(unit, func),
        GivePlan::OwnSized(func) => func_held(unit, func),
    }
}

fn slot_held(scene: Scene<'_>, slot: SlotId) -> bool
    ensures { result ≡ spec.slot_held scene.entry.unit.now scene.entry.func.now slot }
{
    (slot.0 as usize) < scene.func.slots.len()
}

fn slot_held_if(scene: Scene<'_>, slot: Option<SlotId>) -> bool
    ensures { result ≡ spec.slot_held_if scene.entry.unit.now scene.entry.func.now slot }
{
    match slot {
        Some(slot) => slot_held(scene, slot),
        None => true,
    }
}

fn text_held(scene: Scene<'_>, number: i64) -> bool
    ensures { result ≡ spec.text_held scene.entry.unit.now scene.entry.func.now number }
{
    number >= 0 && (number as u64) < scene.unit.texts.len() as u64
}

fn is_text(scene: Scene<'_>, e: &CoreExpr) -> bool
    ensures { result ≡ spec.is_text scene.entry.unit.now scene.entry.func.now e.now }
{
    match e {
        CoreExpr::Const(_, number, _) => text_held(scene, *number),
        _ => false,
    }
}

/// Whether the operand of a `Lit` names a text.
fn names_text(scene: Scene<'_>, operands: &[CoreExpr]) -> bool
    ensures { result ≡ lit_held scene.entry.unit.now scene.entry.func.now operands.now }
{
    match operands {
        [] => false,
        [e, ..] => is_text(scene, e),
    }
}

fn handle_held(scene: Scene<'_>, op: HandleOp) -> bool
    ensures { result ≡ handle_names scene.entry.unit.now op }
{
    match op {
        HandleOp::FromAddress(promise) => class_held_if(scene.unit, promise),
        _ => true,
    }
}

fn lib_held(scene: Scene<'_>, op: LibOp, operands: &[CoreExpr]) -> bool
    ensures { result ≡ lib_names scene.entry.unit.now scene.entry.func.now op operands.now }
{
    match op {
        LibOp::Lit => names_text(scene, operands),
        _ => true,
    }
}

fn new_held(unit: &UnitParts, plan: &NewPlan) -> bool
    ensures { result ≡ (spec.type_held unit.now plan.now.of && (spec.take_held unit.now plan.now.take && spec.give_held unit.now plan.now.give)) }
{
    type_held(unit, &plan.of) && (take_held(unit, plan.take) && give_held(unit, plan.give))
}

fn delete_held(unit: &UnitParts, plan: &DeletePlan) -> bool
    ensures { result ≡ (spec.type_held unit.now plan.now.of && (spec.func_held_if unit.now plan.now.destroy && spec.give_held unit.now plan.now.give)) }
{
    type_held(unit, &plan.of) && (func_held_if(unit, plan.destroy) && give_held(unit, plan.give))
}

/// Each number that an expression or an initializer names is in its table.
#[derive(Clone, Copy)]
struct Held<'a> {
    scene: Scene<'a>,
}

impl Rule for Held<'_> {
    ghost test = { λ r act. spec.act_held r.scene.unit.now r.scene.func.now act };

    fn expr_holds(&self, e: &CoreExpr) -> bool {
        let scene = self.scene;
        match e {
            CoreExpr::Slot(slot, _) => slot_held(scene, *slot),
            CoreExpr::Global(global, _) => (*global as usize) < scene.unit.globals.len(),
            CoreExpr::Call(func, _, _) => func_held(scene.unit, *func),
            CoreExpr::Temp(slot, _, _) => slot_held(scene, *slot),
            CoreExpr::Throw(of, _, _) => type_held(scene.unit, of),
            CoreExpr::Await(plan) => slot_held(scene, plan.get().holder),
            CoreExpr::Handle(op, _, _) => handle_held(scene, *op),
            CoreExpr::Lib(op, operands, _) => lib_held(scene, *op, operands.as_slice()),
            CoreExpr::New(plan) => new_held(scene.unit, plan.get()),
            CoreExpr::Delete(plan) => delete_held(scene.unit, plan.get()),
            _ => true,
        }
    }

    fn init_holds(&self, i: &Init) -> bool {
        match i {
            Init::Ctor(func, _) => func_held(self.scene.unit, *func),
            _ => true,
        }
    }

    ghost keeps = { λ r part. refl };

    ghost passes = { λ r slot i at c. refl };
}

fn catch_held(scene: Scene<'_>, of: CatchOf) -> bool
    ensures { result ≡ spec.catch_held scene.entry.unit.now scene.entry.func.now of }
{
    match of {
        CatchOf::Class(class) => class_held(scene.unit, class),
        _ => true,
    }
}

fn handler_held(scene: Scene<'_>, handler: &Handler) -> bool
    ensures { result ≡ handler_names scene.entry.unit.now scene.entry.func.now handler.now }
{
    catch_held(scene, handler.of) && slot_held_if(scene, handler.slot)
}

fn handlers_held(scene: Scene<'_>, handlers: &[Handler]) -> bool
    ensures { result ≡ list_all (handler_names scene.entry.unit.now scene.entry.func.now) handlers.now }
{
    for handler in handlers {
        let fits = handler_held(scene, handler);
        if !fits {
            return false;
        }
    }
    true
}

impl StmtRule for Held<'_> {
    ghost stmt_test = { λ r p. spec.placed_held r.scene.unit.now r.scene.func.now p };

    fn stmt_holds(&self, _stands: Standing, s: &CoreStmt) -> bool {
        match s {
            CoreStmt::Local(slot, _, _) => slot_held(self.scene, *slot),
            CoreStmt::Try(_, handlers, _) => handlers_held(self.scene, handlers.as_slice()),
            _ => true,
        }
    }
}

fn copy_held(scene: Scene<'_>, copy: &CopyPlan) -> bool
    ensures { result ≡ spec.copy_held scene.entry.unit.now scene.entry.func.now copy.now }
{
    slot_held(scene, copy.from) && slot_held(scene, copy.to)
}

fn copies_held(scene: Scene<'_>, copies: &[CopyPlan]) -> bool
    ensures { result ≡ list_all (spec.copy_held scene.entry.unit.now scene.entry.func.now) copies.now }
{
    for copy in copies {
        let fits = copy_held(scene, copy);
        if !fits {
            return false;
        }
    }
    true
}

fn returns_held(scene: Scene<'_>, returns: Returns) -> bool
    ensures { result ≡ spec.returns_held scene.entry.unit.now scene.entry.func.now returns }
{
    match returns {
        Returns::Void(func) => func_held(scene.unit, func),
        Returns::Value | Returns::Neither => true,
    }
}

/// Whether the functions that end a coroutine, and the slots of its initial and its final awaiter, are in their tables.
fn ends_held(scene: Scene<'_>, plan: &PromisePlan) -> bool
    ensures { result ≡ ends_named scene.entry.unit.now scene.entry.func.now plan.now }
{
    give_held(scene.unit, plan.give)
        && (func_held(scene.unit, plan.result)
            && (slot_held(scene, plan.initial.holder)
                && (slot_held(scene, plan.last.holder)
                    && (returns_held(scene, plan.returns)
                        && func_held(scene.unit, plan.unhandled)))))
}

fn plan_held(scene: Scene<'_>, plan: &Option<PromisePlan>) -> bool
    ensures { result ≡ spec.plan_held scene.entry.unit.now scene.entry.func.now plan.now }
{
    match plan {
        Some(plan) => {
            class_held(scene.unit, plan.promise)
                && (func_held_if(scene.unit, plan.ctor)
                    && (copies_held(scene, plan.copies.as_slice())
                        && (take_held(scene.unit, plan.take)
                            && (func_held_if(scene.unit, plan.on_null) && ends_held(scene, plan)))))
        }
        None => true,
    }
}

fn role_held(scene: Scene<'_>, role: &FuncRole) -> bool
    ensures { result ≡ spec.role_held scene.entry.unit.now scene.entry.func.now role.now }
{
    match role {
        FuncRole::Ctor(class, _) => class_held(scene.unit, *class),
        FuncRole::Dtor(class) => class_held(scene.unit, *class),
        FuncRole::Plain => true,
    }
}

fn params_held(scene: Scene<'_>, params: &[SlotId]) -> bool
    ensures { result ≡ list_all (spec.slot_held scene.entry.unit.now scene.entry.func.now) params.now }
{
    for param in params {
        let fits = slot_held(scene, *param);
        if !fits {
            return false;
        }
    }
    true
}

fn slot_type_held(scene: Scene<'_>, slot: &SlotInfo) -> bool
    ensures { result ≡ spec.slot_type_held scene.entry.unit.now scene.entry.func.now slot.now }
{
    type_held(scene.unit, &slot.of)
}

fn slot_types_held(scene: Scene<'_>, slots: &[SlotInfo]) -> bool
    ensures { result ≡ list_all (spec.slot_type_held scene.entry.unit.now scene.entry.func.now) slots.now }
{
    for slot in slots {
        let fits = slot_type_held(scene, slot);
        if !fits {
            return false;
        }
    }
    true
}

fn body_held(scene: Scene<'_>) -> bool
    ensures { result ≡ (list_all (spec.placed_held scene.entry.unit.now scene.entry.func.now) (body_of scene.entry.func.now) && list_all (spec.act_held scene.entry.unit.now scene.entry.func.now) (func_acts scene.entry.unit.now.funcs scene.entry.func.now)) }
{
    let held = Held { scene };
    body_holds(&held, scene.func) && func_holds(&held, scene)
}

fn func_ids_held(scene: Scene<'_>) -> bool
    ensures { result ≡ spec.func_ids_held scene.entry.unit.now scene.entry.func.now }
{
    params_held(scene, scene.func.params.as_slice())
        && (type_held(scene.unit, &scene.func.result)
            && (slot_types_held(scene, scene.func.slots.as_slice())
                && (role_held(scene, &scene.func.role)
                    && (plan_held(scene, &scene.func.plan) && body_held(scene)))))
}

fn each_held(unit: &UnitParts, funcs: &[CoreFunc]) -> bool
    ensures { result ≡ list_all (spec.func_ids_held unit.now) funcs.now }
{
    for func in funcs {
        let fits = func_ids_held(Scene { unit, func });
        if !fits {
            return false;
        }
    }
    true
}

/// Whether each class, function, slot, global and text that the unit names is in its table. It takes no memory.
pub fn ids_held(unit: &UnitParts) -> bool
    ensures { result ≡ spec.ids_held unit.now }
{
    classes_held(unit)
        && (globals_held(unit, unit.globals.as_slice())
            && (each_held(unit, unit.funcs.as_slice()) && func_held(unit, unit.main)))
}

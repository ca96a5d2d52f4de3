ghost use Rattle.std.specs.Prelude.{◌≡◌, ◌&&◌, false, []};
ghost use Rattle.co_core_tree.specs.declared.units.CoreFunc.{CoreFunc};
ghost use Rattle.std.specs.Option.{option_copied, option_map};
ghost use Rattle.std.specs.List.{list_all};
ghost use Rattle.co_core_tree.specs.declared.units.UnitParts.{UnitParts};
ghost use Rattle.co_core_types.specs.Seen.{known_type};
ghost use Rattle.co_core_typing.specs.Rules.{arguments_typed};
ghost use Rattle.co_core_typing.specs.Tables as table;
ghost use Rattle.co_core.specs.Plans as spec;
ghost use Rattle.co_core.specs.Typed as typed;
ghost use Rattle.co_core_plans.specs.Calls.{calls_on, constructs_with, count_fits, makes_with};

use crate::callees::callee;
use crate::storage::{give_fits, takes_storage_alone, takes_storage_first};
use co_base::{ClassId, FuncId, SlotId};
use co_core_tree::{CoreFunc, FuncRole, Init, PromisePlan, Returns, TakePlan, UnitParts};
use co_core_typed::{Scene, Wholes, after_this, is_plain, slot_type};
use co_core_types::{Known, is_reference};
use co_types::{CoType, Head, has_same_head, is_same};

fn is_class_target(class: ClassId, target: Option<Known<'_>>) -> bool
    ensures { result ≡ table.is_class_target class (option_map known_type target.entry) }
{
    match target {
        Some(to) => has_same_head(to.head(), Head::Class(class)),
        None => false,
    }
}

fn is_promise_reference(class: ClassId, of: Known<'_>) -> bool
    ensures { (u : UnitParts) → result ≡ spec.is_promise_reference u class (known_type of.entry) }
{
    has_same_head(of.head(), Head::Ref) && is_class_target(class, of.target())
}

fn takes_promise(class: ClassId, func: &CoreFunc, params: &[SlotId]) -> bool
    ensures { (u : UnitParts) → result ≡ spec.takes_promise u class (table.types_of func.now params.now) }
{
    match params {
        [] => true,
        [first] => is_promise_reference(class, slot_type(func, *first)),
        _ => false,
    }
}

/// Whether it is a function that takes the promise, or nothing where it is static.
fn is_promise_call(unit: &UnitParts, class: ClassId, func: FuncId) -> bool
    ensures { result ≡ spec.is_promise_call unit.now class func }
{
    match callee(unit, func) {
        Some(func) => { is_plain(Some(func)) && takes_promise(class, func, func.params.as_slice()) }
        None => false,
    }
}

fn gives_type(unit: &UnitParts, of: &CoType, func: FuncId) -> bool
    ensures { result ≡ spec.gives_type unit.now of.now (spec.callee unit.now func) }
{
    match callee(unit, func) {
        Some(func) => is_same(&func.result, of),
        None => false,
    }
}

/// The parameters are given to an `operator new` that takes more than the number of bytes [dcl.fct.def.coroutine].
fn takes_arguments(scene: Scene<'_>, func: FuncId, args: &[Init]) -> bool
    ensures { result ≡ (spec.takes_storage scene.entry.unit.now false func && arguments_typed scene.entry.unit.now scene.entry.func.now [] (table.after_first (table.param_types_of (spec.callee scene.entry.unit.now func))) args.now) }
{
    match callee(scene.unit, func) {
        Some(func) => {
            takes_storage_first(func) && after_this(scene, args, func, &Wholes::Outermost)
        }
        None => false,
    }
}

fn coroutine_take(scene: Scene<'_>, take: TakePlan, args: &[Init]) -> bool
    ensures { result ≡ spec.coroutine_take scene.entry.unit.now scene.entry.func.now take args.now }
{
    match take {
        TakePlan::Global => args.is_empty(),
        TakePlan::Own(func) => args.is_empty() && takes_storage_alone(scene.unit, func),
        TakePlan::OwnWith(func) => takes_arguments(scene, func, args),
    }
}

fn constructs_class(role: &FuncRole, class: ClassId) -> bool
    ensures { (u : UnitParts) → result ≡ spec.is_constructor_role u class role.now }
{
    match role {
        FuncRole::Ctor(own, _) => own.0 == class.0,
        FuncRole::Plain | FuncRole::Dtor(_) => false,
    }
}

fn constructs(scene: Scene<'_>, class: ClassId, ctor: FuncId, args: &[Init]) -> bool
    ensures { result ≡ constructs_with scene.entry.unit.now scene.entry.func.now class ctor args.now }
{
    match callee(scene.unit, ctor) {
        Some(func) => {
            constructs_class(&func.role, class) && after_this(scene, args, func, &Wholes::Outermost)
        }
        None => false,
    }
}

/// The promise's constructor is given all parameters or none [dcl.fct.def.coroutine].
fn has_arguments(func: &CoreFunc, with_params: bool, args: &[Init]) -> bool
    ensures { result ≡ count_fits func.now with_params args.now }
{
    if with_params {
        args.len() == func.params.len()
    } else {
        args.is_empty()
    }
}

fn constructor_fits(scene: Scene<'_>, plan: &PromisePlan) -> bool
    ensures { result ≡ spec.constructor_fits scene.entry.unit.now scene.entry.func.now plan.now.promise plan.now.ctor plan.now.with_params plan.now.ctor_args }
{
    let args = plan.ctor_args.as_slice();
    match plan.ctor {
        Some(ctor) => {
            constructs(scene, plan.promise, ctor, args)
                && has_arguments(scene.func, plan.with_params, args)
        }
        None => false,
    }
}

fn takes_nothing(unit: &UnitParts, func: FuncId) -> bool
    ensures { result ≡ (table.is_plain (spec.callee unit.now func) && spec.takes_nothing unit.now (table.param_types_of (spec.callee unit.now func))) }
{
    match callee(unit, func) {
        Some(func) => is_plain(Some(func)) && func.params.as_slice().is_empty(),
        None => false,
    }
}

/// What gives the result of a call whose storage is not there takes nothing [dcl.fct.def.coroutine].
fn failure_fits(scene: Scene<'_>, on_null: Option<FuncId>) -> bool
    ensures { result ≡ spec.failure_fits scene.entry.unit.now scene.entry.func.now on_null }
{
    match on_null {
        Some(func) => {
            takes_nothing(scene.unit, func) && gives_type(scene.unit, &scene.func.result, func)
        }
        None => true,
    }
}

fn returns_fit(unit: &UnitParts, class: ClassId, returns: &Returns) -> bool
    ensures { (f : CoreFunc) → result ≡ spec.returns_fit unit.now f class returns.now }
{
    match returns {
        Returns::Void(func) => is_promise_call(unit, class, *func),
        Returns::Value | Returns::Neither => true,
    }
}

fn is_class(head: Head) -> bool
    ensures { result ≡ typed.is_class_head head }
{
    match head {
        Head::Class(_) => true,
        _ => false,
    }
}

fn gives_class(unit: &UnitParts, func: FuncId) -> bool
    ensures { result ≡ typed.is_class_head (spec.result_of unit.now (spec.callee unit.now func)) }
{
    match callee(unit, func) {
        Some(func) => is_class(func.result.head()),
        None => false,
    }
}

/// What `unhandled_exception` gives is dropped, and has no place to be made in.
fn unhandled_fits(unit: &UnitParts, class: ClassId, func: FuncId) -> bool
    ensures { (f : CoreFunc) → result ≡ spec.unhandled_fits unit.now f class func }
{
    is_promise_call(unit, class, func) && !gives_class(unit, func)
}

/// Whether the storage and the promise of a coroutine are made and released by functions that fit.
fn makes_promise(scene: Scene<'_>, plan: &PromisePlan) -> bool
    ensures { result ≡ makes_with scene.entry.unit.now scene.entry.func.now plan.now }
{
    coroutine_take(scene, plan.take, plan.take_args.as_slice())
        && (constructor_fits(scene, plan)
            && (failure_fits(scene, plan.on_null) && give_fits(scene.unit, plan.give)))
}

/// Whether the functions of the promise that a coroutine calls fit.
fn calls_promise(scene: Scene<'_>, plan: &PromisePlan) -> bool
    ensures { result ≡ calls_on scene.entry.unit.now scene.entry.func.now plan.now }
{
    is_promise_call(scene.unit, plan.promise, plan.result)
        && (gives_type(scene.unit, &scene.func.result, plan.result)
            && (returns_fit(scene.unit, plan.promise, &plan.returns)
                && unhandled_fits(scene.unit, plan.promise, plan.unhandled)))
}

fn func_plan_calls(scene: Scene<'_>) -> bool
    ensures { result ≡ spec.func_plan_calls scene.entry.unit.now scene.entry.func.now }
{
    match &scene.func.plan {
        Some(plan) => makes_promise(scene, plan) && calls_promise(scene, plan),
        None => true,
    }
}

fn each_plan_calls(unit: &UnitParts, funcs: &[CoreFunc]) -> bool
    ensures { result ≡ list_all (spec.func_plan_calls unit.now) funcs.now }
{
    funcs
        .iter()
        .all(|func| func_plan_calls(Scene { unit, func }))
}

/// Whether each function that a coroutine's plan names has the parameters and the result that its place needs
/// [dcl.fct.def.coroutine].
pub fn plans_call(unit: &UnitParts) -> bool
    ensures { result ≡ spec.plans_call unit.now }
{
    each_plan_calls(unit, unit.funcs.as_slice())
}

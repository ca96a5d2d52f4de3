ghost use Rattle.std.specs.Prelude.{◌≡◌, [], ◌∷◌, slice_get, Some};
ghost use Rattle.std.specs.List.{list_all};
ghost use Rattle.std.specs.Option.{option_copied, option_map};
ghost use Rattle.co_core_types.specs.Seen.{known_type};
ghost use Rattle.co_core_typing.specs.Rules as rules;
ghost use Rattle.co_core_typing.specs.Tables as table;
ghost use Rattle.co_core.specs.Typed as spec;

use crate::slots::{result_fits_head, slots_fit};
use crate::stmts::body_fits;
use co_base::{ClassId, SlotId};
use co_core_tree::{CopyPlan, FuncRole, Init, PromisePlan};
use co_core_typed::{Scene, Wholes, check_await, class_info, fields_fit, init_fits, slot_type};
use co_core_types::{Known, is_void};
use co_types::{Head, has_same_head};

/// Whether what a type points or refers to is this class.
fn is_class_target(class: ClassId, target: Option<Known<'_>>) -> bool
    ensures { result ≡ table.is_class_target class (option_map known_type target.entry) }
{
    match target {
        Some(to) => has_same_head(to.head(), Head::Class(class)),
        None => false,
    }
}

/// Whether the slot refers to an object of the class.
fn is_this(scene: Scene<'_>, class: ClassId, slot: SlotId) -> bool
    ensures { result ≡ spec.is_this scene.entry.unit.now scene.entry.func.now class slot }
{
    let of = slot_type(scene.func, slot);
    slot.0 == 0 && (has_same_head(of.head(), Head::Ref) && is_class_target(class, of.target()))
}

fn takes_this(scene: Scene<'_>, class: ClassId) -> bool
    ensures { result ≡ spec.takes_this scene.entry.unit.now scene.entry.func.now class scene.entry.func.now.params }
{
    match scene.func.params.as_slice() {
        [] => false,
        [slot, ..] => is_this(scene, class, *slot),
    }
}

fn takes_this_alone(scene: Scene<'_>, class: ClassId) -> bool
    ensures { result ≡ spec.takes_this_alone scene.entry.unit.now scene.entry.func.now class scene.entry.func.now.params }
{
    match scene.func.params.as_slice() {
        [slot] => is_this(scene, class, *slot),
        _ => false,
    }
}

/// Whether each initializer of a constructor makes an object of its field.
fn members_fit(scene: Scene<'_>, class: ClassId, members: &[Init]) -> bool
    ensures { result ≡ rules.members_typed scene.entry.unit.now scene.entry.func.now (class ∷ []) (rules.fields_of (slice_get scene.entry.unit.now.classes class.0)) members.now }
{
    let wholes = Wholes::Inside(class, &Wholes::Outermost);
    match class_info(&scene.unit.classes, class) {
        Some(info) => fields_fit(scene, members, info.fields.as_slice(), &wholes),
        None => fields_fit(scene, members, &[], &wholes),
    }
}

fn role_fits(scene: Scene<'_>, role: &FuncRole) -> bool
    ensures { result ≡ spec.role_typed scene.entry.unit.now scene.entry.func.now role.now }
{
    let func = scene.func;
    match role {
        FuncRole::Plain => true,
        FuncRole::Ctor(class, members) => {
            takes_this(scene, *class)
                && (is_void(func.result.head())
                    && (func.plan.is_none() && members_fit(scene, *class, members.as_slice())))
        }
        FuncRole::Dtor(class) => {
            takes_this_alone(scene, *class) && (is_void(func.result.head()) && func.plan.is_none())
        }
    }
}

fn copy_fits(scene: Scene<'_>, copy: &CopyPlan) -> bool
    ensures { result ≡ spec.copy_typed scene.entry.unit.now scene.entry.func.now copy.now }
{
    let to = slot_type(scene.func, copy.to);
    init_fits(scene, &copy.init, to, false, &Wholes::Outermost)
}

fn copies_fit(scene: Scene<'_>, copies: &[CopyPlan]) -> bool
    ensures { result ≡ list_all (spec.copy_typed scene.entry.unit.now scene.entry.func.now) copies.now }
{
    let mut rest = copies;
    while let [copy, next @ ..] = rest {
        if !copy_fits(scene, copy) {
            return false;
        }
        rest = next;
    }
    true
}

fn promise_fits(scene: Scene<'_>, plan: &PromisePlan) -> bool
    ensures { result ≡ spec.plan_typed scene.entry.unit.now scene.entry.func.now (Some plan.now) }
{
    copies_fit(scene, plan.copies.as_slice())
        && (check_await(scene, &plan.initial, &Wholes::Outermost).fits
            && check_await(scene, &plan.last, &Wholes::Outermost).fits)
}

fn plan_fits(scene: Scene<'_>, plan: Option<&PromisePlan>) -> bool
    ensures { result ≡ spec.plan_typed scene.entry.unit.now scene.entry.func.now (option_copied plan.entry) }
{
    match plan {
        Some(plan) => promise_fits(scene, plan),
        None => true,
    }
}

/// Whether each part of the function has the type that it needs.
pub(crate) fn func_fits(scene: Scene<'_>) -> bool
    ensures { result ≡ spec.func_typed scene.entry.unit.now scene.entry.func.now }
{
    let func = scene.func;
    result_fits_head(func.result.head())
        && (slots_fit(func.slots.as_slice())
            && (role_fits(scene, &func.role)
                && (plan_fits(scene, func.plan.as_ref()) && body_fits(scene))))
}

ghost use Rattle.std.specs.Prelude.{◌≡◌, ◌&&◌, true, false};
ghost use Rattle.std.specs.Option.{option_copied};
ghost use Rattle.co_types.specs.Types.{head_of};
ghost use Rattle.co_types.specs.Classes as classes;
ghost use Rattle.co_core_tree.specs.declared.units.UnitParts.{UnitParts};
ghost use Rattle.co_core_tree.specs.Sizes.{destructor_among, dtor_of};
ghost use Rattle.co_core_typing.specs.Tables as table;
ghost use Rattle.co_core.specs.Plans as spec;
ghost use Rattle.co_core_types.specs.Seen.{known_type};
ghost use Rattle.co_core_plans.specs.Calls.{takes_first};

use crate::callees::{callee, is_noexcept};
use co_base::{ClassId, FuncId, Num, SlotId};
use co_core_tree::{CoreFunc, DeletePlan, GivePlan, NewPlan, TakePlan, UnitParts};
use co_core_typed::{class_info, is_plain, slot_type};
use co_core_types::{Known, is_void};
use co_types::{ClassTable, FuncInfo, Head, has_same_head};

fn is_size(of: Known<'_>) -> bool
    ensures { (u : UnitParts) → result ≡ spec.is_size_type u (known_type of.entry) }
{
    has_same_head(of.head(), Head::Num(Num::Size))
}

/// Whether it is a `void*`.
fn is_address(of: Known<'_>) -> bool
    ensures { (u : UnitParts) → result ≡ spec.is_address_type u (known_type of.entry) }
{
    if !has_same_head(of.head(), Head::Pointer) {
        return false;
    }
    match of.target() {
        Some(to) => is_void(to.head()),
        None => false,
    }
}

fn takes_size_alone(func: &CoreFunc, params: &[SlotId]) -> bool
    ensures { (u : UnitParts) → result ≡ spec.takes_size_alone u (table.types_of func.now params.now) }
{
    match params {
        [first] => is_size(slot_type(func, *first)),
        _ => false,
    }
}

fn takes_size_first(func: &CoreFunc, params: &[SlotId]) -> bool
    ensures { (u : UnitParts) → result ≡ spec.takes_size_first u (table.types_of func.now params.now) }
{
    match params {
        [first, ..] => is_size(slot_type(func, *first)),
        [] => false,
    }
}

fn takes_address_alone(func: &CoreFunc, params: &[SlotId]) -> bool
    ensures { (u : UnitParts) → result ≡ spec.takes_address_alone u (table.types_of func.now params.now) }
{
    match params {
        [first] => is_address(slot_type(func, *first)),
        _ => false,
    }
}

fn takes_address_and_size(func: &CoreFunc, params: &[SlotId]) -> bool
    ensures { (u : UnitParts) → result ≡ spec.takes_address_and_size u (table.types_of func.now params.now) }
{
    match params {
        [first, second] => is_address(slot_type(func, *first)) && is_size(slot_type(func, *second)),
        _ => false,
    }
}

/// Whether it is an `operator new` that takes the number of bytes alone [basic.stc.dynamic].
pub(crate) fn takes_storage_alone(unit: &UnitParts, func: FuncId) -> bool
    ensures { result ≡ spec.takes_storage unit.now true func }
{
    match callee(unit, func) {
        Some(func) => is_plain(Some(func))
            && (is_address(Known::Of(&func.result))
                && takes_size_alone(func, func.params.as_slice())),
        None => false,
    }
}

/// Whether it is an `operator new` that takes the number of bytes first.
pub(crate) fn takes_storage_first(func: &CoreFunc) -> bool
    ensures { (u : UnitParts) → result ≡ takes_first u func.now }
{
    is_plain(Some(func))
        && (is_address(Known::Of(&func.result)) && takes_size_first(func, func.params.as_slice()))
}

/// Whether it is an `operator delete` that takes the pointer alone [basic.stc.dynamic.deallocation].
fn gives_storage_alone(unit: &UnitParts, func: FuncId) -> bool
    ensures { result ≡ spec.gives_storage unit.now true func }
{
    match callee(unit, func) {
        Some(func) => is_plain(Some(func))
            && (is_void(func.result.head()) && takes_address_alone(func, func.params.as_slice())),
        None => false,
    }
}

/// Whether it is an `operator delete` that takes the pointer and the number of bytes.
fn gives_storage_sized(unit: &UnitParts, func: FuncId) -> bool
    ensures { result ≡ spec.gives_storage unit.now false func }
{
    match callee(unit, func) {
        Some(func) => is_plain(Some(func))
            && (is_void(func.result.head())
                && takes_address_and_size(func, func.params.as_slice())),
        None => false,
    }
}

pub(crate) fn give_fits(unit: &UnitParts, give: GivePlan) -> bool
    ensures { result ≡ spec.give_fits unit.now give }
{
    match give {
        GivePlan::Global => true,
        GivePlan::Own(func) => gives_storage_alone(unit, func),
        GivePlan::OwnSized(func) => gives_storage_sized(unit, func),
    }
}

fn take_fits(unit: &UnitParts, take: TakePlan) -> bool
    ensures { result ≡ spec.new_take unit.now take }
{
    match take {
        TakePlan::Global => true,
        TakePlan::Own(func) => takes_storage_alone(unit, func),
        TakePlan::OwnWith(_) => false,
    }
}

/// Only a noexcept function of the class may give null [expr.new].
fn null_fits(unit: &UnitParts, may_be_null: bool, take: TakePlan) -> bool
    ensures { result ≡ spec.null_fits unit.now may_be_null take }
{
    match take {
        TakePlan::Own(func) => !may_be_null || is_noexcept(unit, func),
        TakePlan::Global | TakePlan::OwnWith(_) => !may_be_null,
    }
}

fn is_destructor_name(class: &[u8], name: &[u8]) -> bool
    ensures { result ≡ classes.is_destructor_name class.now name.now }
{
    match name {
        [b'~', rest @ ..] => rest == class,
        _ => false,
    }
}

/// The function among these that is the destructor of the class of this name.
fn destructor_of<'a>(class: &[u8], funcs: &'a [FuncInfo]) -> Option<&'a FuncInfo>
    ensures { option_copied result ≡ destructor_among class.now funcs.now }
{
    let mut rest = funcs;
    while let [func, next @ ..] = rest {
        if is_destructor_name(class, func.name.as_slice()) {
            return Some(func);
        }
        rest = next;
    }
    None
}

/// The destructor of a class [class.dtor].
pub(crate) fn destructor(classes: &ClassTable, class: ClassId) -> Option<&FuncInfo>
    ensures { option_copied result ≡ dtor_of classes.now class }
{
    match class_info(classes, class) {
        Some(info) => destructor_of(info.name.as_slice(), info.funcs.as_slice()),
        None => None,
    }
}

fn ends_by(info: Option<&FuncInfo>, func: Option<FuncId>) -> bool
    ensures { (u : UnitParts) → result ≡ spec.ends_by u (option_copied info.entry) func }
{
    match (info, func) {
        (None, None) => true,
        (Some(info), Some(func)) => info.id.0 == func.0,
        _ => false,
    }
}

/// Whether the object of a type is ended by this destructor.
fn ends_object(unit: &UnitParts, head: Head, func: Option<FuncId>) -> bool
    ensures { result ≡ spec.ends_object unit.now head func }
{
    match head {
        Head::Class(class) => ends_by(destructor(&unit.classes, class), func),
        _ => func.is_none(),
    }
}

/// Whether the functions that a `New` names have the parameters and the result that their places need [expr.new].
pub(crate) fn new_fits(unit: &UnitParts, plan: &NewPlan) -> bool
    ensures { result ≡ (spec.new_take unit.now plan.now.take && (spec.null_fits unit.now plan.now.may_be_null plan.now.take && spec.give_fits unit.now plan.now.give)) }
{
    take_fits(unit, plan.take)
        && (null_fits(unit, plan.may_be_null, plan.take) && give_fits(unit, plan.give))
}

/// Whether those of a `Delete` have [expr.delete].
pub(crate) fn delete_fits(unit: &UnitParts, plan: &DeletePlan) -> bool
    ensures { result ≡ (spec.ends_object unit.now (head_of plan.now.of) plan.now.destroy && spec.give_fits unit.now plan.now.give) }
{
    ends_object(unit, plan.of.head(), plan.destroy) && give_fits(unit, plan.give)
}

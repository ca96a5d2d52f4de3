ghost use Rattle.std.specs.Prelude.{◌≡◌, count_by};
ghost use Rattle.std.specs.List.{list_all, list_any};
ghost use Rattle.co_core_tree.specs.Slots.{slot_at};
ghost use Rattle.co_core.specs.Plans as plans;
ghost use Rattle.co_core.specs.Scopes as spec;
ghost use Rattle.co_core_params.specs.Limited.{copies_param, each_copies, is_promise_of};

use co_base::{ClassId, SlotId};
use co_core_tree::{CopyPlan, CoreFunc, SlotInfo, SlotKind};
use co_core_typed::{slot_of, slot_type};
use co_core_types::is_same_known;
use co_types::{Head, has_same_head};

fn is_param(kind: SlotKind) -> bool
    ensures { result ≡ spec.is_param kind }
{
    match kind {
        SlotKind::Param => true,
        _ => false,
    }
}

fn is_copy(kind: SlotKind) -> bool
    ensures { result ≡ spec.is_copy kind }
{
    match kind {
        SlotKind::Copy => true,
        _ => false,
    }
}

fn is_promise(kind: SlotKind) -> bool
    ensures { result ≡ spec.is_promise kind }
{
    match kind {
        SlotKind::Promise => true,
        _ => false,
    }
}

pub(crate) fn param_count(slots: &[SlotInfo]) -> usize
    ensures { result ≡ count_by (λ slot. spec.is_param slot.kind) slots.now }
{
    slots.iter().filter(|slot| is_param(slot.kind)).count()
}

pub(crate) fn copy_count(slots: &[SlotInfo]) -> usize
    ensures { result ≡ count_by (λ slot. spec.is_copy slot.kind) slots.now }
{
    slots.iter().filter(|slot| is_copy(slot.kind)).count()
}

pub(crate) fn promise_count(slots: &[SlotInfo]) -> usize
    ensures { result ≡ count_by (λ slot. spec.is_promise slot.kind) slots.now }
{
    slots.iter().filter(|slot| is_promise(slot.kind)).count()
}

/// Whether the slot is there and is one of kind Param.
pub(crate) fn is_param_slot(func: &CoreFunc, slot: SlotId) -> bool
    ensures { result ≡ plans.is_param_slot func.now slot }
{
    match slot_of(func, slot) {
        Some(info) => is_param(info.kind),
        None => false,
    }
}

fn is_copy_slot(func: &CoreFunc, slot: SlotId) -> bool
    ensures { result ≡ spec.slot_is spec.is_copy (slot_at func.now slot) }
{
    match slot_of(func, slot) {
        Some(info) => is_copy(info.kind),
        None => false,
    }
}

/// Whether all are slots of kind Param.
pub(crate) fn are_params(func: &CoreFunc, params: &[SlotId]) -> bool
    ensures { result ≡ list_all (plans.is_param_slot func.now) params.now }
{
    params.iter().all(|param| is_param_slot(func, *param))
}

fn is_promise_of(class: ClassId, slot: &SlotInfo) -> bool
    ensures { result ≡ is_promise_of class slot.now }
{
    is_promise(slot.kind) && has_same_head(slot.of.head(), Head::Class(class))
}

/// Whether one of the slots is that of a promise of this class.
pub(crate) fn has_promise(class: ClassId, slots: &[SlotInfo]) -> bool
    ensures { result ≡ list_any (is_promise_of class) slots.now }
{
    slots.iter().any(|slot| is_promise_of(class, slot))
}

/// A copy has the type of the parameter that it copies [dcl.fct.def.coroutine].
fn copies_param(func: &CoreFunc, param: SlotId, copy: &CopyPlan) -> bool
    ensures { result ≡ copies_param func.now param copy.now }
{
    copy.from.0 == param.0
        && (is_copy_slot(func, copy.to)
            && is_same_known(slot_type(func, copy.to), slot_type(func, param)))
}

/// Whether each copy is that of its parameter.
pub(crate) fn copies_params(func: &CoreFunc, params: &[SlotId], copies: &[CopyPlan]) -> bool
    ensures { result ≡ each_copies func.now params.now copies.now }
{
    let mut rest = params;
    for copy in copies {
        let [param, next @ ..] = rest else {
            return false;
        };
        if !copies_param(func, *param, copy) {
            return false;
        }
        rest = next;
    }
    rest.is_empty()
}

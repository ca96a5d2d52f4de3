ghost use Rattle.std.specs.Prelude.{◌≡◌};
ghost use Rattle.std.specs.List.{list_all};
ghost use Rattle.co_core_typing.specs.Gives as give;
ghost use Rattle.co_core.specs.Typed as spec;

use co_base::Num;
use co_core_tree::{GlobalInfo, SlotInfo, SlotKind};
use co_core_types::{is_object, is_reference};
use co_types::{Head, has_same_head};

fn is_scalar(head: Head) -> bool
    ensures { result ≡ give.is_scalar head }
{
    match head {
        Head::Void | Head::Class(_) | Head::Atomic(_) => false,
        _ => true,
    }
}

fn is_class_head(head: Head) -> bool
    ensures { result ≡ spec.is_class_head head }
{
    match head {
        Head::Class(_) => true,
        _ => false,
    }
}

/// Whether it is the type of an object or a reference, which may be declared.
fn is_declarable(head: Head) -> bool
    ensures { result ≡ spec.is_declarable head }
{
    is_object(head) || is_reference(head)
}

fn kind_fits(kind: SlotKind, head: Head) -> bool
    ensures { result ≡ spec.kind_fits kind head }
{
    match kind {
        SlotKind::Param | SlotKind::Copy | SlotKind::Local => is_declarable(head),
        SlotKind::Promise => is_class_head(head),
        SlotKind::Temp => is_object(head),
        SlotKind::Held => is_scalar(head),
        SlotKind::Mark => has_same_head(head, Head::Num(Num::Bool)),
    }
}

fn slot_fits(slot: &SlotInfo) -> bool
    ensures { result ≡ spec.slot_fits slot.now }
{
    kind_fits(slot.kind, slot.of.head())
}

pub(crate) fn slots_fit(slots: &[SlotInfo]) -> bool
    ensures { result ≡ list_all spec.slot_fits slots.now }
{
    slots.iter().all(slot_fits)
}

fn global_fits_head(head: Head) -> bool
    ensures { result ≡ spec.global_fits_head head }
{
    match head {
        Head::Num(_) | Head::Atomic(_) | Head::Pointer => true,
        _ => false,
    }
}

fn global_fits(global: &GlobalInfo) -> bool
    ensures { result ≡ spec.global_fits global.now }
{
    global_fits_head(global.of.head())
}

/// Whether each global is an integer, an atomic or a pointer.
pub(crate) fn globals_fit(globals: &[GlobalInfo]) -> bool
    ensures { result ≡ list_all spec.global_fits globals.now }
{
    globals.iter().all(global_fits)
}

pub(crate) fn result_fits_head(head: Head) -> bool
    ensures { result ≡ spec.result_fits_head head }
{
    match head {
        Head::Void => true,
        _ => is_declarable(head),
    }
}

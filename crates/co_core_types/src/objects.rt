ghost use Rattle.std.specs.Prelude.{◌≡◌};
ghost use Rattle.std.specs.Option.{option_copied};
ghost use Rattle.co_core_typing.specs.Forms as spec;
ghost use Rattle.co_core_types.specs.Seen.{known_type, seen};

use crate::calls::is_handle_value;
use crate::views::{
    Known, View, is_number, is_place_of, is_place_of_target, is_reference, is_same_kind, plain,
    pointer_kind, value_converts,
};
use co_base::Num;
use co_core_tree::{Answer, SlotInfo, SlotKind};
use co_types::{CoType, Head, has_same_head};

/// Whether a type has objects.
pub fn is_object(head: Head) -> bool
    ensures { result ≡ spec.is_object head }
{
    match head {
        Head::Void | Head::NullPtr => false,
        _ => !is_reference(head),
    }
}

fn is_pointer_value_to(to: Known<'_>, view: View<'_>) -> bool
    ensures { result ≡ spec.is_pointer_value_to (known_type to.entry) (seen view.entry) }
{
    match view {
        View::Value(of) => is_same_kind(of, pointer_kind(to)),
        _ => false,
    }
}

/// Whether it is a pointer to an object of exactly this type [expr.delete].
pub fn delete_fits(of: &CoType, view: View<'_>) -> bool
    ensures { result ≡ spec.delete_fits of.now (seen view.entry) }
{
    is_object(of.head()) && is_pointer_value_to(Known::Of(of), view)
}

pub fn is_raw(head: Head) -> bool
    ensures { result ≡ spec.is_raw head }
{
    match head {
        Head::Num(_) | Head::Pointer => true,
        _ => false,
    }
}

fn is_class_of(head: Head) -> bool
    ensures { result ≡ spec.is_class_of head }
{
    match head {
        Head::Class(_) => true,
        _ => false,
    }
}

fn is_throw(view: View<'_>) -> bool
    ensures { result ≡ spec.is_throw (seen view.entry) }
{
    match view {
        View::Throws => true,
        _ => false,
    }
}

fn object_fits(object: bool, to: Known<'_>, view: View<'_>) -> bool
    ensures { result ≡ spec.object_fits object (known_type to.entry) (seen view.entry) }
{
    is_throw(view) || (object && is_place_of(to, view))
}

/// Whether a value, or the place for a reference or a class parameter, initializes an object of the type [dcl.init].
pub fn value_fits(object: bool, to: Known<'_>, view: View<'_>) -> bool
    ensures { result ≡ spec.value_fits object (known_type to.entry) (seen view.entry) }
{
    match to.head() {
        Head::Void | Head::NullPtr => false,
        Head::Ref | Head::ConstRef | Head::RefRef => is_place_of_target(to.target(), view),
        Head::Class(_) => object_fits(object, to, view),
        Head::Atomic(kind) => value_converts(plain(kind), view),
        _ => value_converts(to.kind(), view),
    }
}

/// Whether it is the class result that makes an object of the type.
pub fn result_fits(to: Head, view: View<'_>) -> bool
    ensures { result ≡ spec.result_fits to (seen view.entry) }
{
    match view {
        View::Value(of) => is_class_of(to) && has_same_head(of.head, to),
        _ => false,
    }
}

pub fn choose_fits(to: Head, view: View<'_>) -> bool
    ensures { result ≡ spec.choose_fits to (seen view.entry) }
{
    is_class_of(to) && is_number(Num::Bool, view)
}

fn holds(kind: SlotKind, of: &CoType, temp: bool, operand: View<'_>) -> bool
    ensures { result ≡ spec.holds kind of.now temp (seen operand.entry) }
{
    match kind {
        SlotKind::Temp => temp,
        SlotKind::Held => holds_reference(of, operand),
        SlotKind::Param | SlotKind::Copy | SlotKind::Promise | SlotKind::Local | SlotKind::Mark =>
            false,
    }
}

fn holds_reference(of: &CoType, operand: View<'_>) -> bool
    ensures { result ≡ spec.holds_reference of.now (seen operand.entry) }
{
    has_same_head(of.head(), Head::Ref) && is_place_of_target(Known::Of(of).target(), operand)
}

fn holder_fits(holder: Option<&SlotInfo>, temp: bool, operand: View<'_>) -> bool
    ensures { result ≡ spec.holder_fits (option_copied holder.entry) temp (seen operand.entry) }
{
    match holder {
        Some(slot) => holds(slot.kind, &slot.of, temp, operand),
        None => false,
    }
}

fn answer_fits(answer: Answer, view: View<'_>) -> bool
    ensures { result ≡ spec.answer_fits answer (seen view.entry) }
{
    match answer {
        Answer::Void => true,
        Answer::Bool => is_number(Num::Bool, view),
        Answer::Handle => is_handle_value(view),
    }
}

/// Whether the parts of an await fit [expr.await].
pub fn await_fits(
    holder: Option<&SlotInfo>,
    temp: bool,
    answer: Answer,
    operand: View<'_>,
    ready: View<'_>,
    suspend: View<'_>,
) -> bool
    ensures { result ≡ spec.await_fits (option_copied holder.entry) temp answer (seen operand.entry) (seen ready.entry) (seen suspend.entry) }
{
    holder_fits(holder, temp, operand)
        && (is_number(Num::Bool, ready) && answer_fits(answer, suspend))
}

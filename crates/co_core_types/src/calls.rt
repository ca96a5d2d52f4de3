ghost use Rattle.std.specs.Prelude.{◌≡◌, [], ◌∷◌};
ghost use Rattle.co_core_typing.specs.Forms as spec;
ghost use Rattle.co_core_types.specs.Seen.{seen, seen_shape};

use crate::forms::class_place;
use crate::views::{
    Kind, View, address_kind, is_number, is_same_kind, number, plain, plain_kind, truth,
    value_converts,
};
use co_base::{AtomicKind, ClassId, Num};
use co_core_tree::{AtomicOp, HandleOp, LibOp};
use co_types::Head;

fn handle_kind<'a>(promise: Option<ClassId>) -> Kind<'a>
    ensures { seen_shape result ≡ spec.handle_shape promise }
{
    plain_kind(Head::Handle(promise))
}

/// Whether it is a handle of whatever promise, or null.
pub fn is_handle_value(view: View<'_>) -> bool
    ensures { result ≡ spec.is_handle_value (seen view.entry) }
{
    value_converts(handle_kind(None), view)
}

fn given<'a>(fits: bool, view: View<'a>) -> View<'a>
    ensures { seen result ≡ spec.given fits (seen view.entry) }
{
    if fits { view } else { View::Wrong }
}

fn promise_of(view: View<'_>) -> View<'_>
    ensures { seen result ≡ spec.promise_of (seen view.entry) }
{
    match view {
        View::Value(of) => match of.head {
            Head::Handle(promise) => class_place(promise),
            _ => View::Wrong,
        },
        _ => View::Wrong,
    }
}

fn handle_of_head<'a>(head: Head) -> View<'a>
    ensures { seen result ≡ spec.handle_of_head head }
{
    match head {
        Head::Class(class) => View::Value(handle_kind(Some(class))),
        _ => View::Wrong,
    }
}

fn handle_of(view: View<'_>) -> View<'_>
    ensures { seen result ≡ spec.handle_of (seen view.entry) }
{
    match view {
        View::Place(of) => handle_of_head(of.head()),
        _ => View::Wrong,
    }
}

/// What an act on a handle without operands gives [coroutine.handle].
pub fn handle_alone<'a>(op: HandleOp) -> View<'a>
    ensures { seen result ≡ spec.handle_gives op [] }
{
    match op {
        HandleOp::Noop => View::Value(handle_kind(None)),
        HandleOp::Resume
        | HandleOp::Destroy
        | HandleOp::Done
        | HandleOp::Promise
        | HandleOp::FromPromise
        | HandleOp::Address
        | HandleOp::FromAddress(_) => View::Wrong,
    }
}

/// What an act on a handle gives by its operand.
pub fn handle_with(op: HandleOp, operand: View<'_>) -> View<'_>
    ensures { seen result ≡ spec.handle_gives op (seen operand.entry ∷ []) }
{
    match op {
        HandleOp::Resume => given(is_handle_value(operand), View::Nothing),
        HandleOp::Destroy => given(is_handle_value(operand), View::Nothing),
        HandleOp::Done => given(is_handle_value(operand), truth()),
        HandleOp::Promise => promise_of(operand),
        HandleOp::FromPromise => handle_of(operand),
        HandleOp::Address => given(is_handle_value(operand), View::Value(address_kind())),
        HandleOp::FromAddress(promise) => given(
            value_converts(address_kind(), operand),
            View::Value(handle_kind(promise)),
        ),
        HandleOp::Noop => View::Wrong,
    }
}

fn atomic_kind_of(head: Head) -> Option<AtomicKind>
    ensures { result ≡ spec.atomic_kind_of_head head }
{
    match head {
        Head::Atomic(kind) => Some(kind),
        _ => None,
    }
}

fn atomic_kind(view: View<'_>) -> Option<AtomicKind>
    ensures { result ≡ spec.atomic_kind (seen view.entry) }
{
    match view {
        View::Place(of) => atomic_kind_of(of.head()),
        _ => None,
    }
}

fn counts(kind: AtomicKind) -> bool
    ensures { result ≡ spec.counts kind }
{
    match kind {
        AtomicKind::Int | AtomicKind::Long => true,
        AtomicKind::Bool | AtomicKind::VoidPointer => false,
    }
}

fn is_place_of_kind(to: Kind<'_>, view: View<'_>) -> bool
    ensures { result ≡ spec.is_place_of_shape (seen_shape to.entry) (seen view.entry) }
{
    match view {
        View::Place(of) => is_same_kind(of.kind(), to),
        _ => false,
    }
}

/// What an act on an atomic without values gives [atomics.types.operations].
pub fn atomic_alone(op: AtomicOp, place: View<'_>) -> View<'_>
    ensures { seen result ≡ spec.atomic_gives op (seen place.entry ∷ []) }
{
    let Some(kind) = atomic_kind(place) else {
        return View::Wrong;
    };
    match op {
        AtomicOp::Load => View::Value(plain(kind)),
        AtomicOp::Store | AtomicOp::Swap | AtomicOp::Add | AtomicOp::Sub | AtomicOp::Cas =>
            View::Wrong,
    }
}

fn atomic_acts<'a>(op: AtomicOp, kind: AtomicKind, value: View<'a>) -> View<'a>
    ensures { seen result ≡ spec.atomic_acts op kind (seen value.entry ∷ []) }
{
    match op {
        AtomicOp::Store => given(value_converts(plain(kind), value), View::Nothing),
        AtomicOp::Swap => given(value_converts(plain(kind), value), View::Value(plain(kind))),
        AtomicOp::Add => given(
            counts(kind) && value_converts(plain(kind), value),
            View::Value(plain(kind)),
        ),
        AtomicOp::Sub => given(
            counts(kind) && value_converts(plain(kind), value),
            View::Value(plain(kind)),
        ),
        AtomicOp::Load | AtomicOp::Cas => View::Wrong,
    }
}

/// What an act on an atomic with one value gives.
pub fn atomic_with<'a>(op: AtomicOp, place: View<'a>, value: View<'a>) -> View<'a>
    ensures { seen result ≡ spec.atomic_gives op (seen place.entry ∷ seen value.entry ∷ []) }
{
    match atomic_kind(place) {
        Some(kind) => atomic_acts(op, kind, value),
        None => View::Wrong,
    }
}

fn exchanges<'a>(op: AtomicOp, kind: AtomicKind, expected: View<'a>, value: View<'a>) -> View<'a>
    ensures { seen result ≡ spec.atomic_acts op kind (seen expected.entry ∷ seen value.entry ∷ []) }
{
    match op {
        AtomicOp::Cas => given(
            is_place_of_kind(plain(kind), expected) && value_converts(plain(kind), value),
            truth(),
        ),
        AtomicOp::Load | AtomicOp::Store | AtomicOp::Swap | AtomicOp::Add | AtomicOp::Sub =>
            View::Wrong,
    }
}

/// What an act on an atomic with two operands more gives.
pub fn atomic_with_two<'a>(
    op: AtomicOp,
    place: View<'a>,
    expected: View<'a>,
    value: View<'a>,
) -> View<'a>
    ensures { seen result ≡ spec.atomic_gives op (seen place.entry ∷ seen expected.entry ∷ seen value.entry ∷ []) }
{
    match atomic_kind(place) {
        Some(kind) => exchanges(op, kind, expected, value),
        None => View::Wrong,
    }
}

/// What a call of the library without arguments gives.
pub fn lib_alone<'a>(op: LibOp) -> View<'a>
    ensures { seen result ≡ spec.lib_gives op [] }
{
    match op {
        LibOp::Inputs => number(Num::Long),
        LibOp::Print | LibOp::Lit | LibOp::Post | LibOp::Input | LibOp::Take | LibOp::Give =>
            View::Wrong,
    }
}

/// What a call of the library gives by its argument.
pub fn lib_with(op: LibOp, operand: View<'_>) -> View<'_>
    ensures { seen result ≡ spec.lib_gives op (seen operand.entry ∷ []) }
{
    match op {
        LibOp::Print => given(is_number(Num::Long, operand), View::Nothing),
        LibOp::Lit => given(is_number(Num::Int, operand), View::Nothing),
        LibOp::Post => given(is_handle_value(operand), View::Nothing),
        LibOp::Input => given(is_number(Num::Long, operand), number(Num::Long)),
        LibOp::Inputs => View::Wrong,
        LibOp::Take => given(is_number(Num::Size, operand), View::Value(address_kind())),
        LibOp::Give => given(value_converts(address_kind(), operand), View::Nothing),
    }
}

/// What a call of the library gives by its two arguments.
pub fn lib_with_two<'a>(op: LibOp, first: View<'a>, second: View<'a>) -> View<'a>
    ensures { seen result ≡ spec.lib_gives op (seen first.entry ∷ seen second.entry ∷ []) }
{
    match op {
        LibOp::Give => given(
            value_converts(address_kind(), first) && is_number(Num::Size, second),
            View::Nothing,
        ),
        LibOp::Print | LibOp::Lit | LibOp::Post | LibOp::Input | LibOp::Inputs | LibOp::Take =>
            View::Wrong,
    }
}

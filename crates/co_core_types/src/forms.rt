ghost use Rattle.std.specs.Prelude.{◌≡◌};
ghost use Rattle.std.specs.Option.{option_map};
ghost use Rattle.co_core_typing.specs.Gives as give;
ghost use Rattle.co_core_typing.specs.Forms as spec;
ghost use Rattle.co_core_types.specs.Seen.{known_type, seen, seen_shape};

use crate::views::{
    Kind, Known, View, converts, is_address, is_assignable, is_handle, is_null, is_nullable,
    is_number, is_pointer, is_reference, is_right, is_same_kind, is_same_known, is_scalar,
    is_some_number, is_void, number, pointer_kind, truth, value_converts,
};
use co_base::{ClassId, Num, Op};
use co_types::{CoType, Head};

fn is_shift(op: Op) -> bool
    ensures { result ≡ give.is_shift op }
{
    match op {
        Op::Shl | Op::Shr => true,
        _ => false,
    }
}

fn is_comparison(op: Op) -> bool
    ensures { result ≡ give.is_comparison op }
{
    match op {
        Op::Lt | Op::Le | Op::Gt | Op::Ge | Op::Eq | Op::Ne => true,
        _ => false,
    }
}

pub fn arith_gives<'a>(op: Op, num: Num) -> View<'a>
    ensures { seen result ≡ give.arith_gives op num }
{
    if is_comparison(op) {
        truth()
    } else {
        number(num)
    }
}

fn unless_void(to: Known<'_>) -> View<'_>
    ensures { seen result ≡ give.place_unless_void (known_type to.entry) }
{
    if is_void(to.head()) {
        View::Wrong
    } else {
        View::Place(to)
    }
}

fn target_place(target: Option<Known<'_>>) -> View<'_>
    ensures { seen result ≡ give.target_place (option_map known_type target.entry) }
{
    match target {
        Some(to) => unless_void(to),
        None => View::Wrong,
    }
}

/// The object that a pointer points to or a reference refers to [expr.unary.op].
pub fn referent(view: View<'_>) -> View<'_>
    ensures { seen result ≡ give.referent (seen view.entry) }
{
    match view {
        View::Value(of) => target_place(of.target),
        _ => View::Wrong,
    }
}

fn unless_reference(of: Known<'_>) -> View<'_>
    ensures { seen result ≡ give.pointer_unless_reference (known_type of.entry) }
{
    if is_reference(of.head()) {
        View::Wrong
    } else {
        View::Value(pointer_kind(of))
    }
}

/// A pointer to an object; there is none to a reference [dcl.ptr].
pub fn pointer_to(view: View<'_>) -> View<'_>
    ensures { seen result ≡ give.pointer_to (seen view.entry) }
{
    match view {
        View::Place(of) => unless_reference(of),
        _ => View::Wrong,
    }
}

fn load_of(of: Known<'_>) -> View<'_>
    ensures { seen result ≡ give.load_of (known_type of.entry) }
{
    if is_scalar(of.head()) {
        View::Value(of.kind())
    } else {
        View::Wrong
    }
}

/// The value of the scalar at a place [conv.lval].
pub fn loaded(view: View<'_>) -> View<'_>
    ensures { seen result ≡ give.loaded (seen view.entry) }
{
    match view {
        View::Place(of) => load_of(of),
        _ => View::Wrong,
    }
}

fn join_kinds<'a>(a: Kind<'a>, b: Kind<'a>) -> View<'a>
    ensures { seen result ≡ give.join_shapes (seen_shape a.entry) (seen_shape b.entry) }
{
    if converts(a, b) {
        View::Value(b)
    } else if converts(b, a) {
        View::Value(a)
    } else {
        View::Wrong
    }
}

fn join_values<'a>(a: Kind<'a>, b: Kind<'a>) -> View<'a>
    ensures { seen result ≡ give.join_values (seen_shape a.entry) (seen_shape b.entry) }
{
    if is_scalar(a.head) && is_scalar(b.head) {
        join_kinds(a, b)
    } else {
        View::Wrong
    }
}

fn join_places<'a>(a: Known<'a>, b: Known<'a>) -> View<'a>
    ensures { seen result ≡ give.joined (give.Place (known_type a.entry)) (give.Place (known_type b.entry)) }
{
    if is_same_known(a, b) {
        View::Place(a)
    } else {
        View::Wrong
    }
}

/// What `?:` gives by its branches [expr.cond].
pub fn joined<'a>(x: View<'a>, y: View<'a>) -> View<'a>
    ensures { seen result ≡ give.joined (seen x.entry) (seen y.entry) }
{
    match (x, y) {
        (View::Throws, y) => y,
        (x, View::Throws) => x,
        (View::Place(a), View::Place(b)) => join_places(a, b),
        (View::Value(a), View::Value(b)) => join_values(a, b),
        (View::Nothing, View::Nothing) => View::Nothing,
        _ => View::Wrong,
    }
}

/// What a call of a function with this result gives [expr.call].
pub fn result_gives(of: &CoType) -> View<'_>
    ensures { seen result ≡ give.result_gives of.now }
{
    let of = Known::Of(of);
    match of.head() {
        Head::Void => View::Nothing,
        Head::Ref | Head::ConstRef | Head::RefRef => target_place(of.target()),
        _ => View::Value(of.kind()),
    }
}

pub fn class_place<'a>(class: Option<ClassId>) -> View<'a>
    ensures { seen result ≡ give.class_place class }
{
    match class {
        Some(class) => View::Place(Known::Class(class)),
        None => View::Wrong,
    }
}

fn fits_store(of: Known<'_>, value: View<'_>) -> bool
    ensures { result ≡ spec.fits_store (known_type of.entry) (seen value.entry) }
{
    is_assignable(of.head()) && value_converts(of.kind(), value)
}

/// Whether a value may be assigned to a place [expr.ass].
pub fn store_fits(place: View<'_>, value: View<'_>) -> bool
    ensures { result ≡ spec.store_fits (seen place.entry) (seen value.entry) }
{
    match place {
        View::Place(of) => fits_store(of, value),
        _ => false,
    }
}

fn operand_fits(op: Op, num: Num, view: View<'_>) -> bool
    ensures { result ≡ spec.operand_fits op num (seen view.entry) }
{
    if is_shift(op) {
        is_some_number(view)
    } else {
        is_number(num, view)
    }
}

pub fn arith_fits(op: Op, num: Num, left: View<'_>, right: View<'_>) -> bool
    ensures { result ≡ spec.arith_fits op num (seen left.entry) (seen right.entry) }
{
    is_number(num, left) && operand_fits(op, num, right)
}

fn is_number_place(view: View<'_>) -> bool
    ensures { result ≡ spec.is_number_place (seen view.entry) }
{
    match view {
        View::Place(of) => is_some_number_type(of.head()),
        _ => false,
    }
}

pub fn is_some_number_type(head: Head) -> bool
    ensures { result ≡ spec.is_some_number_type head }
{
    match head {
        Head::Num(_) => true,
        _ => false,
    }
}

pub fn update_fits(op: Op, num: Num, place: View<'_>, value: View<'_>) -> bool
    ensures { result ≡ spec.update_fits op num (seen place.entry) (seen value.entry) }
{
    !is_comparison(op) && (is_number_place(place) && operand_fits(op, num, value))
}

pub fn updated(old: bool, place: View<'_>) -> View<'_>
    ensures { seen result ≡ spec.updated old (seen place.entry) }
{
    if old { loaded(place) } else { place }
}

/// Whether a value is null or not [conv.bool].
pub fn is_testable(view: View<'_>) -> bool
    ensures { result ≡ spec.is_testable (seen view.entry) }
{
    match view {
        View::Value(of) => is_nullable(of.head) || is_null(of.head),
        _ => false,
    }
}

fn same_pointers(a: Kind<'_>, b: Kind<'_>) -> bool
    ensures { result ≡ spec.same_pointers (seen_shape a.entry) (seen_shape b.entry) }
{
    is_pointer(a.head)
        && (is_pointer(b.head) && (is_same_kind(a, b) || (is_address(a) || is_address(b))))
}

fn null_beside(a: Head, b: Head) -> bool
    ensures { result ≡ spec.null_beside a b }
{
    (is_nullable(a) && is_null(b)) || (is_null(a) && is_nullable(b))
}

fn comparable(a: Kind<'_>, b: Kind<'_>) -> bool
    ensures { result ≡ spec.comparable (seen_shape a.entry) (seen_shape b.entry) }
{
    same_pointers(a, b) || ((is_handle(a.head) && is_handle(b.head)) || null_beside(a.head, b.head))
}

/// Whether two values can be compared as pointers, handles or null [expr.eq].
pub fn same_fits(a: View<'_>, b: View<'_>) -> bool
    ensures { result ≡ spec.same_fits (seen a.entry) (seen b.entry) }
{
    match (a, b) {
        (View::Value(x), View::Value(y)) => comparable(x, y),
        _ => false,
    }
}

pub fn are_truths(a: View<'_>, b: View<'_>) -> bool
    ensures { result ≡ spec.are_truths (seen a.entry) (seen b.entry) }
{
    is_number(Num::Bool, a) && is_number(Num::Bool, b)
}

pub fn pick_fits(condition: View<'_>, chosen: View<'_>) -> bool
    ensures { result ≡ spec.pick_fits (seen condition.entry) (seen chosen.entry) }
{
    is_number(Num::Bool, condition) && is_right(chosen)
}

ghost use Rattle.std.specs.Prelude.{◌≡◌, ◌&&◌, true};
ghost use Rattle.std.specs.Option.{option_copied};
ghost use Rattle.co_core_typing.specs.Forms as form;
ghost use Rattle.co_core_typing.specs.Gives as give;
ghost use Rattle.co_core_types.specs.Seen.{known_type, seen};
ghost use Rattle.co_core_typing.specs.Tables as table;

use crate::tables::{field_place, throw_fits};
use co_base::{Num, Op, SlotId};
use co_core_tree::{Answer, CoreExpr, SlotInfo};
use co_core_types::{
    Known, View, are_truths, arith_fits, arith_gives, await_fits, choose_fits, delete_fits,
    is_right, is_some_number, is_testable, joined, loaded, number, pick_fits, plain_kind,
    pointer_to, referent, result_fits, same_fits, store_fits, truth, update_fits, updated,
    value_converts, value_fits,
};
use co_types::{ClassTable, CoType, Head};

/// Whether all parts of an expression have the types that they need, and what it gives.
#[derive(Clone, Copy)]
pub struct Checked<'a> {
    pub fits: bool,
    pub view: View<'a>,
}

/// A form without parts.
pub(crate) fn given(view: View<'_>) -> Checked<'_>
    ensures fits { result.fits ≡ true }
    ensures view { seen result.view ≡ seen view.entry }
{
    Checked { fits: true, view }
}

/// A form that is right where what it gives is.
pub(crate) fn named(view: View<'_>) -> Checked<'_>
    ensures fits { result.fits ≡ give.is_right (seen view.entry) }
    ensures view { seen result.view ≡ seen view.entry }
{
    Checked {
        fits: is_right(view),
        view,
    }
}

/// A form whose part fits, and which is right where what it gives is.
pub(crate) fn one(fits: bool, view: View<'_>) -> Checked<'_>
    ensures fits { result.fits ≡ (fits && give.is_right (seen view.entry)) }
    ensures view { seen result.view ≡ seen view.entry }
{
    Checked {
        fits: fits && is_right(view),
        view,
    }
}

pub(crate) fn field<'a>(classes: &'a ClassTable, part: Checked<'a>, field: u32) -> Checked<'a>
    ensures fits { result.fits ≡ (part.entry.fits && give.is_right (give.field_place classes.now (seen part.entry.view) field)) }
    ensures view { seen result.view ≡ give.field_place classes.now (seen part.entry.view) field }
{
    one(part.fits, field_place(classes, part.view, field))
}

pub(crate) fn deref(part: Checked<'_>) -> Checked<'_>
    ensures fits { result.fits ≡ (part.entry.fits && give.is_right (give.referent (seen part.entry.view))) }
    ensures view { seen result.view ≡ give.referent (seen part.entry.view) }
{
    one(part.fits, referent(part.view))
}

pub(crate) fn address(part: Checked<'_>) -> Checked<'_>
    ensures fits { result.fits ≡ (part.entry.fits && give.is_right (give.pointer_to (seen part.entry.view))) }
    ensures view { seen result.view ≡ give.pointer_to (seen part.entry.view) }
{
    one(part.fits, pointer_to(part.view))
}

pub(crate) fn load(part: Checked<'_>) -> Checked<'_>
    ensures fits { result.fits ≡ (part.entry.fits && give.is_right (give.loaded (seen part.entry.view))) }
    ensures view { seen result.view ≡ give.loaded (seen part.entry.view) }
{
    one(part.fits, loaded(part.view))
}

pub(crate) fn store<'a>(place: Checked<'a>, value: Checked<'a>) -> Checked<'a>
    ensures fits { result.fits ≡ (value.entry.fits && (place.entry.fits && form.store_fits (seen place.entry.view) (seen value.entry.view))) }
    ensures view { seen result.view ≡ seen place.entry.view }
{
    Checked {
        fits: value.fits && (place.fits && store_fits(place.view, value.view)),
        view: place.view,
    }
}

pub(crate) fn exchange<'a>(place: Checked<'a>, value: Checked<'a>) -> Checked<'a>
    ensures fits { result.fits ≡ (place.entry.fits && (value.entry.fits && form.store_fits (seen place.entry.view) (seen value.entry.view))) }
    ensures view { seen result.view ≡ give.loaded (seen place.entry.view) }
{
    Checked {
        fits: place.fits && (value.fits && store_fits(place.view, value.view)),
        view: loaded(place.view),
    }
}

pub(crate) fn update<'a>(
    op: Op,
    num: Num,
    place: Checked<'a>,
    value: Checked<'a>,
    old: bool,
) -> Checked<'a>
    ensures fits { result.fits ≡ (value.entry.fits && (place.entry.fits && form.update_fits op num (seen place.entry.view) (seen value.entry.view))) }
    ensures view { seen result.view ≡ form.updated old (seen place.entry.view) }
{
    Checked {
        fits: value.fits && (place.fits && update_fits(op, num, place.view, value.view)),
        view: updated(old, place.view),
    }
}

pub(crate) fn arith<'a>(op: Op, num: Num, left: Checked<'a>, right: Checked<'a>) -> Checked<'a>
    ensures fits { result.fits ≡ (left.entry.fits && (right.entry.fits && form.arith_fits op num (seen left.entry.view) (seen right.entry.view))) }
    ensures view { seen result.view ≡ give.arith_gives op num }
{
    Checked {
        fits: left.fits && (right.fits && arith_fits(op, num, left.view, right.view)),
        view: arith_gives(op, num),
    }
}

pub(crate) fn convert(num: Num, part: Checked<'_>) -> Checked<'_>
    ensures fits { result.fits ≡ (part.entry.fits && give.is_some_number (seen part.entry.view)) }
    ensures view { seen result.view ≡ give.number num }
{
    Checked {
        fits: part.fits && is_some_number(part.view),
        view: number(num),
    }
}

pub(crate) fn test(part: Checked<'_>) -> Checked<'_>
    ensures fits { result.fits ≡ (part.entry.fits && form.is_testable (seen part.entry.view)) }
    ensures view { seen result.view ≡ give.truth }
{
    Checked {
        fits: part.fits && is_testable(part.view),
        view: truth(),
    }
}

pub(crate) fn same<'a>(left: Checked<'a>, right: Checked<'a>) -> Checked<'a>
    ensures fits { result.fits ≡ (left.entry.fits && (right.entry.fits && form.same_fits (seen left.entry.view) (seen right.entry.view))) }
    ensures view { seen result.view ≡ give.truth }
{
    Checked {
        fits: left.fits && (right.fits && same_fits(left.view, right.view)),
        view: truth(),
    }
}

/// Both operands of `&&` or `||`.
pub(crate) fn logical<'a>(left: Checked<'a>, right: Checked<'a>) -> Checked<'a>
    ensures fits { result.fits ≡ (left.entry.fits && (right.entry.fits && form.are_truths (seen left.entry.view) (seen right.entry.view))) }
    ensures view { seen result.view ≡ give.truth }
{
    Checked {
        fits: left.fits && (right.fits && are_truths(left.view, right.view)),
        view: truth(),
    }
}

pub(crate) fn pick<'a>(condition: Checked<'a>, x: Checked<'a>, y: Checked<'a>) -> Checked<'a>
    ensures fits { result.fits ≡ (condition.entry.fits && (x.entry.fits && (y.entry.fits && form.pick_fits (seen condition.entry.view) (give.joined (seen x.entry.view) (seen y.entry.view))))) }
    ensures view { seen result.view ≡ give.joined (seen x.entry.view) (seen y.entry.view) }
{
    let view = joined(x.view, y.view);
    Checked {
        fits: condition.fits && (x.fits && (y.fits && pick_fits(condition.view, view))),
        view,
    }
}

pub(crate) fn throw<'a>(classes: &ClassTable, of: &CoType, part: Checked<'a>) -> Checked<'a>
    ensures fits { result.fits ≡ (part.entry.fits && table.throw_fits classes.now of.now (seen part.entry.view)) }
    ensures view { seen result.view ≡ give.Throws }
{
    Checked {
        fits: part.fits && throw_fits(classes, of, part.view),
        view: View::Throws,
    }
}

pub(crate) fn rethrow(part: Checked<'_>) -> Checked<'_>
    ensures fits { result.fits ≡ (part.entry.fits && give.value_converts (give.plain_shape Head.ExceptionPtr) (seen part.entry.view)) }
    ensures view { seen result.view ≡ give.Nothing }
{
    Checked {
        fits: part.fits && value_converts(plain_kind(Head::ExceptionPtr), part.view),
        view: View::Nothing,
    }
}

pub(crate) fn delete<'a>(of: &CoType, part: Checked<'a>) -> Checked<'a>
    ensures fits { result.fits ≡ (part.entry.fits && form.delete_fits of.now (seen part.entry.view)) }
    ensures view { seen result.view ≡ give.Nothing }
{
    Checked {
        fits: part.fits && delete_fits(of, part.view),
        view: View::Nothing,
    }
}

/// An await by its holder, whether its operand is the `Temp` of that, its answer, and its operand, `ready`, `suspend` and `resume`.
pub(crate) fn awaited<'a>(
    holder: Option<&SlotInfo>,
    temp: bool,
    answer: Answer,
    operand: Checked<'a>,
    ready: Checked<'a>,
    suspend: Checked<'a>,
    resume: Checked<'a>,
) -> Checked<'a>
    ensures fits { result.fits ≡ (operand.entry.fits && (ready.entry.fits && (suspend.entry.fits && (resume.entry.fits && form.await_fits (option_copied holder.entry) temp answer (seen operand.entry.view) (seen ready.entry.view) (seen suspend.entry.view))))) }
    ensures view { seen result.view ≡ seen resume.entry.view }
{
    let fits = await_fits(holder, temp, answer, operand.view, ready.view, suspend.view);
    Checked {
        fits: operand.fits && (ready.fits && (suspend.fits && (resume.fits && fits))),
        view: resume.view,
    }
}

pub(crate) fn value(part: Checked<'_>, argument: bool, to: Known<'_>) -> bool
    ensures { result ≡ (part.entry.fits && form.value_fits argument (known_type to.entry) (seen part.entry.view)) }
{
    part.fits && value_fits(argument, to, part.view)
}

pub(crate) fn results(to: Head, part: Checked<'_>) -> bool
    ensures { result ≡ (part.entry.fits && form.result_fits to (seen part.entry.view)) }
{
    part.fits && result_fits(to, part.view)
}

pub(crate) fn chosen(to: Head, condition: Checked<'_>, x: bool, y: bool) -> bool
    ensures { result ≡ (condition.entry.fits && (form.choose_fits to (seen condition.entry.view) && (x && y))) }
{
    condition.fits && (choose_fits(to, condition.view) && (x && y))
}

/// Whether an expression is the `Temp` that makes the object of a parameter.
#[tactic(auto, using(crate::proofs::Forms::opened_temps))]
pub(crate) fn is_argument(object: bool, e: &CoreExpr) -> bool
    ensures { result ≡ (object && form.is_temp e.now) }
{
    object && is_temp(e)
}

#[tactic(auto, using(crate::proofs::Forms::opened_temps))]
fn is_temp(e: &CoreExpr) -> bool
    ensures { result ≡ form.is_temp e.now }
{
    match e {
        CoreExpr::Temp(..) => true,
        _ => false,
    }
}

/// Whether an expression is the `Temp` of this slot.
#[tactic(auto, using(crate::proofs::Forms::opened_temps))]
pub(crate) fn makes_temp(holder: SlotId, e: &CoreExpr) -> bool
    ensures { result ≡ form.makes_temp holder e.now }
{
    match e {
        CoreExpr::Temp(slot, _, _) => slot.0 == holder.0,
        _ => false,
    }
}

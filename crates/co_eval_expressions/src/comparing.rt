ghost use Rattle.std.specs.Prelude.{◌≡◌, Some};
ghost use Rattle.co_eval_data.specs.Agents.{local_of};
ghost use Rattle.co_eval_data.specs.Changed.{after, turned_by};
ghost use Rattle.co_eval_data.specs.Seen.{given_of};
ghost use Rattle.co_meaning.specs.Expressions as spec;
ghost use Rattle.co_meaning_data.specs.Frames as frames;

use crate::truths::truth;
use crate::values::has_same_parts;
use co_base::{Span, Undef};
use co_eval_data::{Change, Given, Here};
use co_eval_reads::{compares_dangling, counted_alone, is_null, is_same};
use co_meaning_data::Value;

#[tactic(auto, using(crate::proofs::Parts::tested_first, crate::proofs::Parts::tested_none))]
fn tested_parts<'u>(here: &Here<'_, 'u>, values: &[Value]) -> Option<Change<'u>>
    ensures { after result (local_of here.now) ≡ spec.tested (frames.Parts values.now) (local_of here.now) }
{
    match values {
        [first, ..] => Some(here.gives(truth(!is_null(first)))),
        [] => None,
    }
}

/// Whether a pointer, a handle or a `std::exception_ptr` is not null [conv.bool].
pub fn tested<'u>(here: &Here<'_, 'u>, given: &Given) -> Option<Change<'u>>
    ensures { after result (local_of here.now) ≡ spec.tested (given_of given.now) (local_of here.now) }
{
    match given {
        Given::Scalar(value) => Some(here.gives(truth(!is_null(value)))),
        Given::Parts(values) => tested_parts(here, values.as_slice()),
        Given::At(_) | Given::Nothing => None,
    }
}

fn compared_scalars<'u>(here: &Here<'_, 'u>, left: &Value, right: &Value, at: Span) -> Change<'u>
    ensures { Some (turned_by result (local_of here.now)) ≡ spec.compared_with (frames.Scalar left.now) (frames.Scalar right.now) at (local_of here.now) }
{
    match counted_alone(Undef::U9, compares_dangling(here, left, right)) {
        Some(kind) => here.is_undefined(kind, at),
        None => here.gives(truth(is_same(here, left, right))),
    }
}

/// Whether a `std::exception_ptr` is null.
#[tactic(auto, using(crate::proofs::Parts::left_first, crate::proofs::Parts::left_none, crate::proofs::Parts::right_first, crate::proofs::Parts::right_none))]
fn compared_with_null<'u>(here: &Here<'_, 'u>, values: &[Value]) -> Option<Change<'u>>
    ensures left { (w : Value) (at : Span) → after result (local_of here.now) ≡ spec.compared_with (frames.Parts values.now) (frames.Scalar w) at (local_of here.now) }
    ensures right { (w : Value) (at : Span) → after result (local_of here.now) ≡ spec.compared_with (frames.Scalar w) (frames.Parts values.now) at (local_of here.now) }
{
    match values {
        [first, ..] => Some(here.gives(truth(is_null(first)))),
        [] => None,
    }
}

/// Whether two pointers, handles or values of `std::exception_ptr` are the same [expr.eq] [coroutine.handle.compare].
#[tactic(auto, using(crate::proofs::Parts::parts_compared, crate::proofs::Parts::parts_and_place, crate::proofs::Parts::parts_and_nothing))]
pub fn compared_with<'u>(
    here: &Here<'_, 'u>,
    left: &Given,
    right: &Given,
    at: Span,
) -> Option<Change<'u>>
    ensures { after result (local_of here.now) ≡ spec.compared_with (given_of left.now) (given_of right.now) at (local_of here.now) }
{
    match left {
        Given::Scalar(left) => match right {
            Given::Scalar(right) => Some(compared_scalars(here, left, right, at)),
            Given::Parts(right) => compared_with_null(here, right.as_slice()),
            Given::At(_) | Given::Nothing => None,
        },
        Given::Parts(left) => match right {
            Given::Scalar(right) => compared_with_null(here, left.as_slice()),
            Given::Parts(right) => {
                let same = has_same_parts(left.as_slice(), right.as_slice());
                Some(here.gives(truth(same)))
            }
            Given::At(_) | Given::Nothing => None,
        },
        Given::At(_) | Given::Nothing => None,
    }
}

ghost use Rattle.std.specs.Prelude.{◌≡◌, Some, IfOk};
ghost use Rattle.co_eval_data.specs.Agents.{local_of};
ghost use Rattle.co_eval_data.specs.Changed.{after, turned_by};
ghost use Rattle.co_eval_data.specs.Seen.{given_of};
ghost use Rattle.co_meaning.specs.Expressions as spec;
ghost use Rattle.co_meaning_data.specs.Frames as frames;

use co_base::{NoMemory, Span, Undef};
use co_eval_data::{Change, Given, Here, Place};
use co_eval_reads::{counted_of_two, is_no_place, is_null};
use co_meaning_data::Value;
use sqlite_items::Items;
use std::alloc::Global;

/// The place that a pointer points to, and nothing where the value is no pointer to an object.
fn place_in(alloc: Global, value: &Value) -> Result<Given, NoMemory>
    ensures { IfOk result (λ g. given_of g ≡ spec.place_of value.now) }
{
    match value {
        Value::Pointer(object, path) => {
            let path = Items::from_slice(alloc, path.as_slice())?;
            Ok(Given::At(Place {
                object: *object,
                path,
            }))
        }
        _ => Ok(Given::Nothing),
    }
}

fn referent<'u>(here: &Here<'_, 'u>, value: &Value, at: Span) -> Result<Change<'u>, NoMemory>
    ensures { IfOk result (λ c. Some (turned_by c (local_of here.now)) ≡ spec.dereferenced (frames.Scalar value.now) at (local_of here.now)) }
{
    let null = (Undef::U4, is_null(value));
    let no_place = (Undef::U12, is_no_place(value));
    match counted_of_two(null, no_place) {
        Some(kind) => Ok(here.is_undefined(kind, at)),
        None => {
            let place = place_in(here.alloc, value)?;
            Ok(here.gives(place))
        }
    }
}

/// What a pointer points to or a reference refers to; null is undefined [expr.unary.op].
pub fn dereferenced<'u>(
    here: &Here<'_, 'u>,
    given: &Given,
    at: Span,
) -> Result<Option<Change<'u>>, NoMemory>
    ensures { IfOk result (λ c. after c (local_of here.now) ≡ spec.dereferenced (given_of given.now) at (local_of here.now)) }
{
    match given {
        Given::Scalar(value) => Ok(Some(referent(here, value, at)?)),
        _ => Ok(None),
    }
}

ghost use Rattle.std.specs.Prelude.{◌≡◌, [], ◌∷◌, slice_get, IfOk};
ghost use Rattle.co_eval_data.specs.Agents.{local_of};
ghost use Rattle.co_eval_data.specs.Changed.{after};
ghost use Rattle.co_eval_data.specs.Seen.{given_of, place_of};
ghost use Rattle.co_meaning.specs.Expressions as spec;
ghost use Rattle.co_meaning_data.specs.Frames as frames;
ghost use Rattle.co_types.specs.Types.{head_of};
ghost use Rattle.co_types.specs.declared.types.Head.TheVariants as head;

use crate::truths::is_zero;
use co_base::{CatchOf, ClassId, NoMemory, Num, Span, Thrown, Undef};
use co_eval_data::{Change, Given, Going, Here, Node, Place, Step, Task, copy_value, copy_values};
use co_eval_reads::{fields, handled};
use co_meaning_data::Value;
use co_types::{CoType, Head};
use sqlite_items::Items;
use std::alloc::Global;

/// What is thrown by an integer.
fn thrown_number(num: Num, value: i64) -> Thrown
    ensures { result ≡ spec.thrown_number num value }
{
    match num {
        Num::Int => Thrown::Int(value),
        Num::Long | Num::Size => Thrown::Long(value),
        Num::Bool => Thrown::Bool(!is_zero(value)),
    }
}

/// The members of an object that is thrown are read.
fn reads_members<'u>(
    here: &Here<'_, 'u>,
    of: &CoType,
    class: ClassId,
    place: &Place,
    at: Span,
) -> Result<Option<Change<'u>>, NoMemory>
    ensures { IfOk result (λ c. after c (local_of here.now) ≡ spec.throw_place of.now (head.Class class) (place_of place.now) at (local_of here.now)) }
{
    let count = fields(here, of).len();
    if count > u32::MAX as usize {
        return Err(NoMemory);
    }
    let place = place.copy(here.alloc)?;
    let task = Task::Reads(place, count as u32, Items::new(here.alloc), at);
    Ok(Some(here.under(Step::ThrowRead(class), Node::Nothing, task)?))
}

fn throws_object<'u>(
    here: &Here<'_, 'u>,
    of: &CoType,
    place: &Place,
    at: Span,
) -> Result<Option<Change<'u>>, NoMemory>
    ensures { IfOk result (λ c. after c (local_of here.now) ≡ spec.throw_place of.now (head_of of.now) (place_of place.now) at (local_of here.now)) }
{
    match of.head() {
        Head::Class(class) => reads_members(here, of, class, place, at),
        _ => Ok(None),
    }
}

/// A scalar is thrown at once, and of an object of a class the members are read first [except.throw].
pub fn throws<'u>(
    here: &Here<'_, 'u>,
    of: &CoType,
    given: &Given,
    at: Span,
) -> Result<Option<Change<'u>>, NoMemory>
    ensures { IfOk result (λ c. after c (local_of here.now) ≡ spec.throws of.now (given_of given.now) at (local_of here.now)) }
{
    match given {
        Given::Scalar(Value::Number(num, value)) => {
            let thrown = thrown_number(*num, *value);
            Ok(Some(here.leaves(Going::Throwing(thrown))))
        }
        Given::At(place) => throws_object(here, of, place, at),
        _ => Ok(None),
    }
}

/// The integer at a number in a list of values, 0 where there is none.
fn number_at(values: &[Value], index: usize) -> i64
    ensures { result ≡ spec.number_in (slice_get values.now index) }
{
    match values.get(index) {
        Some(Value::Number(_, value)) => *value,
        _ => 0,
    }
}

/// What is thrown by an object of a class whose members have these values [except.throw].
pub fn thrown_object(class: ClassId, values: &[Value]) -> Thrown
    ensures { result ≡ spec.thrown_object class values.now }
{
    Thrown::Class(
        class,
        number_at(values, 0),
        number_at(values, 1),
        number_at(values, 2),
    )
}

/// The values of the scalars that are given.
pub fn values_given(alloc: Global, given: &Given) -> Result<Items<Value>, NoMemory>
    ensures { IfOk result (λ vs. vs ≡ spec.values_given (given_of given.now)) }
{
    match given {
        Given::Scalar(value) => {
            let mut values = Items::new(alloc);
            values.push(copy_value(alloc, value)?)?;
            Ok(values)
        }
        Given::Parts(values) => copy_values(alloc, values.as_slice()),
        Given::At(_) | Given::Nothing => Ok(Items::new(alloc)),
    }
}

/// The newest handled exception is thrown again; where there is none, `std::terminate` is called [except.throw].
#[tactic(auto, using(crate::proofs::Handled::rethrow_newest, crate::proofs::Handled::rethrow_none))]
pub(crate) fn rethrow<'u>(here: &Here<'_, 'u>) -> Change<'u>
    ensures { after (Some result) (local_of here.now) ≡ spec.rethrow (local_of here.now).handled (local_of here.now) }
{
    match handled(here) {
        Some(thrown) => here.leaves(Going::Throwing(thrown)),
        None => here.is_uncaught(Thrown::None),
    }
}

/// The parts of a `std::exception_ptr` that begins with this value.
fn parts_after(
    alloc: Global,
    first: Value,
    x: i64,
    y: i64,
    z: i64,
) -> Result<Items<Value>, NoMemory>
    ensures { IfOk result (λ vs. vs ≡ first ∷ spec.long_value x ∷ spec.long_value y ∷ spec.long_value z ∷ []) }
{
    let mut parts = Items::new(alloc);
    parts.push(first)?;
    parts.push(Value::Number(Num::Long, x))?;
    parts.push(Value::Number(Num::Long, y))?;
    parts.push(Value::Number(Num::Long, z))?;
    Ok(parts)
}

/// The parts of a `std::exception_ptr` to a thrown value [propagation].
pub(crate) fn parts_of_thrown(alloc: Global, thrown: Thrown) -> Result<Items<Value>, NoMemory>
    ensures { IfOk result (λ vs. vs ≡ spec.parts_of_thrown thrown) }
{
    match thrown {
        Thrown::Int(value) => parts_after(alloc, Value::Kind(CatchOf::Int), value, 0, 0),
        Thrown::Long(value) => parts_after(alloc, Value::Kind(CatchOf::Long), value, 0, 0),
        Thrown::Bool(value) => {
            parts_after(alloc, Value::Kind(CatchOf::Bool), i64::from(value), 0, 0)
        }
        Thrown::Class(class, x, y, z) => {
            parts_after(alloc, Value::Kind(CatchOf::Class(class)), x, y, z)
        }
        Thrown::None => parts_after(alloc, Value::Null, 0, 0, 0),
    }
}

/// The exception of a type whose parts have these values.
fn thrown_of_kind(kind: CatchOf, values: &[Value]) -> Thrown
    ensures { result ≡ spec.thrown_of_kind kind values.now }
{
    match kind {
        CatchOf::Int => Thrown::Int(number_at(values, 0)),
        CatchOf::Long => Thrown::Long(number_at(values, 0)),
        CatchOf::Bool => Thrown::Bool(!is_zero(number_at(values, 0))),
        CatchOf::Class(class) => thrown_object(class, values),
        CatchOf::Any => Thrown::None,
    }
}

fn rethrow_kind<'u>(
    here: &Here<'_, 'u>,
    first: &Value,
    rest: &[Value],
    at: Span,
) -> Option<Change<'u>>
    ensures { after result (local_of here.now) ≡ spec.rethrow_parts (frames.Parts (first.now ∷ rest.now)) at (local_of here.now) }
{
    match first {
        Value::Kind(kind) => {
            let thrown = thrown_of_kind(*kind, rest);
            Some(here.leaves(Going::Throwing(thrown)))
        }
        Value::Null => Some(here.is_undefined(Undef::U4, at)),
        _ => None,
    }
}

#[tactic(auto, using(crate::proofs::Parts::rethrow_first, crate::proofs::Parts::rethrow_empty))]
fn rethrow_values<'u>(here: &Here<'_, 'u>, values: &[Value], at: Span) -> Option<Change<'u>>
    ensures { after result (local_of here.now) ≡ spec.rethrow_parts (frames.Parts values.now) at (local_of here.now) }
{
    match values {
        [first, rest @ ..] => rethrow_kind(here, first, rest, at),
        [] => None,
    }
}

/// `std::rethrow_exception`; that of null is undefined [propagation].
pub fn rethrow_parts<'u>(here: &Here<'_, 'u>, given: &Given, at: Span) -> Option<Change<'u>>
    ensures { after result (local_of here.now) ≡ spec.rethrow_parts (given_of given.now) at (local_of here.now) }
{
    match given {
        Given::Parts(values) => rethrow_values(here, values.as_slice(), at),
        Given::Scalar(Value::Null) => Some(here.is_undefined(Undef::U4, at)),
        _ => None,
    }
}

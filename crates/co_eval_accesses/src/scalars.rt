ghost use Rattle.std.specs.Prelude.{◌≡◌, ◌∷◌, [], Some, IfOk, pos};
ghost use Rattle.std.specs.Option.{option_copied};
ghost use Rattle.co_eval_data.specs.Seen.{given_of, place_of};
ghost use Rattle.co_meaning_data.specs.Turn as turn;
ghost use Rattle.co_meaning_data.specs.declared.values.Value.TheVariants as value;

use co_base::{NoMemory, Num};
use co_eval_data::{Given, Place, copy_value, copy_values};
use co_meaning_data::Value;
use co_types::{CoType, Head};
use sqlite_items::Items;
use std::alloc::Global;

/// What the values of the words of a scalar give.
pub fn given_by(mut values: Items<Value>) -> Given
    ensures { given_of result ≡ turn.given_by values }
{
    if values.len() > 1 {
        return Given::Parts(values);
    }
    match values.pop() {
        Some(value) => Given::Scalar(value),
        None => Given::Nothing,
    }
}

fn one_value(alloc: Global, value: Value) -> Result<Items<Value>, NoMemory>
    ensures { IfOk result (λ values. values ≡ value ∷ []) }
{
    let mut values = Items::new(alloc);
    values.push(value)?;
    Ok(values)
}

fn long_zero() -> Value
    ensures { result ≡ value.Number Num.Long (pos 0) }
{
    Value::Number(Num::Long, 0)
}

/// The parts of a `std::exception_ptr` that is null.
fn null_parts(alloc: Global) -> Result<Items<Value>, NoMemory>
    ensures { IfOk result (λ values. values ≡ turn.null_parts) }
{
    let mut values = one_value(alloc, Value::Null)?;
    values.push(long_zero())?;
    values.push(long_zero())?;
    values.push(long_zero())?;
    Ok(values)
}

/// A pointer to what is at a place.
fn pointer(alloc: Global, place: &Place) -> Result<Value, NoMemory>
    ensures { IfOk result (λ value. value ≡ turn.pointer (place_of place.now)) }
{
    let place = place.copy(alloc)?;
    Ok(place.into_pointer())
}

fn some_copy(alloc: Global, values: &Items<Value>) -> Result<Option<Items<Value>>, NoMemory>
    ensures { IfOk result (λ copied. copied ≡ Some values.now) }
{
    Ok(Some(copy_values(alloc, values.as_slice())?))
}

fn some_null(alloc: Global) -> Result<Option<Items<Value>>, NoMemory>
    ensures { IfOk result (λ values. values ≡ Some turn.null_parts) }
{
    Ok(Some(null_parts(alloc)?))
}

fn exception_parts(alloc: Global, given: &Given) -> Result<Option<Items<Value>>, NoMemory>
    ensures { IfOk result (λ values. values ≡ turn.exception_parts (given_of given.now)) }
{
    match given {
        Given::Parts(values) => some_copy(alloc, values),
        Given::Scalar(Value::Null) => some_null(alloc),
        _ => Ok(None),
    }
}

fn some_value(alloc: Global, value: &Value) -> Result<Option<Items<Value>>, NoMemory>
    ensures { IfOk result (λ values. values ≡ Some (value.now ∷ [])) }
{
    let value = copy_value(alloc, value)?;
    Ok(Some(one_value(alloc, value)?))
}

fn some_pointer(alloc: Global, place: &Place) -> Result<Option<Items<Value>>, NoMemory>
    ensures { IfOk result (λ values. values ≡ Some (turn.pointer (place_of place.now) ∷ [])) }
{
    let value = pointer(alloc, place)?;
    Ok(Some(one_value(alloc, value)?))
}

fn scalar_parts(alloc: Global, given: &Given) -> Result<Option<Items<Value>>, NoMemory>
    ensures { IfOk result (λ values. values ≡ turn.scalar_parts (given_of given.now)) }
{
    match given {
        Given::Scalar(value) => some_value(alloc, value),
        Given::At(place) => some_pointer(alloc, place),
        Given::Parts(_) | Given::Nothing => Ok(None),
    }
}

fn head_parts(alloc: Global, head: Head, given: &Given) -> Result<Option<Items<Value>>, NoMemory>
    ensures { IfOk result (λ values. values ≡ turn.head_parts head (given_of given.now)) }
{
    match head {
        Head::ExceptionPtr => exception_parts(alloc, given),
        _ => scalar_parts(alloc, given),
    }
}

/// The values of the words of an object of the type that is given this [dcl.init] [dcl.init.ref].
pub fn parts_for(
    alloc: Global,
    of: Option<&CoType>,
    given: &Given,
) -> Result<Option<Items<Value>>, NoMemory>
    ensures { IfOk result (λ values. values ≡ turn.parts_for (option_copied of.entry) (given_of given.now)) }
{
    match of {
        Some(of) => head_parts(alloc, of.head(), given),
        None => Ok(None),
    }
}

ghost use Rattle.std.specs.Prelude.{◌≡◌, IfOk};

use co_base::NoMemory;
use co_eval_data::{Ending, Given, Going, Outcome, Place, copy_value, copy_values};
use sqlite_items::Items;
use std::alloc::Global;

/// The same place, if there is one.
pub fn copy_place_if(alloc: Global, place: &Option<Place>) -> Result<Option<Place>, NoMemory>
    ensures { IfOk result (λ copied. copied ≡ place.now) }
{
    match place {
        Some(place) => Ok(Some(place.copy(alloc)?)),
        None => Ok(None),
    }
}

/// The same that an expression has given.
pub fn copy_given(alloc: Global, given: &Given) -> Result<Given, NoMemory>
    ensures { IfOk result (λ copied. copied ≡ given.now) }
{
    match given {
        Given::Scalar(value) => Ok(Given::Scalar(copy_value(alloc, value)?)),
        Given::Parts(values) => Ok(Given::Parts(copy_values(alloc, values.as_slice())?)),
        Given::At(place) => Ok(Given::At(place.copy(alloc)?)),
        Given::Nothing => Ok(Given::Nothing),
    }
}

/// The same list of what expressions have given.
pub fn copy_given_list(alloc: Global, list: &[Given]) -> Result<Items<Given>, NoMemory>
    ensures { IfOk result (λ copied. copied ≡ list.now) }
{
    let mut copied = Items::new(alloc);
    for given in list {
        copied.push(copy_given(alloc, given)?)?;
    }
    Ok(copied)
}

/// The same leaving.
pub fn copy_going(alloc: Global, going: &Going) -> Result<Going, NoMemory>
    ensures { IfOk result (λ copied. copied ≡ going.now) }
{
    match going {
        Going::Throwing(value) => Ok(Going::Throwing(*value)),
        Going::Breaking => Ok(Going::Breaking),
        Going::Continuing => Ok(Going::Continuing),
        Going::Returning(given) => Ok(Going::Returning(copy_given(alloc, given)?)),
        Going::Leaving => Ok(Going::Leaving),
        Going::Destroying => Ok(Going::Destroying),
    }
}

/// The same outcome.
pub fn copy_outcome(alloc: Global, outcome: &Outcome) -> Result<Outcome, NoMemory>
    ensures { IfOk result (λ copied. copied ≡ outcome.now) }
{
    match outcome {
        Outcome::Gives(given) => Ok(Outcome::Gives(copy_given(alloc, given)?)),
        Outcome::Passes => Ok(Outcome::Passes),
        Outcome::Goes(going) => Ok(Outcome::Goes(copy_going(alloc, going)?)),
    }
}

fn copy_ending(alloc: Global, ending: &Ending) -> Result<Ending, NoMemory>
    ensures { IfOk result (λ copied. copied ≡ ending.now) }
{
    match ending {
        Ending::EndsObject(x) => Ok(Ending::EndsObject(*x)),
        Ending::EndsPart(place) => Ok(Ending::EndsPart(place.copy(alloc)?)),
        Ending::PassesMark(x) => Ok(Ending::PassesMark(*x)),
    }
}

/// The same list of ends.
pub fn copy_endings(alloc: Global, list: &[Ending]) -> Result<Items<Ending>, NoMemory>
    ensures { IfOk result (λ copied. copied ≡ list.now) }
{
    let mut copied = Items::new(alloc);
    for ending in list {
        copied.push(copy_ending(alloc, ending)?)?;
    }
    Ok(copied)
}

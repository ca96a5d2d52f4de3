ghost use Rattle.std.specs.Prelude.{◌≡◌, Some, IfOk, length, slice_get};
ghost use Rattle.std.specs.Option.{option_copied};
ghost use Rattle.co_eval_data.specs.Agents.{local_of};
ghost use Rattle.co_eval_data.specs.Changed.{after, turned_by};
ghost use Rattle.co_eval_data.specs.Seen.{going_of, outcome_of, place_of};
ghost use Rattle.co_meaning.specs.Step as step;
ghost use Rattle.co_meaning_calls.specs.Calls as calls;
ghost use Rattle.co_meaning_calls.specs.Objects as objects;
ghost use Rattle.co_meaning_data.specs.Store as store;
ghost use Rattle.co_meaning_data.specs.Turn as turn;

use co_base::{ClassId, NoMemory};
use co_eval_data::{Change, Going, Here, Outcome, Place, Task};
use co_eval_parts::{ends, fields_end, unseen_endings};
use co_eval_reads::type_at;
use co_types::{ClassTable, CoType, Head};

fn own_end<'u>(here: &Here<'_, 'u>, own: &[u64], outcome: Outcome) -> Result<Change<'u>, NoMemory>
    ensures { IfOk result (λ c. Some (turned_by c (local_of here.now)) ≡ objects.ends (objects.unseen_endings own.now) (outcome_of outcome) (local_of here.now)) }
{
    let list = unseen_endings(here.alloc, own)?;
    ends(here, list, outcome)
}

/// A function is left: the parameters of its own die after its body, the last first [expr.call].
pub fn function_left<'u>(
    here: &Here<'_, 'u>,
    own: &[u64],
    going: Going,
) -> Result<Option<Change<'u>>, NoMemory>
    ensures { IfOk result (λ c. after c (local_of here.now) ≡ calls.function_left own.now (going_of going) (local_of here.now)) }
{
    match going {
        Going::Returning(given) => {
            let change = own_end(here, own, Outcome::Gives(given))?;
            Ok(Some(change))
        }
        Going::Throwing(value) => {
            let change = own_end(here, own, Outcome::Goes(Going::Throwing(value)))?;
            Ok(Some(change))
        }
        _ => Ok(None),
    }
}

/// A function that is noexcept is left: an exception goes no further [except.spec].
pub fn at_border<'u>(here: &Here<'_, 'u>, going: Going) -> Change<'u>
    ensures { Some (turned_by result (local_of here.now)) ≡ calls.at_border (going_of going) (local_of here.now) }
{
    match going {
        Going::Throwing(value) => here.is_uncaught(value),
        other => here.leaves(other),
    }
}

/// A call has returned or was left: the objects of its class parameters end before control is given back to the caller.
pub fn call_returned<'u>(
    here: &Here<'_, 'u>,
    objects: &[u64],
    outcome: Outcome,
) -> Result<Change<'u>, NoMemory>
    ensures { IfOk result (λ c. Some (turned_by c (local_of here.now)) ≡ calls.call_returned objects.now (outcome_of outcome) (local_of here.now)) }
{
    match objects {
        [] => Ok(here.goes(Task::Comes(outcome))),
        [_, ..] => own_end(here, objects, outcome),
    }
}

fn members_end<'u>(
    here: &Here<'_, 'u>,
    place: &Place,
    built: u32,
    outcome: Outcome,
) -> Result<Change<'u>, NoMemory>
    ensures { IfOk result (λ c. Some (turned_by c (local_of here.now)) ≡ objects.ends (objects.fields_end (place_of place.now) built) (outcome_of outcome) (local_of here.now)) }
{
    let list = fields_end(here.alloc, place, built)?;
    ends(here, list, outcome)
}

/// A constructor is left: a `return` leaves the members that are made, and an exception ends them [class.base.init].
pub fn constructor_left<'u>(
    here: &Here<'_, 'u>,
    place: &Place,
    built: u32,
    going: Going,
) -> Result<Change<'u>, NoMemory>
    ensures { IfOk result (λ c. Some (turned_by c (local_of here.now)) ≡ step.constructor_left (place_of place.now) built (going_of going) (local_of here.now)) }
{
    match going {
        Going::Throwing(value) => members_end(
            here,
            place,
            built,
            Outcome::Goes(Going::Throwing(value)),
        ),
        other => Ok(here.leaves(other)),
    }
}

fn fields_in(classes: &ClassTable, class: ClassId) -> usize
    ensures { result ≡ length (store.fields_in (slice_get classes.now class.0)) }
{
    if class.0 < classes.len() {
        classes.info(class).fields.len()
    } else {
        0
    }
}

#[tactic(auto, unfolding(co_eval_data::specs::Agents::local_of))]
fn fields_of(here: &Here<'_, '_>, of: &CoType) -> usize
    ensures { result ≡ length (store.fields_of (turn.classes (local_of here.now)) of.now) }
{
    match of.head() {
        Head::Class(class) => fields_in(&here.program.unit.classes, class),
        _ => 0,
    }
}

fn in_number(count: usize) -> Result<u32, NoMemory>
    ensures { IfOk result (λ n. n ≡ count) }
{
    match u32::try_from(count) {
        Ok(count) => Ok(count),
        Err(_) => Err(NoMemory),
    }
}

/// How many fields an object of a type has, where it is of a class.
pub fn field_count(here: &Here<'_, '_>, of: Option<&CoType>) -> Result<u32, NoMemory>
    ensures { IfOk result (λ n. n ≡ step.field_count (local_of here.now) (option_copied of.entry)) }
{
    match of {
        Some(of) => in_number(fields_of(here, of)),
        None => Ok(0),
    }
}

/// How many fields the object at a place has.
pub fn all_fields(here: &Here<'_, '_>, place: &Place) -> Result<u32, NoMemory>
    ensures { IfOk result (λ n. n ≡ step.all_fields (place_of place.now) (local_of here.now)) }
{
    field_count(here, type_at(here, place))
}

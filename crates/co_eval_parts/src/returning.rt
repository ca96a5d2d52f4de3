ghost use Rattle.std.specs.Prelude.{◌≡◌, Bool, true, false, Some, IfOk};
ghost use Rattle.co_eval_data.specs.Agents.{local_of};
ghost use Rattle.co_eval_data.specs.Changed.{after, turned_by};
ghost use Rattle.co_eval_data.specs.Seen.{given_of, going_of, outcome_of};
ghost use Rattle.co_eval_parts.specs.Lowest as lowest;
ghost use Rattle.co_meaning_calls.specs.Calls as calls;
ghost use Rattle.co_meaning_data.specs.Frames as meaning;

use crate::frames::does;
use co_base::{NoMemory, Thrown};
use co_eval_data::{Change, Doing, Effect, Given, Going, Here, Kind, Outcome, Task};
use co_meaning_data::Value;
use sqlite_items::Items;

/// Whether no activation is below the newest one.
#[tactic(auto, using(crate::proofs::Lowest::none_below, crate::proofs::Lowest::some_below))]
fn is_lowest(here: &Here<'_, '_>) -> bool
    ensures { result ≡ lowest.is_lowest (local_of here.now).below }
{
    match here.below {
        [] => true,
        [_, ..] => false,
    }
}

#[tactic(auto, unfolding(co_eval_data::specs::Agents::local_of))]
fn is_of_function(here: &Here<'_, '_>) -> bool
    ensures { result ≡ lowest.is_of_function (local_of here.now).top.kind }
{
    match here.top.kind {
        Kind::OfFunction => true,
        Kind::OfRamp | Kind::OfBody | Kind::OfDestroy | Kind::OfParked(..) => false,
    }
}

/// The value of `main` [basic.start.main].
fn main_value(given: &Given) -> Option<i64>
    ensures { result ≡ calls.main_value (given_of given.now) }
{
    match given {
        Given::Scalar(Value::Number(_, value)) => Some(*value),
        _ => Some(0),
    }
}

fn rested<'u>(here: &Here<'_, 'u>, effect: Effect<'u>) -> Change<'u>
    ensures { result ≡ lowest.resting effect.entry }
{
    Change {
        taken: 0,
        effect,
        frames: Items::new(here.alloc),
        doing: Doing {
            opens: None,
            task: Task::Idle,
        },
    }
}

/// The agent has nothing more to do; where its function was `main`, that has returned what is given.
#[tactic(auto, using(crate::proofs::Lowest::rests_after_main, crate::proofs::Lowest::rests))]
fn rests<'u>(here: &Here<'_, 'u>, given: &Given) -> Change<'u>
    requires { lowest.is_lowest (local_of here.now).below ≡ true }
    ensures { Some (turned_by result (local_of here.now)) ≡ calls.returns (given_of given.now) (local_of here.now) }
{
    if is_of_function(here) {
        rested(here, Effect::RestsAfterMain(main_value(given)))
    } else {
        rested(here, Effect::Rests)
    }
}

/// Control returns to the activation below.
#[tactic(auto, using(crate::proofs::Lowest::returns_below))]
fn returns_below<'u>(here: &Here<'_, 'u>, given: Given) -> Change<'u>
    requires { lowest.is_lowest (local_of here.now).below ≡ false }
    ensures { Some (turned_by result (local_of here.now)) ≡ calls.returns (given_of given) (local_of here.now) }
{
    does(here, Effect::Returns, Task::Comes(Outcome::Gives(given)))
}

fn returned<'u>(here: &Here<'_, 'u>, given: Given) -> Change<'u>
    ensures { Some (turned_by result (local_of here.now)) ≡ calls.returns (given_of given) (local_of here.now) }
{
    if is_lowest(here) {
        rests(here, &given)
    } else {
        returns_below(here, given)
    }
}

/// Control returns from the newest activation, with what it gives [stmt.return].
pub fn returns<'u>(here: &Here<'_, 'u>, given: Given) -> Result<Change<'u>, NoMemory>
    ensures { IfOk result (λ c. Some (turned_by c (local_of here.now)) ≡ calls.returns (given_of given) (local_of here.now)) }
{
    Ok(returned(here, given))
}

/// An exception goes on where the newest activation was called, and out of the lowest one none may go.
#[tactic(auto, using(crate::proofs::Lowest::throws_below, crate::proofs::Lowest::is_uncaught))]
fn throws_value<'u>(here: &Here<'_, 'u>, value: Thrown) -> Change<'u>
    ensures { Some (turned_by result (local_of here.now)) ≡ calls.throws_to (local_of here.now).below (meaning.Throwing value) (local_of here.now) }
{
    if is_lowest(here) {
        return here.is_uncaught(value);
    }
    does(
        here,
        Effect::Returns,
        Task::Comes(Outcome::Goes(Going::Throwing(value))),
    )
}

fn thrown<'u>(here: &Here<'_, 'u>, going: Going) -> Option<Change<'u>>
    ensures { after result (local_of here.now) ≡ calls.throws_to (local_of here.now).below (going_of going) (local_of here.now) }
{
    match going {
        Going::Throwing(value) => Some(throws_value(here, value)),
        Going::Breaking
        | Going::Continuing
        | Going::Returning(_)
        | Going::Leaving
        | Going::Destroying => None,
    }
}

/// An exception goes on where the newest activation was called [except.terminate].
pub fn throws<'u>(here: &Here<'_, 'u>, going: Going) -> Result<Option<Change<'u>>, NoMemory>
    ensures { IfOk result (λ c. after c (local_of here.now) ≡ calls.throws_to (local_of here.now).below (going_of going) (local_of here.now)) }
{
    Ok(thrown(here, going))
}

/// The newest activation has no frame left.
pub fn last_frame<'u>(here: &Here<'_, 'u>, outcome: Outcome) -> Result<Option<Change<'u>>, NoMemory>
    ensures { IfOk result (λ c. after c (local_of here.now) ≡ calls.last_frame (outcome_of outcome) (local_of here.now)) }
{
    match outcome {
        Outcome::Gives(given) => Ok(Some(returned(here, given))),
        Outcome::Passes => Ok(Some(returned(here, Given::Nothing))),
        Outcome::Goes(going) => Ok(thrown(here, going)),
    }
}

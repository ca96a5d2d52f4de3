ghost use Rattle.std.specs.Prelude.{◌≡◌, [], ◌∷◌, map, Some, None, IfOk};
ghost use Rattle.co_eval_data.specs.Agents.{IsTabled, local_of};
ghost use Rattle.co_eval_data.specs.Changed.{after, turned_by};
ghost use Rattle.co_eval_data.specs.Seen.{alive_of, ending_of, option_of, frame_with, outcome_of, place_of};
ghost use Rattle.co_eval_data.specs.declared.frames.Node.TheVariants as node;
ghost use Rattle.co_meaning_calls.specs.Objects as objects;
ghost use Rattle.co_meaning_data.specs.Frames as meaning;
ghost use Rattle.co_meaning_data.specs.Turn as turn;

use crate::copies::{copy_endings, copy_outcome};
use crate::frames::{calls_above, does};
use crate::making::fills_part;
use crate::storage::call_with;
use co_base::{FuncId, NoMemory, Span};
use co_eval_data::{Alive, Change, Effect, Ending, Given, Here, Node, Outcome, Place, Step, Task};
use co_eval_reads::{dtor_of_type, type_at};
use co_meaning_data::{Cell, Event};
use sqlite_items::Items;

/// These end, and then the outcome comes to the frame on top.
pub fn ends<'u>(
    here: &Here<'_, 'u>,
    list: Items<Ending>,
    outcome: Outcome,
) -> Result<Change<'u>, NoMemory>
    ensures { IfOk result (λ c. Some (turned_by c (local_of here.now)) ≡ objects.ends (map ending_of list) (outcome_of outcome) (local_of here.now)) }
{
    here.under(
        Step::Ends(list, outcome),
        Node::Nothing,
        Task::Comes(Outcome::Passes),
    )
}

/// What ends after an object, and what comes then.
#[derive(Drop)]
struct Rest {
    list: Items<Ending>,
    outcome: Outcome,
}

/// The destructor of the object at a place is called, under which these frames are left.
fn destroys<'u>(
    here: &Here<'_, 'u>,
    func: FuncId,
    place: Place,
    ended: Step,
    rest: Rest,
) -> Result<Change<'u>, NoMemory>
    ensures { IfOk result (λ c. Some (turned_by c (local_of here.now)) ≡ turn.under (objects.call_with func (meaning.At (place_of place) ∷ []) None turn.nowhere) (meaning.Comes meaning.Passes) (turn.pushed (frame_with ended node.Nothing) (turn.pushed (meaning.Ends (map ending_of rest.list) (outcome_of rest.outcome)) (local_of here.now)))) }
{
    let Rest { list, outcome } = rest;
    let mut given = Items::new(here.alloc);
    given.push(Given::At(place))?;
    let call = call_with(here, func, given, None, Span { line: 0, col: 0 });
    calls_above(here, Step::Ends(list, outcome), ended, call)
}

/// The end of an object begins: its destructor is called, if it has one [class.dtor].
fn end_whole<'u>(here: &Here<'_, 'u>, x: Alive, rest: Rest) -> Result<Change<'u>, NoMemory>
    ensures { IfOk result (λ c. Some (turned_by c (local_of here.now)) ≡ objects.end_whole (alive_of x) (turn.pushed (meaning.Ends (map ending_of rest.list) (outcome_of rest.outcome)) (local_of here.now))) }
{
    let whole = Place::whole(here.alloc, x.object);
    match dtor_of_type(here, type_at(here, &whole)) {
        Some(func) => destroys(here, func, whole, Step::ObjectEnds(x), rest),
        None => dies_above(here, x, rest),
    }
}

/// An object without a destructor ends.
fn dies_above<'u>(here: &Here<'_, 'u>, x: Alive, rest: Rest) -> Result<Change<'u>, NoMemory>
    ensures { IfOk result (λ c. Some (turned_by c (local_of here.now)) ≡ objects.end_object_by (alive_of x) (turn.pushed (meaning.Ends (map ending_of rest.list) (outcome_of rest.outcome)) (local_of here.now)) None) }
{
    let Rest { list, outcome } = rest;
    here.under(Step::Ends(list, outcome), Node::Nothing, Task::Dies(x))
}

/// The end of a part of an object begins: its destructor is called, if it has one [class.dtor].
fn end_field<'u>(here: &Here<'_, 'u>, place: &Place, rest: Rest) -> Result<Change<'u>, NoMemory>
    requires { IsTabled here.now.program.now }
    ensures { IfOk result (λ c. Some (turned_by c (local_of here.now)) ≡ objects.end_field (place_of place.now) (turn.pushed (meaning.Ends (map ending_of rest.list) (outcome_of rest.outcome)) (local_of here.now))) }
{
    match dtor_of_type(here, type_at(here, place)) {
        Some(func) => end_field_by(here, func, place, rest),
        None => passes_above(here, place, rest),
    }
}

fn end_field_by<'u>(
    here: &Here<'_, 'u>,
    func: FuncId,
    place: &Place,
    rest: Rest,
) -> Result<Change<'u>, NoMemory>
    ensures { IfOk result (λ c. Some (turned_by c (local_of here.now)) ≡ objects.end_part_by (place_of place.now) (turn.pushed (meaning.Ends (map ending_of rest.list) (outcome_of rest.outcome)) (local_of here.now)) (Some func)) }
{
    let object = place.copy(here.alloc)?;
    let part = place.copy(here.alloc)?;
    destroys(here, func, object, Step::PartEnds(part), rest)
}

/// A part without a destructor ends: its scalars are outside their lifetime [basic.life].
fn passes_above<'u>(here: &Here<'_, 'u>, place: &Place, rest: Rest) -> Result<Change<'u>, NoMemory>
    requires { IsTabled here.now.program.now }
    ensures { IfOk result (λ c. Some (turned_by c (local_of here.now)) ≡ objects.end_part_by (place_of place.now) (turn.pushed (meaning.Ends (map ending_of rest.list) (outcome_of rest.outcome)) (local_of here.now)) None) }
{
    let Rest { list, outcome } = rest;
    let effect = fills_part(here, place, Cell::Outside)?;
    let frames = here.one(Step::Ends(list, outcome), Node::Nothing)?;
    Ok(here.makes(effect, frames, Task::Comes(Outcome::Passes)))
}

/// A mark is passed, and where it is set its object ends [class.temporary].
fn pass_mark<'u>(
    here: &Here<'_, 'u>,
    object: Option<Alive>,
    rest: Rest,
) -> Result<Change<'u>, NoMemory>
    ensures { IfOk result (λ c. Some (turned_by c (local_of here.now)) ≡ objects.end_next (meaning.PassesMark (option_of alive_of object) ∷ map ending_of rest.list) (outcome_of rest.outcome) (local_of here.now)) }
{
    let Rest { list, outcome } = rest;
    match object {
        None => ends(here, list, outcome),
        Some(x) => ends_before(here, x, list, outcome),
    }
}

fn ends_before<'u>(
    here: &Here<'_, 'u>,
    x: Alive,
    list: Items<Ending>,
    outcome: Outcome,
) -> Result<Change<'u>, NoMemory>
    ensures { IfOk result (λ c. Some (turned_by c (local_of here.now)) ≡ objects.ends (meaning.EndsObject (alive_of x) ∷ map ending_of list) (outcome_of outcome) (local_of here.now)) }
{
    let mut all = Items::new(here.alloc);
    all.push(Ending::EndsObject(x))?;
    all.append(list)?;
    ends(here, all, outcome)
}

/// The first of several ends.
fn end_first<'u>(here: &Here<'_, 'u>, first: &Ending, rest: Rest) -> Result<Change<'u>, NoMemory>
    requires { IsTabled here.now.program.now }
    ensures { IfOk result (λ c. Some (turned_by c (local_of here.now)) ≡ objects.end_next (ending_of first.now ∷ map ending_of rest.list) (outcome_of rest.outcome) (local_of here.now)) }
{
    match first {
        Ending::EndsObject(x) => end_whole(here, *x, rest),
        Ending::EndsPart(place) => end_field(here, place, rest),
        Ending::PassesMark(object) => pass_mark(here, *object, rest),
    }
}

fn rest_of(here: &Here<'_, '_>, list: &[Ending], outcome: &Outcome) -> Result<Rest, NoMemory>
    ensures { IfOk result (λ rest. (rest.list ≡ list.now) × (rest.outcome ≡ outcome.now)) }
{
    let list = copy_endings(here.alloc, list)?;
    let outcome = copy_outcome(here.alloc, outcome)?;
    Ok(Rest { list, outcome })
}

fn end_first_of<'u>(
    here: &Here<'_, 'u>,
    first: &Ending,
    list: &[Ending],
    outcome: &Outcome,
) -> Result<Option<Change<'u>>, NoMemory>
    requires { IsTabled here.now.program.now }
    ensures { IfOk result (λ c. after c (local_of here.now) ≡ objects.end_next (ending_of first.now ∷ map ending_of list.now) (outcome_of outcome.now) (local_of here.now)) }
{
    let rest = rest_of(here, list, outcome)?;
    let change = end_first(here, first, rest)?;
    Ok(Some(change))
}

fn end_none<'u>(here: &Here<'_, 'u>, outcome: &Outcome) -> Result<Option<Change<'u>>, NoMemory>
    ensures { IfOk result (λ c. after c (local_of here.now) ≡ objects.end_next [] (outcome_of outcome.now) (local_of here.now)) }
{
    let outcome = copy_outcome(here.alloc, outcome)?;
    Ok(Some(here.goes(Task::Comes(outcome))))
}

/// The first of these ends, and the others after it; where there is none, the outcome comes to the frame on top [class.dtor].
pub fn end_next<'u>(
    here: &Here<'_, 'u>,
    list: &[Ending],
    outcome: &Outcome,
) -> Result<Option<Change<'u>>, NoMemory>
    requires { IsTabled here.now.program.now }
    ensures { IfOk result (λ c. after c (local_of here.now) ≡ objects.end_next (map ending_of list.now) (outcome_of outcome.now) (local_of here.now)) }
{
    match list {
        [] => end_none(here, outcome),
        [first, rest @ ..] => end_first_of(here, first, rest, outcome),
    }
}

/// An object is ended, whose destructor, if any, has returned [basic.life].
pub fn dies<'u>(here: &Here<'_, 'u>, x: Alive) -> Change<'u>
    ensures { Some (turned_by result (local_of here.now)) ≡ objects.dies (alive_of x) (local_of here.now) }
{
    match x.coroutine {
        None => does(here, Effect::Ends(x.object), Task::Comes(Outcome::Passes)),
        Some(coroutine) => does(
            here,
            Effect::Ends(x.object),
            Task::HasDied(coroutine, x.object),
        ),
    }
}

/// The event of the death of an object of a coroutine.
pub fn has_died<'u>(here: &Here<'_, 'u>, coroutine: u64, object: u64) -> Change<'u>
    ensures { Some (turned_by result (local_of here.now)) ≡ objects.has_died coroutine object (local_of here.now) }
{
    does(
        here,
        Effect::Happens(Event::Died(coroutine, object)),
        Task::Comes(Outcome::Passes),
    )
}

/// An object whose initialization is left is ended, without an event, and the outcome comes to the frame on top [except.ctor].
pub fn abandon<'u>(here: &Here<'_, 'u>, object: u64, outcome: Outcome) -> Change<'u>
    ensures { Some (turned_by result (local_of here.now)) ≡ objects.abandon object (outcome_of outcome) (local_of here.now) }
{
    does(here, Effect::Ends(object), Task::Comes(outcome))
}

ghost use Rattle.std.specs.Prelude.{◌≡◌, ◌∷◌, [], false, None, Some, IfOk};
ghost use Rattle.std.specs.Option.{option_copied};
ghost use Rattle.co_eval_coroutines.specs.Calling as calling;
ghost use Rattle.co_eval_data.specs.Agents.{local_of, object_of};
ghost use Rattle.co_eval_data.specs.Changed.{after, turned_by};
ghost use Rattle.co_eval_data.specs.Seen.{given_of, place_if, place_of};
ghost use Rattle.co_eval_data.specs.declared.frames.Node.TheVariants as node;
ghost use Rattle.co_eval_data.specs.declared.frames.Step.TheVariants as step;
ghost use Rattle.co_meaning_calls.specs.Coroutines as coroutines;
ghost use Rattle.co_meaning_calls.specs.Objects as objects;
ghost use Rattle.co_meaning_data.specs.Frames as meaning;
ghost use Rattle.co_meaning_data.specs.Store as store;
ghost use Rattle.co_meaning_data.specs.Turn as turn;
ghost use Rattle.co_meaning_data.specs.declared.values.Cell.TheVariants as cell;

use crate::frames::does;
use crate::suspending::suspends_without_call;
use co_base::NoMemory;
use co_core_tree::{AwaitPlan, CoreExpr};
use co_eval_data::{Change, Effect, Frame, Given, Here, Node, Place, Step, StoredObject, Task};
use co_eval_parts::copy_place_if;
use co_eval_reads::{holds_awaiter, type_of_slot};
use co_meaning_data::{Cell, Lifetime};
use co_types::CoType;
use sqlite_items::Items;

/// An object that refers to what is at a place [dcl.init.ref].
fn referring<'u>(
    here: &Here<'_, 'u>,
    of: &'u CoType,
    place: &Place,
) -> Result<StoredObject<'u>, NoMemory>
    ensures { IfOk result (λ o. object_of o ≡ store.live_object of.now (cell.Holds (turn.pointer (place_of place.now)) ∷ [])) }
{
    let place = place.copy(here.alloc)?;
    let mut cells = Items::new(here.alloc);
    cells.push(Cell::Holds(place.into_pointer()))?;
    Ok(StoredObject {
        of,
        cells,
        lifetime: Lifetime::Live,
        block: None,
        coroutine: None,
    })
}

/// The frame that awaits what `await_ready` gives.
fn ready_frames<'u>(
    here: &Here<'_, 'u>,
    plan: &'u AwaitPlan,
    into: &Option<Place>,
) -> Result<Items<Frame<'u>>, NoMemory>
    ensures { IfOk result (λ fs. fs ≡ record { step = step.AwaitReady into.now; node = node.Await plan.entry } ∷ []) }
{
    let into = copy_place_if(here.alloc, into)?;
    here.one(Step::AwaitReady(into), Node::Await(plan))
}

/// `await_ready` is called [expr.await].
fn ready_under<'u>(
    here: &Here<'_, 'u>,
    plan: &'u AwaitPlan,
    into: &Option<Place>,
) -> Result<Change<'u>, NoMemory>
    ensures { IfOk result (λ c. Some (turned_by c (local_of here.now)) ≡ turn.under (meaning.AwaitReady plan.now (place_if into.now)) (meaning.Evaluate plan.now.ready None) (local_of here.now)) }
{
    let frames = ready_frames(here, plan, into)?;
    Ok(here.above(frames, Task::Evaluate(&plan.ready, None)))
}

/// The same, where a slot of this type refers to the awaiter first.
fn refers<'u>(
    here: &Here<'_, 'u>,
    plan: &'u AwaitPlan,
    into: &Option<Place>,
    of: &'u CoType,
    place: &Place,
) -> Result<Change<'u>, NoMemory>
    ensures { IfOk result (λ c. Some (turned_by c (local_of here.now)) ≡ turn.under (meaning.AwaitReady plan.now (place_if into.now)) (meaning.Evaluate plan.now.ready None) (coroutines.referred plan.now.holder.0 of.now (place_of place.now) (local_of here.now))) }
{
    let object = referring(here, of, place)?;
    match ready_frames(here, plan, into) {
        Ok(frames) => Ok(here.makes(
            Effect::Adds(plan.holder.0, object),
            frames,
            Task::Evaluate(&plan.ready, None),
        )),
        Err(_) => Err(NoMemory),
    }
}

fn refers_in<'u>(
    here: &Here<'_, 'u>,
    plan: &'u AwaitPlan,
    into: &Option<Place>,
    of: &'u CoType,
    given: &Given,
) -> Result<Option<Change<'u>>, NoMemory>
    ensures { IfOk result (λ c. after c (local_of here.now) ≡ coroutines.ready_under plan.now (place_if into.now) (coroutines.held_as plan.now.holder.0 (given_of given.now) (local_of here.now) (Some of.now))) }
{
    match given {
        Given::At(place) => {
            let change = refers(here, plan, into, of, place)?;
            Ok(Some(change))
        }
        _ => Ok(None),
    }
}

/// The slot of the awaiter refers to it, where it is at a place.
#[tactic(auto, using(crate::proofs::Held::no_type))]
fn refers_of<'u>(
    here: &Here<'_, 'u>,
    plan: &'u AwaitPlan,
    into: &Option<Place>,
    of: Option<&'u CoType>,
    given: &Given,
) -> Result<Option<Change<'u>>, NoMemory>
    ensures { IfOk result (λ c. after c (local_of here.now) ≡ coroutines.ready_under plan.now (place_if into.now) (coroutines.held_as plan.now.holder.0 (given_of given.now) (local_of here.now) (option_copied of.entry))) }
{
    match of {
        Some(of) => refers_in(here, plan, into, of, given),
        None => Ok(None),
    }
}

fn refers_first<'u>(
    here: &Here<'_, 'u>,
    plan: &'u AwaitPlan,
    into: &Option<Place>,
    given: &Given,
) -> Result<Option<Change<'u>>, NoMemory>
    ensures { IfOk result (λ c. after c (local_of here.now) ≡ coroutines.ready_under plan.now (place_if into.now) (coroutines.held_as plan.now.holder.0 (given_of given.now) (local_of here.now) (objects.type_of_slot (local_of here.now) plan.now.holder.0))) }
{
    refers_of(here, plan, into, type_of_slot(here, plan.holder.0), given)
}

/// The awaiter of an await is there: to one that is no temporary its slot refers [expr.await].
pub fn await_operand<'u>(
    here: &Here<'_, 'u>,
    plan: &'u AwaitPlan,
    into: &Option<Place>,
    given: &Given,
) -> Result<Option<Change<'u>>, NoMemory>
    ensures { IfOk result (λ c. after c (local_of here.now) ≡ coroutines.await_operand plan.now (place_if into.now) (given_of given.now) (local_of here.now)) }
{
    if holds_awaiter(here, plan.holder.0) {
        refers_first(here, plan, into, given)
    } else {
        let change = ready_under(here, plan, into)?;
        Ok(Some(change))
    }
}

fn is_plain_call(e: &CoreExpr) -> bool
    ensures { result ≡ calling.is_plain_call e.now }
{
    match e {
        CoreExpr::Call(..) => true,
        _ => false,
    }
}

/// Whether `await_suspend` is a call; that of the library's awaiters is none.
#[tactic(auto, using(crate::proofs::Loaded::load_of))]
fn is_call(e: &CoreExpr) -> bool
    ensures { result ≡ coroutines.is_call e.now }
{
    match e {
        CoreExpr::Call(..) => true,
        CoreExpr::Load(place, _) => is_plain_call(place.get()),
        _ => false,
    }
}

/// `await_suspend` is called, before which the coroutine is suspended [expr.await].
fn asks<'u>(
    here: &Here<'_, 'u>,
    plan: &'u AwaitPlan,
    into: &Option<Place>,
) -> Result<Change<'u>, NoMemory>
    ensures { IfOk result (λ c. Some (turned_by c (local_of here.now)) ≡ turn.under (meaning.AwaitSuspend plan.now (place_if into.now) []) (meaning.Evaluate plan.now.suspend None) (local_of here.now)) }
{
    let into = copy_place_if(here.alloc, into)?;
    let step = Step::AwaitSuspend(into, Items::new(here.alloc));
    here.under(step, Node::Await(plan), Task::Evaluate(&plan.suspend, None))
}

fn not_ready<'u>(
    here: &Here<'_, 'u>,
    plan: &'u AwaitPlan,
    into: &Option<Place>,
) -> Result<Option<Change<'u>>, NoMemory>
    ensures { IfOk result (λ c. after c (local_of here.now) ≡ coroutines.await_ready plan.now (place_if into.now) false (local_of here.now)) }
{
    if is_call(&plan.suspend) {
        let change = asks(here, plan, into)?;
        Ok(Some(change))
    } else {
        suspends_without_call(here, plan, into)
    }
}

/// `await_ready` has answered [expr.await].
pub fn await_ready<'u>(
    here: &Here<'_, 'u>,
    plan: &'u AwaitPlan,
    into: &Option<Place>,
    ready: bool,
) -> Result<Option<Change<'u>>, NoMemory>
    ensures { IfOk result (λ c. after c (local_of here.now) ≡ coroutines.await_ready plan.now (place_if into.now) ready (local_of here.now)) }
{
    if ready {
        let change = await_resume(here, plan, into)?;
        Ok(Some(change))
    } else {
        not_ready(here, plan, into)
    }
}

/// The await goes on with `await_resume`, before which the initial one sets its flag.
#[tactic(auto, using(crate::proofs::Held::is_initial, crate::proofs::Held::is_other))]
pub fn await_resume<'u>(
    here: &Here<'_, 'u>,
    plan: &'u AwaitPlan,
    into: &Option<Place>,
) -> Result<Change<'u>, NoMemory>
    ensures { IfOk result (λ c. Some (turned_by c (local_of here.now)) ≡ coroutines.await_resume plan.now (place_if into.now) (local_of here.now)) }
{
    let into = copy_place_if(here.alloc, into)?;
    let task = Task::Evaluate(&plan.resume, into);
    if plan.point.0 == 0 {
        Ok(does(here, Effect::Reached, task))
    } else {
        Ok(here.goes(task))
    }
}

ghost use Rattle.std.specs.Prelude.{◌≡◌, [], ◌∷◌, map, slice_get, Some, IfOk};
ghost use Rattle.co_eval_data.specs.Agents.{local_of};
ghost use Rattle.co_eval_data.specs.Changed.{after, turned_by};
ghost use Rattle.co_eval_data.specs.Seen.{alive_of, frame_with, frames_of, given_of, place_if};
ghost use Rattle.co_eval_data.specs.declared.frames.Node.TheVariants as node;
ghost use Rattle.co_meaning_calls.specs.Coroutines as coroutines;
ghost use Rattle.co_meaning_data.specs.Frames as frames;
ghost use Rattle.co_meaning_data.specs.Turn as turn;

use crate::calls::{result_place, two};
use co_base::{FuncId, NoMemory};
use co_core_tree::CoreFunc;
use co_eval_data::{Alive, Change, Frame, Given, Here, Outcome, Place, Spot, Step, Task};
use co_eval_parts::{call_with, lives};
use co_eval_reads::{func_at, func_span, plan, promise_number};
use sqlite_items::Items;

/// The copy of a parameter, or the promise, is live.
pub fn ramp_made<'u>(here: &Here<'_, 'u>, x: Alive) -> Result<Option<Change<'u>>, NoMemory>
    ensures { IfOk result (λ c. after c (local_of here.now) ≡ coroutines.ramp_made (alive_of x) (local_of here.now)) }
{
    lives(here, x, Spot::InHold, Outcome::Passes)
}

/// The object of the promise.
#[tactic(auto, using(co_eval_reads::proofs::Parts::coroutine_seen))]
fn promise(here: &Here<'_, '_>) -> Option<u64>
    ensures { result ≡ coroutines.promise_number (local_of here.now) (local_of here.now).top.coroutine }
{
    promise_number(here, here.top.coroutine)
}

/// The promise as the first argument of a function, where that is not static.
fn this_of(here: &Here<'_, '_>, func: &CoreFunc, object: u64) -> Result<Items<Given>, NoMemory>
    ensures { IfOk result (λ given. map given_of given ≡ coroutines.takes_this (Some func.now) (Some object)) }
{
    let mut given = Items::new(here.alloc);
    if func.params.is_empty() {
        return Ok(given);
    }
    given.push(Given::At(Place::whole(here.alloc, object)))?;
    Ok(given)
}

fn this_in(here: &Here<'_, '_>, func: &CoreFunc) -> Result<Items<Given>, NoMemory>
    ensures { IfOk result (λ given. map given_of given ≡ coroutines.takes_this (Some func.now) (coroutines.promise_number (local_of here.now) (local_of here.now).top.coroutine)) }
{
    match promise(here) {
        Some(object) => this_of(here, func, object),
        None => Ok(Items::new(here.alloc)),
    }
}

/// The arguments of the call of a member function of the promise.
fn this_given(here: &Here<'_, '_>, func: FuncId) -> Result<Items<Given>, NoMemory>
    ensures { IfOk result (λ given. map given_of given ≡ coroutines.takes_this (slice_get (turn.funcs (local_of here.now)) func.0) (coroutines.promise_number (local_of here.now) (local_of here.now).top.coroutine)) }
{
    match func_at(here, func) {
        Some(func) => this_in(here, func),
        None => Ok(Items::new(here.alloc)),
    }
}

/// The call of a member function of the promise; one that is static gets no object. Its frame has no node.
pub fn promise_call(
    here: &Here<'_, '_>,
    func: FuncId,
    into: Option<Place>,
) -> Result<Step, NoMemory>
    ensures { IfOk result (λ s. frame_with s node.Nothing ≡ coroutines.promise_call func (place_if into) (local_of here.now)) }
{
    match this_given(here, func) {
        Ok(given) => Ok(call_with(here, func, given, into, func_span(here))),
        Err(_) => Err(NoMemory),
    }
}

/// The call of `get_return_object`, above the frame that awaits it.
fn result_frames<'u>(here: &Here<'_, 'u>, func: FuncId) -> Result<Items<Frame<'u>>, NoMemory>
    ensures { IfOk result (λ fs. frames_of fs ≡ coroutines.promise_call func (local_of here.now).top.into (local_of here.now) ∷ frames.RampBody ∷ []) }
{
    let into = result_place(here)?;
    let call = promise_call(here, func, into)?;
    two(here, Step::RampBody, call)
}

fn result_by<'u>(here: &Here<'_, 'u>, func: FuncId) -> Result<Change<'u>, NoMemory>
    ensures { IfOk result (λ c. Some (turned_by c (local_of here.now)) ≡ turn.under (coroutines.promise_call func (local_of here.now).top.into (local_of here.now)) (frames.Comes frames.Passes) (turn.pushed frames.RampBody (local_of here.now))) }
{
    let frames = result_frames(here, func)?;
    Ok(here.above(frames, Task::Comes(Outcome::Passes)))
}

/// `get_return_object` makes the result of the call [dcl.fct.def.coroutine].
pub fn ramp_result<'u>(here: &Here<'_, 'u>) -> Result<Option<Change<'u>>, NoMemory>
    ensures { IfOk result (λ c. after c (local_of here.now) ≡ coroutines.ramp_result (local_of here.now)) }
{
    match plan(here) {
        Some(plan) => {
            let change = result_by(here, plan.result)?;
            Ok(Some(change))
        }
        None => Ok(None),
    }
}

ghost use Rattle.std.specs.Prelude.{◌≡◌, ◌∷◌, [], None, Some, IfOk};
ghost use Rattle.co_eval_data.specs.Agents.{local_of};
ghost use Rattle.co_eval_data.specs.Changed.{after, turned_by};
ghost use Rattle.co_eval_data.specs.Seen.{frames_of, going_of};
ghost use Rattle.co_eval_data.specs.declared.frames.Node.TheVariants as node;
ghost use Rattle.co_eval_data.specs.declared.frames.Step.TheVariants as step;
ghost use Rattle.co_meaning_calls.specs.Calls as calls;
ghost use Rattle.co_meaning_calls.specs.Coroutines as coroutines;
ghost use Rattle.co_meaning_data.specs.Frames as meaning;
ghost use Rattle.co_meaning_data.specs.Turn as turn;

use crate::frames::{above, does};
use co_base::{FuncId, NoMemory, Thrown};
use co_core_tree::AwaitPlan;
use co_eval_data::{Change, Effect, Frame, Going, Here, Node, Outcome, Step, Task, with};
use co_eval_fulls::{Opening, open_await};
use co_eval_parts::copy_going;
use co_eval_ramps::promise_call;
use co_eval_reads::{func, is_noexcept, plan};
use sqlite_items::Items;

/// The body follows the initial await.
pub fn started<'u>(here: &Here<'_, 'u>) -> Result<Option<Change<'u>>, NoMemory>
    ensures { IfOk result (λ c. after c (local_of here.now) ≡ coroutines.started (local_of here.now)) }
{
    match func(here) {
        Some(func) => Ok(Some(here.goes(Task::Execute(&func.body)))),
        None => Ok(None),
    }
}

/// This await follows, whose value is dropped.
fn awaits_last<'u>(here: &Here<'_, 'u>, last: &'u AwaitPlan) -> Result<Change<'u>, NoMemory>
    ensures { IfOk result (λ c. Some (turned_by c (local_of here.now)) ≡ calls.opens (coroutines.await_acts (local_of here.now) last.now) [] (meaning.Awaits last.now None) (turn.pushed meaning.Drops (local_of here.now))) }
{
    let outer = here.one(Step::Drops, Node::Nothing)?;
    let opening = Opening {
        effect: Effect::Nothing,
        outer,
        inner: Items::new(here.alloc),
        task: Task::Awaits(last, None),
    };
    open_await(here, last, opening)
}

/// The final await [dcl.fct.def.coroutine].
pub fn final_await<'u>(here: &Here<'_, 'u>) -> Result<Option<Change<'u>>, NoMemory>
    ensures { IfOk result (λ c. after c (local_of here.now) ≡ coroutines.final_await (local_of here.now)) }
{
    match plan(here) {
        Some(plan) => {
            let change = awaits_last(here, &plan.last)?;
            Ok(Some(change))
        }
        None => Ok(None),
    }
}

/// What stands around the call of `unhandled_exception`: the final await follows it, and the exception is handled until then.
fn around_handler<'u>(here: &Here<'_, 'u>) -> Result<Items<Frame<'u>>, NoMemory>
    ensures { IfOk result (λ fs. fs ≡ record { step = step.Unhandled; node = node.Nothing } ∷ record { step = step.Handled; node = node.Nothing } ∷ record { step = step.Drops; node = node.Nothing } ∷ []) }
{
    let frames = here.one(Step::Unhandled, Node::Nothing)?;
    let frames = with(frames, Step::Handled, Node::Nothing)?;
    with(frames, Step::Drops, Node::Nothing)
}

/// The same, and the call.
fn handler_frames<'u>(here: &Here<'_, 'u>, func: FuncId) -> Result<Items<Frame<'u>>, NoMemory>
    ensures { IfOk result (λ fs. frames_of fs ≡ coroutines.promise_call func None (local_of here.now) ∷ meaning.Drops ∷ meaning.Handled ∷ meaning.Unhandled ∷ []) }
{
    let frames = around_handler(here)?;
    match promise_call(here, func, None) {
        Ok(call) => with(frames, call, Node::Nothing),
        Err(_) => Err(NoMemory),
    }
}

/// The exception is the newest handled one, and the function of the promise is called.
fn handles<'u>(here: &Here<'_, 'u>, value: Thrown, func: FuncId) -> Result<Change<'u>, NoMemory>
    ensures { IfOk result (λ c. Some (turned_by c (local_of here.now)) ≡ turn.under (coroutines.promise_call func None (local_of here.now)) (meaning.Comes meaning.Passes) (turn.pushed meaning.Drops (turn.pushed meaning.Handled (turn.pushed meaning.Unhandled (record (local_of here.now) { handled = value ∷ (local_of here.now).handled }))))) }
{
    let frames = handler_frames(here, func)?;
    Ok(here.makes(Effect::Handles(value), frames, Task::Comes(Outcome::Passes)))
}

/// An exception that leaves the body is handled by `unhandled_exception` [dcl.fct.def.coroutine].
fn handled_by<'u>(here: &Here<'_, 'u>, value: Thrown) -> Result<Option<Change<'u>>, NoMemory>
    ensures { IfOk result (λ c. after c (local_of here.now) ≡ coroutines.handled_by value (local_of here.now) (coroutines.plan_of (local_of here.now))) }
{
    match plan(here) {
        Some(plan) => {
            let change = handles(here, value, plan.unhandled)?;
            Ok(Some(change))
        }
        None => Ok(None),
    }
}

/// An exception leaves the body: before the initial `await_resume` was reached it goes on to the caller.
fn thrown_out<'u>(
    here: &Here<'_, 'u>,
    resumed: bool,
    value: Thrown,
) -> Result<Option<Change<'u>>, NoMemory>
    ensures { IfOk result (λ c. after c (local_of here.now) ≡ coroutines.guard_left resumed (meaning.Throwing value) (local_of here.now)) }
{
    if resumed {
        handled_by(here, value)
    } else {
        Ok(Some(here.leaves(Going::Throwing(value))))
    }
}

fn leaves<'u>(here: &Here<'_, 'u>, going: &Going) -> Result<Option<Change<'u>>, NoMemory>
    ensures { IfOk result (λ c. after c (local_of here.now) ≡ turn.leaves (going_of going.now) (local_of here.now)) }
{
    let going = copy_going(here.alloc, going)?;
    Ok(Some(here.leaves(going)))
}

/// The body is left. An exception is handled by `unhandled_exception` once the initial `await_resume` was reached.
pub fn guard_left<'u>(
    here: &Here<'_, 'u>,
    resumed: bool,
    going: &Going,
) -> Result<Option<Change<'u>>, NoMemory>
    ensures { IfOk result (λ c. after c (local_of here.now) ≡ coroutines.guard_left resumed (going_of going.now) (local_of here.now)) }
{
    match going {
        Going::Leaving => final_await(here),
        Going::Throwing(value) => thrown_out(here, resumed, *value),
        Going::Breaking | Going::Continuing | Going::Returning(_) | Going::Destroying => {
            leaves(here, going)
        }
    }
}

/// What stands around the body of a function that no exception may leave [except.spec].
fn border<'u>(here: &Here<'_, 'u>) -> Result<Vec<Frame<'u>>, NoMemory>
    ensures { IfOk result (λ frames. frames_of frames.items ≡ calls.border (coroutines.is_noexcept_in (turn.func_of (local_of here.now)))) }
{
    let frames = Vec::new(here.alloc);
    if is_noexcept(here) {
        above(frames, Step::Border, Node::Nothing)
    } else {
        Ok(frames)
    }
}

/// An exception out of `unhandled_exception` leaves the coroutine of this number at its final suspend point.
#[tactic(auto, using(co_eval_reads::proofs::Parts::slots_seen))]
fn escapes<'u>(here: &Here<'_, 'u>, coroutine: u64, value: Thrown) -> Result<Change<'u>, NoMemory>
    ensures { IfOk result (λ c. Some (turned_by c (local_of here.now)) ≡ coroutines.escapes coroutine value (local_of here.now)) }
{
    let slots = Items::from_slice(here.alloc, here.top.slots.as_slice())?;
    match border(here) {
        Ok(frames) => Ok(does(
            here,
            Effect::Escapes(coroutine, slots, frames),
            Task::Comes(Outcome::Goes(Going::Throwing(value))),
        )),
        Err(_) => Err(NoMemory),
    }
}

#[tactic(auto, using(co_eval_reads::proofs::Parts::coroutine_seen))]
fn escapes_from<'u>(here: &Here<'_, 'u>, value: Thrown) -> Result<Option<Change<'u>>, NoMemory>
    ensures { IfOk result (λ c. after c (local_of here.now) ≡ coroutines.escapes_from (local_of here.now).top.coroutine value (local_of here.now)) }
{
    match here.top.coroutine {
        Some(coroutine) => {
            let change = escapes(here, coroutine, value)?;
            Ok(Some(change))
        }
        None => Ok(None),
    }
}

/// `unhandled_exception` is left. An exception out of it leaves the coroutine at its final suspend point.
pub fn unhandled_left<'u>(
    here: &Here<'_, 'u>,
    going: &Going,
) -> Result<Option<Change<'u>>, NoMemory>
    ensures { IfOk result (λ c. after c (local_of here.now) ≡ coroutines.unhandled_left (going_of going.now) (local_of here.now)) }
{
    match going {
        Going::Throwing(value) => escapes_from(here, *value),
        Going::Breaking
        | Going::Continuing
        | Going::Returning(_)
        | Going::Leaving
        | Going::Destroying => leaves(here, going),
    }
}

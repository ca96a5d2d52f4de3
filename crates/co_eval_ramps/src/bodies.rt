ghost use Rattle.std.specs.Prelude.{◌≡◌, ◌+◌, false, [], ◌∷◌, None, Some, IfOk};
ghost use Rattle.co_eval_data.specs.Agents.{activation_of, local_of};
ghost use Rattle.co_eval_data.specs.Changed.{after, turned_by};
ghost use Rattle.co_eval_data.specs.Seen.{frame_of, frame_with, frames_of, hold_of};
ghost use Rattle.co_eval_data.specs.declared.frames.Node.TheVariants as node;
ghost use Rattle.co_meaning_calls.specs.Calls as calls;
ghost use Rattle.co_meaning_calls.specs.Coroutines as coroutines;
ghost use Rattle.co_meaning_data.specs.Frames as frames;
ghost use Rattle.co_meaning_data.specs.Turn as turn;

use co_base::NoMemory;
use co_core_tree::{AwaitPlan, PromisePlan};
use co_eval_data::{Activation, Change, Effect, Frame, Here, Hold, Kind, Node, Step, Task};
use co_eval_fulls::{Opening, open_await};
use co_eval_reads::{is_noexcept, plan};
use sqlite_items::Items;
use std::alloc::Global;

/// The frames with one more that has no node, above them.
#[tactic(auto, using(crate::proofs::OnTop::one_more))]
fn above<'u>(mut frames: Vec<Frame<'u>>, step: Step) -> Result<Vec<Frame<'u>>, NoMemory>
    ensures { IfOk result (λ more. frames_of more.items ≡ frame_with step node.Nothing ∷ frames_of frames.entry.items) }
{
    let node = Node::Nothing;
    frames.push(Frame { step, node })?;
    Ok(frames)
}

/// The border around the body, where no exception may leave the function [except.spec].
fn border_frames<'u>(here: &Here<'_, 'u>) -> Result<Vec<Frame<'u>>, NoMemory>
    ensures { IfOk result (λ list. frames_of list.items ≡ calls.border (coroutines.is_noexcept_in (turn.func_of (local_of here.now)))) }
{
    let list = Vec::new(here.alloc);
    if is_noexcept(here) {
        above(list, Step::Border)
    } else {
        Ok(list)
    }
}

/// The same coroutine, with the same copies and promise.
fn copy_hold(alloc: Global, hold: &Hold) -> Result<Hold, NoMemory>
    ensures { IfOk result (λ copied. copied ≡ hold.now) }
{
    let alive = Items::from_slice(alloc, hold.alive.as_slice())?;
    Ok(Hold {
        coroutine: hold.coroutine,
        block: hold.block,
        alive,
    })
}

/// What holds the copies and the promise, in the border.
fn held_frames<'u>(here: &Here<'_, 'u>, hold: &Hold) -> Result<Vec<Frame<'u>>, NoMemory>
    ensures { IfOk result (λ list. frames_of list.items ≡ frames.Holds (hold_of hold.now) ∷ calls.border (coroutines.is_noexcept_in (turn.func_of (local_of here.now)))) }
{
    let hold = copy_hold(here.alloc, hold)?;
    let list = border_frames(here)?;
    above(list, Step::Holds(hold))
}

/// What stands around the body of a coroutine, and the initial await, whose result is dropped.
fn body_frames<'u>(
    here: &Here<'_, 'u>,
    plan: &PromisePlan,
    hold: &Hold,
) -> Result<Vec<Frame<'u>>, NoMemory>
    ensures { IfOk result (λ list. frames_of list.items ≡ coroutines.body_frames plan.now.initial (hold_of hold.now) (local_of here.now)) }
{
    let held = held_frames(here, hold)?;
    let guarded = above(held, Step::Guards(false))?;
    let started = above(guarded, Step::Started)?;
    above(started, Step::Drops)
}

/// The activation of the body, which has the slots of the call.
#[tactic(auto, using(co_eval_reads::proofs::Parts::func_seen, co_eval_reads::proofs::Parts::slots_seen, co_eval_reads::proofs::Parts::coroutine_seen))]
fn body_of<'u>(
    here: &Here<'_, 'u>,
    plan: &PromisePlan,
    hold: &Hold,
) -> Result<Activation<'u>, NoMemory>
    ensures { IfOk result (λ a. activation_of a ≡ record { kind = frames.OfBody; func = (local_of here.now).top.func; slots = (local_of here.now).top.slots; coroutine = (local_of here.now).top.coroutine; into = None; frames = coroutines.body_frames plan.now.initial (hold_of hold.now) (local_of here.now) }) }
{
    let frames = body_frames(here, plan, hold)?;
    let slots = Items::from_slice(here.alloc, here.top.slots.as_slice())?;
    Ok(Activation {
        kind: Kind::OfBody,
        func: here.top.func,
        slots,
        coroutine: here.top.coroutine,
        into: None,
        frames,
    })
}

/// The return of the body is awaited.
fn done_frame<'u>(here: &Here<'_, 'u>) -> Result<Items<Frame<'u>>, NoMemory>
    ensures { IfOk result (λ fs. frames_of fs ≡ frames.RampDone ∷ []) }
{
    here.one(Step::RampDone, Node::Nothing)
}

/// The body begins with the initial await [dcl.fct.def.coroutine].
fn body_begins<'u>(
    here: &Here<'_, 'u>,
    plan: &PromisePlan,
    initial: &'u AwaitPlan,
    hold: &Hold,
) -> Result<Change<'u>, NoMemory>
    requires { initial.now ≡ plan.now.initial }
    ensures { IfOk result (λ c. Some (turned_by c (local_of here.now)) ≡ coroutines.body_begins plan.now (hold_of hold.now) (local_of here.now)) }
{
    let body = body_of(here, plan, hold)?;
    let left = done_frame(here)?;
    let objects = Items::new(here.alloc);
    let outer = Items::new(here.alloc);
    let inner = Items::new(here.alloc);
    let opening = Opening {
        effect: Effect::Enters(left, objects, body),
        outer,
        inner,
        task: Task::Awaits(initial, None),
    };
    open_await(here, initial, opening)
}

/// The same change, before which one more frame is taken away.
fn takes_more<'u>(mut change: Change<'u>) -> Result<Change<'u>, NoMemory>
    ensures { IfOk result (λ c. c ≡ record change.entry { taken = change.entry.taken + 1 }) }
{
    match change.taken.checked_add(1) {
        Some(taken) => {
            change.taken = taken;
            Ok(change)
        }
        None => Err(NoMemory),
    }
}

/// The body begins, where the frame on top is taken away.
#[tactic(auto, using(crate::proofs::Beneath::beneath))]
fn body_begins_beneath<'a, 'u>(
    here: &Here<'a, 'u>,
    plan: &'u PromisePlan,
    hold: &Hold,
    below: &'a [Frame<'u>],
) -> Result<Change<'u>, NoMemory>
    requires { (local_of here.now).top.frames ≡ frames.Holds (hold_of hold.now) ∷ frames_of below.now }
    ensures { IfOk result (λ c. Some (turned_by c (local_of here.now)) ≡ coroutines.body_begins plan.now (hold_of hold.now) (turn.with_frames (frames_of below.now) (local_of here.now))) }
{
    let beneath = Here {
        frames: below,
        ..*here
    };
    let change = body_begins(&beneath, plan, &plan.initial, hold)?;
    takes_more(change)
}

fn body_in<'a, 'u>(
    here: &Here<'a, 'u>,
    hold: &Hold,
    below: &'a [Frame<'u>],
) -> Result<Option<Change<'u>>, NoMemory>
    requires { (local_of here.now).top.frames ≡ frames.Holds (hold_of hold.now) ∷ frames_of below.now }
    ensures { IfOk result (λ c. after c (local_of here.now) ≡ coroutines.ramp_body_by (frames.Holds (hold_of hold.now) ∷ frames_of below.now) (local_of here.now) (coroutines.plan_of (local_of here.now))) }
{
    match plan(here) {
        Some(plan) => {
            let change = body_begins_beneath(here, plan, hold, below)?;
            Ok(Some(change))
        }
        None => Ok(None),
    }
}

#[tactic(auto, using(crate::proofs::Tops::no_hold_step))]
fn body_above<'a, 'u>(
    here: &Here<'a, 'u>,
    top: &Frame<'u>,
    below: &'a [Frame<'u>],
) -> Result<Option<Change<'u>>, NoMemory>
    requires { (local_of here.now).top.frames ≡ frame_of top.now ∷ frames_of below.now }
    ensures { IfOk result (λ c. after c (local_of here.now) ≡ coroutines.ramp_body_by (frame_of top.now ∷ frames_of below.now) (local_of here.now) (coroutines.plan_of (local_of here.now))) }
{
    match &top.step {
        Step::Holds(hold) => body_in(here, hold, below),
        _ => Ok(None),
    }
}

/// The result is made, and the body begins with the initial await [dcl.fct.def.coroutine].
#[tactic(auto, using(crate::proofs::OnTop::seen_on_top, co_eval_reads::proofs::Parts::frames_seen))]
pub fn ramp_body<'u>(here: &Here<'_, 'u>) -> Result<Option<Change<'u>>, NoMemory>
    ensures { IfOk result (λ c. after c (local_of here.now) ≡ coroutines.ramp_body (local_of here.now)) }
{
    match here.frames {
        [below @ .., top] => body_above(here, top, below),
        [] => Ok(None),
    }
}

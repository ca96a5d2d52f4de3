ghost use Rattle.std.specs.Prelude.{◌≡◌, ℕ, IfOk, None, Some};
ghost use Rattle.std.specs.Vec.{vec_len, vec_capacity};
ghost use Rattle.co_eval_data.specs.Changed.{or_same};
ghost use Rattle.co_eval_data.specs.Seen.{alive_of, frames_of, spot_of};
ghost use Rattle.co_meaning_calls.specs.Objects as objects;
ghost use Rattle.co_eval_commit.specs.Looked.{HoldsOwn, HoldsTemporaries, StandsInAwait, StandsInFrame, StandsInFull, stood_by};

use crate::looked::{Looked, Stand};
use crate::temporaries::{made_with, with_first};
use co_base::NoMemory;
use co_eval_data::{Alive, Frame, Hold, Node, Place, Spot, Step, Temporal};
use sqlite_items::Items;
use std::alloc::Global;
use std::mem::replace;

/// What becomes of the frames where an object comes to stand there.
pub fn at_spot(
    alloc: Global,
    frames: &[Frame<'_>],
    x: Alive,
    spot: Spot,
) -> Result<Option<Stand>, NoMemory>
    ensures { IfOk result (λ stand. frames_of (stood_by stand frames.now) ≡ or_same (frames_of frames.now) (objects.stands (spot_of spot) (alive_of x) (frames_of frames.now))) }
{
    match spot {
        Spot::InScope => in_scope(alloc, frames, x),
        Spot::InFull(slot) => in_full(alloc, frames, slot, x),
        Spot::InHold => in_hold(alloc, frames, x),
    }
}

/// What becomes of the frames where a local comes to stand in the innermost block [stmt.block].
pub fn in_scope(alloc: Global, frames: &[Frame<'_>], x: Alive) -> Result<Option<Stand>, NoMemory>
    ensures { IfOk result (λ stand. frames_of (stood_by stand frames.now) ≡ or_same (frames_of frames.now) (objects.into_scope (alive_of x) (frames_of frames.now))) }
{
    let Some(at) = Looked::Scope.innermost(frames) else {
        return Ok(None);
    };
    let Step::Scope(alive) = &frames[at].step else {
        return Ok(None);
    };
    let more = with_first(alloc, x, alive.as_slice())?;
    Ok(Some(Stand {
        at,
        step: Step::Scope(more),
    }))
}

/// What becomes of the frames where a parameter copy or the promise comes to stand [dcl.fct.def.coroutine].
pub fn in_hold(alloc: Global, frames: &[Frame<'_>], x: Alive) -> Result<Option<Stand>, NoMemory>
    ensures { IfOk result (λ stand. frames_of (stood_by stand frames.now) ≡ or_same (frames_of frames.now) (objects.into_hold (alive_of x) (frames_of frames.now))) }
{
    let Some(at) = Looked::Hold.innermost(frames) else {
        return Ok(None);
    };
    let Step::Holds(hold) = &frames[at].step else {
        return Ok(None);
    };
    let more = with_first(alloc, x, hold.alive.as_slice())?;
    Ok(Some(Stand {
        at,
        step: Step::Holds(Hold {
            coroutine: hold.coroutine,
            block: hold.block,
            alive: more,
        }),
    }))
}

/// What becomes of the frames where a temporary comes to stand in its full-expression, or in the call of `await_suspend` for
/// which it is made [class.temporary].
pub fn in_full(
    alloc: Global,
    frames: &[Frame<'_>],
    slot: u32,
    x: Alive,
) -> Result<Option<Stand>, NoMemory>
    ensures { IfOk result (λ stand. frames_of (stood_by stand frames.now) ≡ or_same (frames_of frames.now) (objects.into_full slot (alive_of x) (frames_of frames.now))) }
{
    let Some(at) = Looked::Temporaries.innermost(frames) else {
        return Ok(None);
    };
    in_frame(alloc, at, &frames[at], slot, x)
}

/// The same, where that is this frame of a number.
fn in_frame(
    alloc: Global,
    at: usize,
    frame: &Frame<'_>,
    slot: u32,
    x: Alive,
) -> Result<Option<Stand>, NoMemory>
    ensures { IfOk result (λ stand. StandsInFrame at frame.now slot x stand) }
{
    match &frame.step {
        Step::Full(temporaries) => among_temporaries(alloc, at, temporaries, slot, x),
        Step::AwaitSuspend(into, own) => in_await(alloc, at, &frame.node, into, own, x),
        _ => Ok(None),
    }
}

/// The same, where that is a frame of a number that calls `await_suspend`, of this part of the program.
fn in_await(
    alloc: Global,
    at: usize,
    node: &Node<'_>,
    into: &Option<Place>,
    own: &Items<u64>,
    x: Alive,
) -> Result<Option<Stand>, NoMemory>
    ensures { IfOk result (λ stand. (slot : ℕ) → StandsInAwait at node.now into.now own.now slot x stand) }
{
    match node {
        Node::Await(_) => among_own(alloc, at, into, own, x),
        _ => Ok(None),
    }
}

/// The same, where that is the full-expression of a number, with these temporaries.
fn among_temporaries(
    alloc: Global,
    at: usize,
    temporaries: &Items<Temporal>,
    slot: u32,
    x: Alive,
) -> Result<Option<Stand>, NoMemory>
    ensures { IfOk result (λ stand. StandsInFull at (HoldsTemporaries temporaries.now) slot x stand) }
{
    match made_with(alloc, temporaries, slot, x)? {
        Some(made) => Ok(Some(Stand {
            at,
            step: Step::Full(made),
        })),
        None => Ok(None),
    }
}

/// The same, where that is the call of `await_suspend` of a number, with these temporaries of its agent's own.
fn among_own(
    alloc: Global,
    at: usize,
    into: &Option<Place>,
    own: &Items<u64>,
    x: Alive,
) -> Result<Option<Stand>, NoMemory>
    ensures { IfOk result (λ stand. (slot : ℕ) → StandsInFull at (HoldsOwn into.now own.now) slot x stand) }
{
    match x.coroutine {
        Some(_) => Ok(None),
        None => with_own(alloc, at, into, own, x),
    }
}

/// The same of a temporary whose birth is not seen.
fn with_own(
    alloc: Global,
    at: usize,
    into: &Option<Place>,
    own: &Items<u64>,
    x: Alive,
) -> Result<Option<Stand>, NoMemory>
    requires { x.coroutine ≡ None }
    ensures { IfOk result (λ stand. (slot : ℕ) → StandsInFull at (HoldsOwn into.now own.now) slot x stand) }
{
    let more = with_first(alloc, x.object, own.as_slice())?;
    let into = copy_place_if(alloc, into)?;
    Ok(Some(Stand {
        at,
        step: Step::AwaitSuspend(into, more),
    }))
}

/// The same place, where there is one.
fn copy_place_if(alloc: Global, place: &Option<Place>) -> Result<Option<Place>, NoMemory>
    ensures { IfOk result (λ copied. copied ≡ place.now) }
{
    match place {
        Some(place) => Ok(Some(place.copy(alloc)?)),
        None => Ok(None),
    }
}

/// The frame does this in place of what it did, where it is there.
pub fn restep(frames: &mut Vec<Frame<'_>>, stand: Stand)
    ensures items { frames.new.items ≡ stood_by (Some stand) frames.old.items }
    ensures len { vec_len frames.new ≡ vec_len frames.old }
    ensures capacity { vec_capacity frames.new ≡ vec_capacity frames.old }
{
    let Stand { at, step } = stand;
    match frames.get_mut(at) {
        Some(frame) => set_step(frame, step),
        None => {
            let _unused = step;
        }
    }
}

/// The frame does this in place of what it did.
fn set_step(frame: &mut Frame<'_>, step: Step)
    ensures { frame.new ≡ record frame.old { step = step } }
{
    let _was = replace(&mut frame.step, step);
}

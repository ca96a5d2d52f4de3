ghost use Rattle.std.specs.Prelude.{◌≡◌, Some, None, is_some, map, IfOk};
ghost use Rattle.co_eval_data.specs.Agents.{local_of, task_of};
ghost use Rattle.co_eval_data.specs.Changed.{after, lived, turned_by};
ghost use Rattle.co_eval_data.specs.Seen.{alive_of, frame_of, frames_of, outcome_of, spot_of, temporal_of};
ghost use Rattle.co_eval_parts.specs.Rooms as rooms;
ghost use Rattle.co_meaning.specs.Expressions as expressions;
ghost use Rattle.co_meaning_calls.specs.Objects as objects;
ghost use Rattle.co_meaning_data.specs.Frames as meaning;
ghost use Rattle.co_meaning_data.specs.Store as store;
ghost use Rattle.co_meaning_data.specs.Turn as turn;
ghost use Rattle.co_meaning_data.specs.declared.events.Event.TheVariants as event;

use crate::frames::does;
use co_base::NoMemory;
use co_eval_data::{
    Alive, Change, Effect, Frame, Given, Here, Node, Outcome, Place, Spot, Step, Task, Temporal,
};

/// A frame, as far as objects that are alive stand in it.
#[derive(Clone, Copy)]
enum Stand<'a> {
    Scope,
    Full(&'a [Temporal]),
    /// The call of `await_suspend`.
    Suspension,
    Hold,
    Nowhere,
}

fn node_stand(node: Node<'_>) -> Stand<'static>
    ensures { rooms.stand_of result ≡ rooms.node_stand node.entry }
{
    match node {
        Node::Await(_) => Stand::Suspension,
        Node::Nothing
        | Node::Expr(_)
        | Node::Init(_)
        | Node::Stmt(_)
        | Node::Inits(..)
        | Node::Stmts(..)
        | Node::Copies(..)
        | Node::Handler(..)
        | Node::Func(..) => Stand::Nowhere,
    }
}

fn step_stand<'a>(step: &'a Step, node: Node<'_>) -> Stand<'a>
    ensures { rooms.stand_of result ≡ rooms.step_stand step.now node.entry }
{
    match step {
        Step::Scope(_) => Stand::Scope,
        Step::Full(temporaries) => Stand::Full(temporaries.as_slice()),
        Step::AwaitSuspend(..) => node_stand(node),
        Step::Holds(_) => Stand::Hold,
        _ => Stand::Nowhere,
    }
}

#[tactic(auto, using(crate::proofs::Rooms::step_stands))]
fn frame_stand<'a>(frame: &'a Frame<'_>) -> Stand<'a>
    ensures { rooms.stand_of result ≡ rooms.stand (frame_of frame.now) }
{
    step_stand(&frame.step, frame.node)
}

fn has_no_object(temporary: &Temporal) -> bool
    ensures { result ≡ rooms.no_object (temporal_of temporary.now) }
{
    match temporary.object {
        None => true,
        Some(_) => false,
    }
}

fn is_unseen(x: Alive) -> bool
    ensures { result ≡ rooms.is_none (alive_of x).coroutine }
{
    match x.coroutine {
        None => true,
        Some(_) => false,
    }
}

/// Whether a temporary of this slot is among these and not made yet.
#[tactic(auto, using(crate::proofs::Searched::unmade_on, crate::proofs::Searched::unmade_found, crate::proofs::Searched::unmade_none))]
fn is_unmade(slot: u32, temporaries: &[Temporal]) -> bool
    ensures { result ≡ rooms.is_unmade slot (map temporal_of temporaries.now) }
{
    let mut rest = temporaries;
    while let [temporary, next @ ..] = rest {
        if temporary.slot == slot {
            return has_no_object(temporary);
        }
        rest = next;
    }
    false
}

fn room_in_full(slot: u32, x: Alive, stand: Stand<'_>) -> Option<bool>
    ensures { result ≡ rooms.room_in_full slot (alive_of x) (rooms.stand_of stand.entry) }
{
    match stand {
        Stand::Full(temporaries) => Some(is_unmade(slot, temporaries)),
        Stand::Suspension => Some(is_unseen(x)),
        Stand::Scope | Stand::Hold | Stand::Nowhere => None,
    }
}

fn room_in_scope(stand: Stand<'_>) -> Option<bool>
    ensures { result ≡ rooms.room_in_scope (rooms.stand_of stand.entry) }
{
    match stand {
        Stand::Scope => Some(true),
        Stand::Full(_) | Stand::Suspension | Stand::Hold | Stand::Nowhere => None,
    }
}

fn room_in_hold(stand: Stand<'_>) -> Option<bool>
    ensures { result ≡ rooms.room_in_hold (rooms.stand_of stand.entry) }
{
    match stand {
        Stand::Hold => Some(true),
        Stand::Scope | Stand::Full(_) | Stand::Suspension | Stand::Nowhere => None,
    }
}

/// Whether the object can stand in the frame, where the search for a place ends with it.
fn room(spot: Spot, x: Alive, frame: &Frame<'_>) -> Option<bool>
    ensures { result ≡ rooms.room (spot_of spot) (alive_of x) (rooms.stand (frame_of frame.now)) }
{
    let stand = frame_stand(frame);
    match spot {
        Spot::InScope => room_in_scope(stand),
        Spot::InFull(slot) => room_in_full(slot, x, stand),
        Spot::InHold => room_in_hold(stand),
    }
}

/// Whether there is a place for the object in the frames, of which the last is the innermost.
#[tactic(auto, using(crate::proofs::Searched::room_on, crate::proofs::Searched::room_found, crate::proofs::Searched::room_none))]
fn has_room(spot: Spot, x: Alive, frames: &[Frame<'_>]) -> bool
    ensures { result ≡ rooms.has_room (spot_of spot) (alive_of x) (frames_of frames.now) }
{
    let mut at = frames.len();
    while at > 0 {
        at -= 1;
        match room(spot, x, &frames[at]) {
            Some(is_there) => return is_there,
            None => {}
        }
    }
    false
}

#[tactic(auto, using(crate::proofs::Rooms::room_is_there), unfolding(co_eval_data::specs::Agents::local_of))]
fn has_room_here(here: &Here<'_, '_>, spot: Spot, x: Alive) -> bool
    ensures { result ≡ is_some (objects.stands (spot_of spot) (alive_of x) (local_of here.now).top.frames) }
{
    has_room(spot, x, here.frames)
}

/// An object whose birth is not seen is live, and stands in the frames.
#[tactic(auto, using(crate::proofs::Stood::stands_there, crate::proofs::Stood::stands_nowhere))]
fn lives_at<'u>(here: &Here<'_, 'u>, x: Alive, spot: Spot, outcome: Outcome) -> Option<Change<'u>>
    ensures { after result (local_of here.now) ≡ objects.stands_and_comes (alive_of x) (spot_of spot) (outcome_of outcome) (lived x.object (local_of here.now)) }
{
    if has_room_here(here, spot, x) {
        Some(does(here, Effect::LivesAt(x, spot), Task::Comes(outcome)))
    } else {
        None
    }
}

/// An object is live, and its birth is seen next.
fn lives_unborn<'u>(here: &Here<'_, 'u>, x: Alive, spot: Spot, outcome: Outcome) -> Change<'u>
    ensures { Some (turned_by result (local_of here.now)) ≡ turn.goes (meaning.IsBorn (alive_of x) (spot_of spot) (outcome_of outcome)) (lived x.object (local_of here.now)) }
{
    does(
        here,
        Effect::Lives(x.object),
        Task::IsBorn(x, spot, outcome),
    )
}

/// An object is live from this step on, stands in the frames, and the outcome comes to the frame on top [basic.life].
pub fn lives<'u>(
    here: &Here<'_, 'u>,
    x: Alive,
    spot: Spot,
    outcome: Outcome,
) -> Result<Option<Change<'u>>, NoMemory>
    ensures { IfOk result (λ c. after c (local_of here.now) ≡ objects.lives (alive_of x) (spot_of spot) (outcome_of outcome) (local_of here.now)) }
{
    match x.coroutine {
        None => Ok(lives_at(here, x, spot, outcome)),
        Some(_) => Ok(Some(lives_unborn(here, x, spot, outcome))),
    }
}

/// The event of a birth in a coroutine, after which the object stands in the frames.
#[tactic(auto, using(crate::proofs::Stood::stands_there, crate::proofs::Stood::stands_nowhere))]
fn born_at<'u>(
    here: &Here<'_, 'u>,
    coroutine: u64,
    x: Alive,
    spot: Spot,
    outcome: Outcome,
) -> Option<Change<'u>>
    ensures { after result (local_of here.now) ≡ objects.stands_and_comes (alive_of x) (spot_of spot) (outcome_of outcome) (turn.happens (event.Born coroutine x.object) (local_of here.now)) }
{
    if has_room_here(here, spot, x) {
        Some(does(
            here,
            Effect::IsBorn(coroutine, x, spot),
            Task::Comes(outcome),
        ))
    } else {
        None
    }
}

/// The event of a birth.
pub fn is_born<'u>(
    here: &Here<'_, 'u>,
    x: Alive,
    spot: Spot,
    outcome: Outcome,
) -> Result<Option<Change<'u>>, NoMemory>
    ensures { IfOk result (λ c. after c (local_of here.now) ≡ objects.is_born (alive_of x) (spot_of spot) (outcome_of outcome) (local_of here.now)) }
{
    match x.coroutine {
        None => Ok(None),
        Some(coroutine) => Ok(born_at(here, coroutine, x, spot, outcome)),
    }
}

/// The place of a temporary comes.
fn comes_made<'u>(here: &Here<'_, 'u>, x: Alive) -> Task<'u>
    ensures { task_of result ≡ meaning.Comes (meaning.Gives (meaning.At (store.whole x.object))) }
{
    let place = Place::whole(here.alloc, x.object);
    Task::Comes(Outcome::Gives(Given::At(place)))
}

/// A temporary whose birth is not seen is live, and stands in its full-expression.
#[tactic(auto, using(crate::proofs::Stood::made_there, crate::proofs::Stood::made_nowhere))]
fn made_at<'u>(here: &Here<'_, 'u>, slot: u32, x: Alive) -> Option<Change<'u>>
    requires { x.coroutine ≡ None }
    ensures { after result (local_of here.now) ≡ objects.stands_and_comes (alive_of x) (meaning.InFull slot) (meaning.Gives (meaning.At (store.whole x.object))) (lived x.object (turn.with_frames (objects.set_mark slot (local_of here.now).top.frames) (local_of here.now))) }
{
    if has_room_here(here, Spot::InFull(slot), x) {
        Some(does(here, Effect::LivesInFull(slot, x), comes_made(here, x)))
    } else {
        None
    }
}

/// A temporary is live, and its birth is seen next.
fn made_unborn<'u>(here: &Here<'_, 'u>, slot: u32, x: Alive, coroutine: u64) -> Change<'u>
    requires { x.coroutine ≡ Some coroutine }
    ensures { Some (turned_by result (local_of here.now)) ≡ expressions.temporary_made slot (alive_of x) (local_of here.now) }
{
    let place = Place::whole(here.alloc, x.object);
    does(
        here,
        Effect::LivesInFull(slot, x),
        Task::IsBorn(x, Spot::InFull(slot), Outcome::Gives(Given::At(place))),
    )
}

/// A temporary is live, and its mark is set in the same step [class.temporary].
pub fn temporary_made<'u>(
    here: &Here<'_, 'u>,
    slot: u32,
    x: Alive,
) -> Result<Option<Change<'u>>, NoMemory>
    ensures { IfOk result (λ c. after c (local_of here.now) ≡ expressions.temporary_made slot (alive_of x) (local_of here.now)) }
{
    match x.coroutine {
        None => Ok(made_at(here, slot, x)),
        Some(coroutine) => Ok(Some(made_unborn(here, slot, x, coroutine))),
    }
}

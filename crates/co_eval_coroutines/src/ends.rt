ghost use Rattle.std.specs.Prelude.{◌≡◌, ◌∷◌, ◌/◌, [], Some, IfOk};
ghost use Rattle.co_eval_data.specs.Agents.{local_of};
ghost use Rattle.co_eval_data.specs.Changed.{after, turned_by};
ghost use Rattle.co_eval_data.specs.Seen.{frames_of, going_of, hold_of, outcome_of};
ghost use Rattle.co_meaning_calls.specs.Coroutines as coroutines;
ghost use Rattle.co_meaning_calls.specs.Objects as objects;
ghost use Rattle.co_meaning_data.specs.Frames as meaning;
ghost use Rattle.co_meaning_data.specs.Turn as turn;
ghost use Rattle.co_meaning_data.specs.declared.events.Event.TheVariants as event;

use crate::frames::does;
use co_base::NoMemory;
use co_core_tree::GivePlan;
use co_eval_data::{Change, Effect, Frame, Going, Here, Hold, Node, Outcome, Step, Task, with};
use co_eval_parts::{copy_outcome, endings};
use co_eval_reads::{frame_bytes, func_span, plan};
use co_meaning_data::Event;
use sqlite_items::Items;

/// What is left to be done where a coroutine ends: the ends of its promise and its copies, after which it is over.
fn end_frames<'u>(
    here: &Here<'_, 'u>,
    hold: &Hold,
    outcome: Outcome,
) -> Result<Items<Frame<'u>>, NoMemory>
    ensures { IfOk result (λ fs. frames_of fs ≡ meaning.Ends (objects.endings (hold_of hold.now).alive) meaning.Passes ∷ meaning.Closes hold.now.coroutine hold.now.block (outcome_of outcome) ∷ []) }
{
    let closing = Step::Closes(hold.coroutine, hold.block, outcome);
    let frames = here.one(closing, Node::Nothing)?;
    match endings(here.alloc, hold.alive.as_slice()) {
        Ok(list) => with(frames, Step::Ends(list, Outcome::Passes), Node::Nothing),
        Err(_) => Err(NoMemory),
    }
}

/// The promise dies, then the copies, the last first; then the coroutine ends.
pub fn hold_left<'u>(
    here: &Here<'_, 'u>,
    hold: &Hold,
    outcome: Outcome,
) -> Result<Change<'u>, NoMemory>
    ensures { IfOk result (λ c. Some (turned_by c (local_of here.now)) ≡ coroutines.hold_left (hold_of hold.now) (outcome_of outcome) (local_of here.now)) }
{
    let frames = end_frames(here, hold, outcome)?;
    Ok(here.above(frames, Task::Comes(Outcome::Passes)))
}

/// What comes after the end of a coroutine that was left: an exception goes on, and else control returns.
pub fn after_end(going: &Going) -> Outcome
    ensures { outcome_of result ≡ coroutines.after_end (going_of going.now) }
{
    match going {
        Going::Throwing(value) => Outcome::Goes(Going::Throwing(*value)),
        _ => Outcome::Passes,
    }
}

/// The coroutine is over, and nothing stands in the block of its frame.
pub fn closes<'u>(
    here: &Here<'_, 'u>,
    coroutine: u64,
    block: u64,
    outcome: &Outcome,
) -> Result<Change<'u>, NoMemory>
    ensures { IfOk result (λ c. Some (turned_by c (local_of here.now)) ≡ coroutines.closes coroutine block (outcome_of outcome.now) (local_of here.now)) }
{
    let outcome = copy_outcome(here.alloc, outcome)?;
    Ok(does(
        here,
        Effect::Closes(coroutine, block),
        Task::HasEnded(coroutine, block, outcome),
    ))
}

/// The storage of the frame of the coroutine is released after the event of its end [dcl.fct.def.coroutine].
fn release_frame<'u>(
    here: &Here<'_, 'u>,
    coroutine: u64,
    block: u64,
    give: GivePlan,
    outcome: &Outcome,
) -> Result<Change<'u>, NoMemory>
    ensures { IfOk result (λ c. Some (turned_by c (local_of here.now)) ≡ turn.goes (meaning.Releases block (turn.frame_bytes (local_of here.now) / 8) give (outcome_of outcome.now) (coroutines.func_span (local_of here.now))) (turn.happens (event.Ended coroutine) (local_of here.now))) }
{
    let outcome = copy_outcome(here.alloc, outcome)?;
    let words = frame_bytes(here) / 8;
    let at = func_span(here);
    Ok(does(
        here,
        Effect::Happens(Event::Ended(coroutine)),
        Task::Releases(block, words, give, outcome, at),
    ))
}

/// The event of the end of a coroutine, before its storage is released.
pub fn has_ended<'u>(
    here: &Here<'_, 'u>,
    coroutine: u64,
    block: u64,
    outcome: &Outcome,
) -> Result<Option<Change<'u>>, NoMemory>
    ensures { IfOk result (λ c. after c (local_of here.now) ≡ coroutines.has_ended coroutine block (outcome_of outcome.now) (local_of here.now)) }
{
    match plan(here) {
        Some(plan) => {
            let change = release_frame(here, coroutine, block, plan.give, outcome)?;
            Ok(Some(change))
        }
        None => Ok(None),
    }
}

ghost use Rattle.std.specs.Prelude.{◌≡◌, suc, length, [], ◌∷◌, Some, IfOk};
ghost use Rattle.co_eval_data.specs.Agents.{local_of};
ghost use Rattle.co_eval_data.specs.Changed.{turned_by};
ghost use Rattle.co_eval_data.specs.Seen.{copies_in, frames_of, hold_of};
ghost use Rattle.co_meaning_calls.specs.Coroutines as coroutines;
ghost use Rattle.co_meaning_data.specs.Frames as frames;
ghost use Rattle.co_meaning_data.specs.Undefined as undefined;

use co_base::NoMemory;
use co_eval_data::{Change, Effect, Frame, Here, Hold, Node, Outcome, Step, Task, with};
use co_eval_reads::{coroutine_at, plan};
use co_meaning_data::Event;
use sqlite_items::Items;

/// How many coroutines there are.
#[tactic(auto, using(crate::proofs::Numbers::coroutines_counted))]
fn coroutine_count(here: &Here<'_, '_>) -> u64
    ensures { result ≡ length (coroutines.coroutines (local_of here.now)) }
{
    here.shared.coroutines.len() as u64
}

/// The number that the next coroutine gets.
fn next_coroutine(here: &Here<'_, '_>) -> Result<u64, NoMemory>
    ensures { IfOk result (λ n. n ≡ suc (length (coroutines.coroutines (local_of here.now)))) }
{
    match coroutine_count(here).checked_add(1) {
        Some(next) => Ok(next),
        None => Err(NoMemory),
    }
}

/// The coroutine gets the next number, and its frame stands in the block from now on.
pub fn draws<'u>(here: &Here<'_, 'u>, block: u64) -> Result<Change<'u>, NoMemory>
    ensures { IfOk result (λ c. Some (turned_by c (local_of here.now)) ≡ coroutines.draws block (local_of here.now)) }
{
    let number = next_coroutine(here)?;
    let none = Items::new(here.alloc);
    Ok(here.makes(Effect::Draws(block), none, Task::IsMade(number)))
}

/// The block of the frame of the coroutine.
fn block_of(here: &Here<'_, '_>, coroutine: u64) -> u64
    ensures { result ≡ coroutines.block_of (undefined.numbered (coroutines.coroutines (local_of here.now)) coroutine) }
{
    match coroutine_at(here, coroutine) {
        Some(coroutine) => coroutine.block,
        None => 0,
    }
}

/// What holds the copies and the promise of the coroutine, none of which is alive yet.
fn new_hold(here: &Here<'_, '_>, coroutine: u64) -> Hold
    ensures { hold_of result ≡ coroutines.hold_of coroutine (local_of here.now) }
{
    Hold {
        coroutine,
        block: block_of(here, coroutine),
        alive: Items::new(here.alloc),
    }
}

/// The copies of the parameters, all of which are still to be made.
fn all_copies<'u>(here: &Here<'_, 'u>) -> Node<'u>
    ensures { copies_in result ≡ coroutines.copies_in (coroutines.plan_of (local_of here.now)) }
{
    match plan(here) {
        Some(plan) => Node::Copies(&plan.copies, 0),
        None => Node::Nothing,
    }
}

/// The copies follow, in what holds them.
fn holding_frames<'u>(here: &Here<'_, 'u>, coroutine: u64) -> Result<Items<Frame<'u>>, NoMemory>
    ensures { IfOk result (λ fs. frames_of fs ≡ frames.RampCopies (coroutines.copies_in (coroutines.plan_of (local_of here.now))) ∷ frames.Holds (coroutines.hold_of coroutine (local_of here.now)) ∷ []) }
{
    let hold = new_hold(here, coroutine);
    let one = here.one(Step::Holds(hold), Node::Nothing)?;
    with(one, Step::RampCopies, all_copies(here))
}

/// The event of the making of the coroutine of this number; the copies of its parameters follow.
pub fn is_made<'u>(here: &Here<'_, 'u>, coroutine: u64) -> Result<Change<'u>, NoMemory>
    ensures { IfOk result (λ c. Some (turned_by c (local_of here.now)) ≡ coroutines.is_made coroutine (local_of here.now)) }
{
    let frames = holding_frames(here, coroutine)?;
    Ok(here.makes(
        Effect::Happens(Event::Made(coroutine)),
        frames,
        Task::Comes(Outcome::Passes),
    ))
}

ghost use Rattle.std.specs.Prelude.{◌≡◌, List, MatchResult};
ghost use Rattle.co_eval_data.specs.Changed as changed;
ghost use Rattle.co_meaning_data.specs.Frames as meaning;
ghost use Rattle.co_meaning_data.specs.Turn.{Local};
ghost use Rattle.co_eval_commit.specs.InPlace.{IsQuiet, event_of, noted, sees};

use crate::blocks::release;
use crate::handled::{catches, forget_newest, handles};
use crate::objects::{end_object, make_live, write_cell};
use crate::shares::{adds_block, adds_in, closes, fills, posts};
use crate::slotted::{adds, adds_promise, draws};
use co_base::{NoMemory, Thrown};
use co_eval_data::{Activation, Effect, Shared};
use std::alloc::Global;

/// Makes an effect in place that leaves the frames and the activations of its agent as they are; one that does not is none of its
/// effects, and is left undone. Where memory runs out nothing has changed.
pub fn make_quiet<'u>(
    alloc: Global,
    worker: u32,
    shared: &mut Shared<'u>,
    handled: &mut Vec<Thrown>,
    top: &mut Activation<'u>,
    effect: Effect<'u>,
) -> Result<(), NoMemory>
    ensures made { (l : Local) (fs : List meaning.Frame) → IsQuiet effect.entry → MatchResult result (λ _. sees worker shared.new handled.new.items top.new fs (noted (event_of worker effect.entry) l) ≡ changed.effected effect.entry (sees worker shared.old handled.old.items top.old fs l)) (λ _. sees worker shared.new handled.new.items top.new fs l ≡ sees worker shared.old handled.old.items top.old fs l) }
    ensures frames { top.new.frames ≡ top.old.frames }
{
    let _ = worker;
    match effect {
        Effect::IsUndefined(..) => {
            shared.undefined = true;
            Ok(())
        }
        Effect::Adds(slot, object) => adds(shared, top, slot, object),
        Effect::AddsPromise(slot, object) => adds_promise(shared, top, slot, object),
        Effect::AddsIn(block, object) => adds_in(shared, block, object),
        Effect::Lives(object) => {
            make_live(&mut shared.store, object);
            Ok(())
        }
        Effect::Ends(object) => {
            end_object(&mut shared.store, object);
            Ok(())
        }
        Effect::Writes(object, at, value) => {
            write_cell(&mut shared.store, object, at, value);
            Ok(())
        }
        Effect::Fills(object, from, count, cell) => fills(alloc, shared, object, from, count, cell),
        Effect::AddsBlock(words) => adds_block(shared, words),
        Effect::Releases(block) => {
            release(&mut shared.store, block);
            Ok(())
        }
        Effect::Draws(block) => draws(shared, top, block),
        Effect::Closes(number, block) => {
            closes(shared, number, block);
            Ok(())
        }
        Effect::Posts(value) => posts(shared, value),
        Effect::Handles(value) => handles(handled, value),
        Effect::Catches(value, slot, object) => catches(shared, handled, top, value, slot, object),
        Effect::HandlesNoMore => {
            forget_newest(handled);
            Ok(())
        }
        Effect::RestsAfterMain(value) => {
            shared.main = value;
            Ok(())
        }
        Effect::Nothing | Effect::Happens(_) | Effect::IsUncaught(_) | Effect::Rests => Ok(()),
        Effect::LivesAt(..)
        | Effect::LivesInFull(..)
        | Effect::Stands(..)
        | Effect::IsBorn(..)
        | Effect::FieldMade
        | Effect::Reached
        | Effect::Enters(..)
        | Effect::Returns
        | Effect::Wakes(..)
        | Effect::Suspends(..)
        | Effect::Escapes(..) => Ok(()),
    }
}

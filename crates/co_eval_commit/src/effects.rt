ghost use Rattle.std.specs.Prelude.{◌≡◌, ◌+◌, ◌<◌, ◌≤◌, List, take, MatchResult, OnOk};
ghost use Rattle.std.specs.Vec.{vec_len, vec_capacity};
ghost use Rattle.co_eval_data.specs.Changed as changed;
ghost use Rattle.co_eval_data.specs.Seen.{frames_of};
ghost use Rattle.co_eval_data.specs.declared.agents.Activation.{Activation as SeenActivation};
ghost use Rattle.co_meaning_data.specs.Turn.{Local};
ghost use Rattle.co_eval_commit.specs.InPlace.{IsQuiet, event_of, noted, sees_all};

use crate::activations::{enter, escape, return_below, suspend};
use crate::framed::{field_made_in, live_at, live_in_full, reached_in, stand_in};
use crate::quiet::make_quiet;
use crate::waking::wake;
use co_base::{NoMemory, Thrown};
use co_eval_data::{Activation, Effect, Shared};
use std::alloc::Global;

/// Makes an effect in place, where so many frames are left of the newest activation before. There is room for so many more frames
/// in the newest activation after it. Where memory runs out nothing has changed.
pub fn make<'u>(
    alloc: Global,
    worker: u32,
    shared: &mut Shared<'u>,
    handled: &mut Vec<Thrown>,
    top: &mut Activation<'u>,
    below: &mut Vec<Activation<'u>>,
    left: usize,
    more: usize,
    effect: Effect<'u>,
) -> Result<(), NoMemory>
    requires left { left ≤ vec_len top.old.frames }
    requires room { vec_len top.old.frames + more ≤ vec_capacity top.old.frames }
    requires below { vec_len below.old + 1 < vec_capacity below.old }
    ensures made { (l : Local) → MatchResult result (λ _. sees_all worker shared.new handled.new.items top.new (frames_of top.new.frames.items) below.new.items (noted (event_of worker effect.entry) l) ≡ changed.effected effect.entry (sees_all worker shared.old handled.old.items top.old (frames_of (take left top.old.frames.items)) below.old.items l)) (λ _. sees_all worker shared.new handled.new.items top.new (frames_of top.new.frames.items) below.new.items l ≡ sees_all worker shared.old handled.old.items top.old (frames_of top.old.frames.items) below.old.items l) }
    ensures room { OnOk result (vec_len top.new.frames + more ≤ vec_capacity top.new.frames) }
    ensures below { vec_len below.new < vec_capacity below.new }
{
    match effect {
        Effect::LivesAt(x, spot) => live_at(alloc, shared, top, left, x, spot),
        Effect::LivesInFull(slot, x) => live_in_full(alloc, shared, top, left, slot, x),
        Effect::Stands(x, spot) => stand_in(alloc, top, left, x, spot),
        Effect::IsBorn(_, x, spot) => stand_in(alloc, top, left, x, spot),
        Effect::FieldMade => field_made_in(top, left),
        Effect::Reached => {
            reached_in(top, left);
            Ok(())
        }
        Effect::Enters(frames, objects, entered) => {
            enter(shared, top, below, left, more, frames, objects, entered)
        }
        Effect::Returns => return_below(shared, top, below, left, more),
        Effect::Wakes(number, kind, place) => {
            wake(alloc, shared, top, below, left, more, number, kind, place)
        }
        Effect::Suspends(number, point, frames, parked) => {
            suspend(shared, top, left, more, number, point, frames, parked)
        }
        Effect::Escapes(number, slots, frames) => {
            escape(shared, top, left, more, number, slots, frames)
        }
        effect => make_quiet_and_cut(alloc, worker, shared, handled, top, left, effect),
    }
}

/// The same of an effect that leaves the frames and the activations as they are.
fn make_quiet_and_cut<'u>(
    alloc: Global,
    worker: u32,
    shared: &mut Shared<'u>,
    handled: &mut Vec<Thrown>,
    top: &mut Activation<'u>,
    left: usize,
    effect: Effect<'u>,
) -> Result<(), NoMemory>
    requires quiet { IsQuiet effect }
    requires left { left ≤ vec_len top.old.frames }
    ensures made { (below : List SeenActivation) (l : Local) → MatchResult result (λ _. sees_all worker shared.new handled.new.items top.new (frames_of top.new.frames.items) below (noted (event_of worker effect.entry) l) ≡ changed.effected effect.entry (sees_all worker shared.old handled.old.items top.old (frames_of (take left top.old.frames.items)) below l)) (λ _. sees_all worker shared.new handled.new.items top.new (frames_of top.new.frames.items) below l ≡ sees_all worker shared.old handled.old.items top.old (frames_of top.old.frames.items) below l) }
    ensures len { vec_len top.new.frames ≤ vec_len top.old.frames }
    ensures capacity { vec_capacity top.new.frames ≡ vec_capacity top.old.frames }
{
    match make_quiet(alloc, worker, shared, handled, top, effect) {
        Ok(()) => {
            top.frames.truncate(left);
            Ok(())
        }
        Err(_) => Err(NoMemory),
    }
}

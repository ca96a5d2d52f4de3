ghost use Rattle.std.specs.Prelude.{◌≡◌, ◌≤◌, take, MatchResult, OnErr, OnOk};
ghost use Rattle.std.specs.Vec.{vec_len, vec_capacity};
ghost use Rattle.co_eval_data.specs.Changed as changed;
ghost use Rattle.co_eval_data.specs.Changed.{or_same};
ghost use Rattle.co_eval_data.specs.Seen.{alive_of, frames_of, spot_of};
ghost use Rattle.co_eval_data.specs.declared.changes.Effect.TheVariants as effect;
ghost use Rattle.co_meaning_calls.specs.Objects as objects;
ghost use Rattle.co_meaning_data.specs.Turn.{Local};
ghost use Rattle.co_eval_commit.specs.InPlace.{seeing, topped};
ghost use Rattle.co_eval_commit.specs.Looked.{unseen_stood};

use crate::fields::make_field;
use crate::frames::first;
use crate::marks::{reach, set_mark};
use crate::objects::make_live;
use crate::stands::{at_spot, restep};
use co_base::NoMemory;
use co_eval_data::{Activation, Alive, Frame, Shared, Spot};
use std::alloc::Global;

/// Of the frames so many are left, and the object stands there in them. Where memory runs out nothing has changed.
fn stand(
    alloc: Global,
    frames: &mut Vec<Frame<'_>>,
    left: usize,
    x: Alive,
    spot: Spot,
) -> Result<(), NoMemory>
    requires { left ≤ vec_len frames.old }
    ensures ok { OnOk result (frames_of frames.new.items ≡ or_same (frames_of (take left frames.old.items)) (objects.stands (spot_of spot) (alive_of x) (frames_of (take left frames.old.items)))) }
    ensures err { OnErr result (frames.new.items ≡ frames.old.items) }
    ensures len { vec_len frames.new ≤ vec_len frames.old }
    ensures capacity { vec_capacity frames.new ≡ vec_capacity frames.old }
{
    let stand = at_spot(alloc, first(frames.as_slice(), left), x, spot)?;
    frames.truncate(left);
    if let Some(stand) = stand {
        restep(frames, stand);
    }
    Ok(())
}

/// So many frames are left, and the object stands there in them. Where memory runs out nothing has changed.
pub fn stand_in(
    alloc: Global,
    top: &mut Activation<'_>,
    left: usize,
    x: Alive,
    spot: Spot,
) -> Result<(), NoMemory>
    requires { left ≤ vec_len top.old.frames }
    ensures made { (l m : Local) → MatchResult result (λ _. topped top.new (frames_of top.new.frames.items) l ≡ changed.stood (alive_of x) (spot_of spot) (topped top.old (frames_of (take left top.old.frames.items)) l)) (λ _. topped top.new (frames_of top.new.frames.items) m ≡ topped top.old (frames_of top.old.frames.items) m) }
    ensures len { vec_len top.new.frames ≤ vec_len top.old.frames }
    ensures capacity { vec_capacity top.new.frames ≡ vec_capacity top.old.frames }
{
    stand(alloc, &mut top.frames, left, x, spot)?;
    Ok(())
}

/// The object is live and stands there in the frames, of which so many are left [basic.life]. Where memory runs out nothing has
/// changed.
pub fn live_at(
    alloc: Global,
    shared: &mut Shared<'_>,
    top: &mut Activation<'_>,
    left: usize,
    x: Alive,
    spot: Spot,
) -> Result<(), NoMemory>
    requires { left ≤ vec_len top.old.frames }
    ensures made { (l : Local) → MatchResult result (λ _. seeing shared.new top.new (frames_of top.new.frames.items) l ≡ changed.effected (effect.LivesAt x spot) (seeing shared.old top.old (frames_of (take left top.old.frames.items)) l)) (λ _. seeing shared.new top.new (frames_of top.new.frames.items) l ≡ seeing shared.old top.old (frames_of top.old.frames.items) l) }
    ensures len { vec_len top.new.frames ≤ vec_len top.old.frames }
    ensures capacity { vec_capacity top.new.frames ≡ vec_capacity top.old.frames }
{
    stand(alloc, &mut top.frames, left, x, spot)?;
    make_live(&mut shared.store, x.object);
    Ok(())
}

/// The temporary of a slot is live and its mark is set in the frames, of which so many are left; where its birth is not seen it
/// stands in its full-expression [class.temporary]. Where memory runs out nothing has changed.
pub fn live_in_full(
    alloc: Global,
    shared: &mut Shared<'_>,
    top: &mut Activation<'_>,
    left: usize,
    slot: u32,
    x: Alive,
) -> Result<(), NoMemory>
    requires { left ≤ vec_len top.old.frames }
    ensures made { (l : Local) → MatchResult result (λ _. seeing shared.new top.new (frames_of top.new.frames.items) l ≡ changed.effected (effect.LivesInFull slot x) (seeing shared.old top.old (frames_of (take left top.old.frames.items)) l)) (λ _. seeing shared.new top.new (frames_of top.new.frames.items) l ≡ seeing shared.old top.old (frames_of top.old.frames.items) l) }
    ensures len { vec_len top.new.frames ≤ vec_len top.old.frames }
    ensures capacity { vec_capacity top.new.frames ≡ vec_capacity top.old.frames }
{
    stand_unseen(alloc, &mut top.frames, left, slot, x)?;
    set_mark(&mut top.frames, slot);
    make_live(&mut shared.store, x.object);
    Ok(())
}

/// Of the frames so many are left, and the temporary stands in its full-expression where its birth is not seen.
fn stand_unseen(
    alloc: Global,
    frames: &mut Vec<Frame<'_>>,
    left: usize,
    slot: u32,
    x: Alive,
) -> Result<(), NoMemory>
    requires { left ≤ vec_len frames.old }
    ensures ok { OnOk result (frames_of frames.new.items ≡ unseen_stood slot (alive_of x) (frames_of (take left frames.old.items)) x.coroutine) }
    ensures err { OnErr result (frames.new.items ≡ frames.old.items) }
    ensures len { vec_len frames.new ≤ vec_len frames.old }
    ensures capacity { vec_capacity frames.new ≡ vec_capacity frames.old }
{
    match x.coroutine {
        None => stand(alloc, frames, left, x, Spot::InFull(slot)),
        Some(_) => {
            frames.truncate(left);
            Ok(())
        }
    }
}

/// So many frames are left, in which one more field is made of the object that is made [class.base.init]. Where memory runs out
/// nothing has changed.
pub fn field_made_in(top: &mut Activation<'_>, left: usize) -> Result<(), NoMemory>
    requires { left ≤ vec_len top.old.frames }
    ensures made { (l : Local) → MatchResult result (λ _. topped top.new (frames_of top.new.frames.items) l ≡ changed.effected effect.FieldMade (topped top.old (frames_of (take left top.old.frames.items)) l)) (λ _. topped top.new (frames_of top.new.frames.items) l ≡ topped top.old (frames_of top.old.frames.items) l) }
    ensures len { vec_len top.new.frames ≤ vec_len top.old.frames }
    ensures capacity { vec_capacity top.new.frames ≡ vec_capacity top.old.frames }
{
    make_field(&mut top.frames, left)?;
    Ok(())
}

/// So many frames are left, in which the initial `await_resume` is reached.
pub fn reached_in(top: &mut Activation<'_>, left: usize)
    requires { left ≤ vec_len top.old.frames }
    ensures made { (l : Local) → topped top.new (frames_of top.new.frames.items) l ≡ changed.effected effect.Reached (topped top.old (frames_of (take left top.old.frames.items)) l) }
    ensures len { vec_len top.new.frames ≤ vec_len top.old.frames }
    ensures capacity { vec_capacity top.new.frames ≡ vec_capacity top.old.frames }
{
    top.frames.truncate(left);
    reach(&mut top.frames);
}

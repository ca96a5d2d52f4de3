ghost use Rattle.std.specs.Prelude.{◌≡◌, ◌+◌, ◌<◌, ◌≤◌, take, MatchResult, OnOk};
ghost use Rattle.std.specs.Vec.{vec_len, vec_capacity};
ghost use Rattle.co_eval_data.specs.Changed as changed;
ghost use Rattle.co_eval_data.specs.Seen.{frames_of};
ghost use Rattle.co_eval_data.specs.declared.changes.Effect.TheVariants as effect;
ghost use Rattle.co_meaning_data.specs.Turn.{Local};
ghost use Rattle.co_eval_commit.specs.InPlace.{seeing, seeing_all};

use crate::coroutines::{next_serial, set_condition, suspended_at};
use crate::frames::leave_on_top;
use crate::objects::add_objects;
use co_base::NoMemory;
use co_eval_data::{Activation, Condition, Continuation, Frame, Shared, StoredObject};
use sqlite_items::Items;
use std::mem::replace;

/// Control returns to the activation below, in whose frames there is room for so many more [stmt.return]. Where there is none, so
/// many frames are left of the newest one. Where memory runs out nothing has changed.
pub fn return_below<'u>(
    shared: &Shared<'u>,
    top: &mut Activation<'u>,
    below: &mut Vec<Activation<'u>>,
    left: usize,
    more: usize,
) -> Result<(), NoMemory>
    requires left { left ≤ vec_len top.old.frames }
    requires room { vec_len top.old.frames + more ≤ vec_capacity top.old.frames }
    requires below { vec_len below.old + 1 < vec_capacity below.old }
    ensures made { (l : Local) → MatchResult result (λ _. seeing_all shared.now top.new (frames_of top.new.frames.items) below.new.items l ≡ changed.effected effect.Returns (seeing_all shared.now top.old (frames_of (take left top.old.frames.items)) below.old.items l)) (λ _. seeing_all shared.now top.new (frames_of top.new.frames.items) below.new.items l ≡ seeing_all shared.now top.old (frames_of top.old.frames.items) below.old.items l) }
    ensures room { OnOk result (vec_len top.new.frames + more ≤ vec_capacity top.new.frames) }
    ensures below { vec_len below.new < vec_capacity below.new }
{
    let _ = shared;
    let Some(mut next) = below.pop() else {
        top.frames.truncate(left);
        return Ok(());
    };
    match next.frames.reserve(more) {
        Ok(()) => {
            *top = next;
            Ok(())
        }
        Err(_) => {
            below.push_reserved(next);
            Err(NoMemory)
        }
    }
}

/// So many of the frames are left and these on top of them, and an activation stands above the newest one, in whose frames there
/// is room for so many more. The objects of its parameters are new [expr.call]. Where memory runs out nothing has changed.
pub fn enter<'u>(
    shared: &mut Shared<'u>,
    top: &mut Activation<'u>,
    below: &mut Vec<Activation<'u>>,
    left: usize,
    more: usize,
    frames: Items<Frame<'u>>,
    objects: Items<StoredObject<'u>>,
    mut entered: Activation<'u>,
) -> Result<(), NoMemory>
    requires left { left ≤ vec_len top.old.frames }
    requires below { vec_len below.old + 1 < vec_capacity below.old }
    ensures made { (l : Local) → MatchResult result (λ _. seeing_all shared.new top.new (frames_of top.new.frames.items) below.new.items l ≡ changed.effected (effect.Enters frames.entry objects.entry entered.entry) (seeing_all shared.old top.old (frames_of (take left top.old.frames.items)) below.old.items l)) (λ _. seeing_all shared.new top.new (frames_of top.new.frames.items) below.new.items l ≡ seeing_all shared.old top.old (frames_of top.old.frames.items) below.old.items l) }
    ensures room { OnOk result (vec_len top.new.frames + more ≤ vec_capacity top.new.frames) }
    ensures below { vec_len below.new < vec_capacity below.new }
{
    entered.frames.reserve(more)?;
    top.frames.reserve(frames.len())?;
    shared.store.objects.reserve(objects.len())?;
    add_objects(&mut shared.store, objects);
    top.frames.truncate(left);
    leave_on_top(&mut top.frames, frames);
    below.push_reserved(replace(top, entered));
    Ok(())
}

/// The coroutine is suspended at the point, with these frames on top of those that are left to it, and the activation stands in the
/// place of its own, with room for so many more frames [expr.await]. Where memory runs out nothing has changed.
pub fn suspend<'u>(
    shared: &mut Shared<'u>,
    top: &mut Activation<'u>,
    left: usize,
    more: usize,
    number: u64,
    point: u32,
    frames: Items<Frame<'u>>,
    mut parked: Activation<'u>,
) -> Result<(), NoMemory>
    requires { left ≤ vec_len top.old.frames }
    ensures made { (l : Local) → MatchResult result (λ _. seeing shared.new top.new (frames_of top.new.frames.items) l ≡ changed.effected (effect.Suspends number point frames.entry parked.entry) (seeing shared.old top.old (frames_of (take left top.old.frames.items)) l)) (λ _. seeing shared.new top.new (frames_of top.new.frames.items) l ≡ seeing shared.old top.old (frames_of top.old.frames.items) l) }
    ensures room { OnOk result (vec_len top.new.frames + more ≤ vec_capacity top.new.frames) }
{
    let serial = next_serial(shared, number)?;
    parked.frames.reserve(more)?;
    top.frames.reserve(frames.len())?;
    let Activation {
        kind: _,
        func: _,
        slots,
        coroutine: _,
        into: _,
        frames: mut rest,
    } = replace(top, parked);
    rest.truncate(left);
    leave_on_top(&mut rest, frames);
    let rest = Continuation {
        slots,
        frames: rest,
    };
    set_condition(shared, number, suspended_at(point, serial, rest));
    Ok(())
}

/// The coroutine is left at its final suspend point by an exception: it keeps the slots and the frames that are left, in whose
/// place these stand, with room for so many more [dcl.fct.def.coroutine]. Where memory runs out nothing has changed.
pub fn escape<'u>(
    shared: &mut Shared<'u>,
    top: &mut Activation<'u>,
    left: usize,
    more: usize,
    number: u64,
    slots: Items<Option<u64>>,
    mut frames: Vec<Frame<'u>>,
) -> Result<(), NoMemory>
    requires { left ≤ vec_len top.old.frames }
    ensures made { (l : Local) → MatchResult result (λ _. seeing shared.new top.new (frames_of top.new.frames.items) l ≡ changed.effected (effect.Escapes number slots frames.entry) (seeing shared.old top.old (frames_of (take left top.old.frames.items)) l)) (λ _. seeing shared.new top.new (frames_of top.new.frames.items) l ≡ seeing shared.old top.old (frames_of top.old.frames.items) l) }
    ensures room { OnOk result (vec_len top.new.frames + more ≤ vec_capacity top.new.frames) }
{
    let serial = next_serial(shared, number)?;
    frames.reserve(more)?;
    let mut rest = replace(&mut top.frames, frames);
    rest.truncate(left);
    let rest = Continuation {
        slots,
        frames: rest,
    };
    set_condition(shared, number, Condition::Final(2, serial, rest));
    Ok(())
}

ghost use Rattle.std.specs.Prelude.{◌≡◌, ◌+◌, ◌<◌, ◌≤◌, [], take, Some, IfOk, IfSome, MatchResult, OnErr, OnOk};
ghost use Rattle.std.specs.Vec.{vec_len, vec_capacity};
ghost use Rattle.co_eval_data.specs.Agents as seen;
ghost use Rattle.co_eval_data.specs.Changed as changed;
ghost use Rattle.co_eval_data.specs.Seen.{frames_of};
ghost use Rattle.co_eval_data.specs.declared.changes.Effect.TheVariants as effect;
ghost use Rattle.co_eval_data.specs.declared.changes.Wake.{Wake as SeenWake};
ghost use Rattle.co_meaning_calls.specs.Coroutines as coroutines;
ghost use Rattle.co_meaning_data.specs.Frames as meaning;
ghost use Rattle.co_meaning_data.specs.Turn.{Local};
ghost use Rattle.co_eval_commit.specs.InPlace.{seeing_all, sharing};
ghost use Rattle.co_eval_commit.specs.Waking.{HasRoom, woken_as};

use crate::coroutines::{index_of, serial_of};
use co_base::NoMemory;
use co_eval_data::{Activation, Condition, Continuation, Coroutine, Kind, Shared, Wake};
use sqlite_items::Items;
use std::alloc::Global;
use std::mem::replace;

/// The suspended coroutine goes on: its activation, in whose frames there is room for so many more, stands above the newest one or
/// in its place [coroutine.handle.resumption]. Of the frames of the newest one so many are left. Where memory runs out nothing has
/// changed.
pub fn wake<'u>(
    alloc: Global,
    shared: &mut Shared<'u>,
    top: &mut Activation<'u>,
    below: &mut Vec<Activation<'u>>,
    left: usize,
    more: usize,
    number: u64,
    kind: Kind,
    place: Wake,
) -> Result<(), NoMemory>
    requires left { left ≤ vec_len top.old.frames }
    requires room { vec_len top.old.frames + more ≤ vec_capacity top.old.frames }
    requires below { vec_len below.old + 1 < vec_capacity below.old }
    ensures made { (l : Local) → MatchResult result (λ _. seeing_all shared.new top.new (frames_of top.new.frames.items) below.new.items l ≡ changed.effected (effect.Wakes number kind place) (seeing_all shared.old top.old (frames_of (take left top.old.frames.items)) below.old.items l)) (λ _. seeing_all shared.new top.new (frames_of top.new.frames.items) below.new.items l ≡ seeing_all shared.old top.old (frames_of top.old.frames.items) below.old.items l) }
    ensures room { OnOk result (vec_len top.new.frames + more ≤ vec_capacity top.new.frames) }
    ensures below { vec_len below.new < vec_capacity below.new }
{
    match take_woken(alloc, shared, number, kind, more) {
        Ok(woken) => {
            top.frames.truncate(left);
            match woken {
                Some(activation) => {
                    stand_as(top, below, activation, place);
                    Ok(())
                }
                None => Ok(()),
            }
        }
        Err(_) => Err(NoMemory),
    }
}

/// The activation stands above the newest one or in its place.
fn stand_as<'u>(
    top: &mut Activation<'u>,
    below: &mut Vec<Activation<'u>>,
    woken: Activation<'u>,
    place: Wake,
)
    requires { vec_len below.old + 1 < vec_capacity below.old }
    ensures made { (shared : Shared) (l : Local) → seeing_all shared top.new (frames_of top.new.frames.items) below.new.items l ≡ changed.stands_as place (seen.activation_of woken.entry) (seeing_all shared top.old (frames_of top.old.frames.items) below.old.items l) }
    ensures top { top.new ≡ woken.entry }
    ensures below { vec_len below.new < vec_capacity below.new }
{
    match place {
        Wake::Above => below.push_reserved(replace(top, woken)),
        Wake::Instead => *top = woken,
    }
}

/// The coroutine runs, where it is there: its activation, in whose frames there is room for so many more. Where memory runs out
/// nothing has changed.
fn take_woken<'u>(
    alloc: Global,
    shared: &mut Shared<'u>,
    number: u64,
    kind: Kind,
    more: usize,
) -> Result<Option<Activation<'u>>, NoMemory>
    ensures made { (l : Local) (place : Wake) → MatchResult result (λ woken. woken_as place woken (sharing shared.new l) ≡ changed.effected (effect.Wakes number kind place) (sharing shared.old l)) (λ _. sharing shared.new l ≡ sharing shared.old l) }
    ensures room { IfOk result (λ woken. IfSome woken (λ a. vec_len a.frames + more ≤ vec_capacity a.frames)) }
{
    let Some(at) = index_of(number) else {
        return Ok(None);
    };
    let Some(coroutine) = shared.coroutines.get_mut(at) else {
        return Ok(None);
    };
    match run(alloc, coroutine, number, kind, more) {
        Ok(woken) => Ok(Some(woken)),
        Err(_) => Err(NoMemory),
    }
}

/// A coroutine of a number runs: its activation, in whose frames there is room for so many more.
fn run<'u>(
    alloc: Global,
    coroutine: &mut Coroutine<'u>,
    number: u64,
    kind: Kind,
    more: usize,
) -> Result<Activation<'u>, NoMemory>
    ensures woken { IfOk result (λ woken. seen.activation_of woken ≡ coroutines.activation_of (seen.kind_of kind) number (seen.coroutine_of coroutine.old) (changed.continuation_in (seen.condition_of coroutine.old.condition))) }
    ensures runs { OnOk result (seen.coroutine_of coroutine.new ≡ record (seen.coroutine_of coroutine.old) { condition = meaning.Running (changed.serial_after (seen.condition_of coroutine.old.condition)) }) }
    ensures same { OnErr result (seen.coroutine_of coroutine.new ≡ seen.coroutine_of coroutine.old) }
    ensures room { IfOk result (λ woken. vec_len woken.frames + more ≤ vec_capacity woken.frames) }
{
    let nothing = Continuation {
        slots: Items::new(alloc),
        frames: Vec::with_capacity(alloc, more)?,
    };
    make_room(&mut coroutine.condition, more)?;
    let running = Condition::Running(serial_of(&coroutine.condition));
    let condition = replace(&mut coroutine.condition, running);
    let Continuation { slots, frames } = left_to_do(condition, nothing, more);
    Ok(Activation {
        kind,
        func: coroutine.func,
        slots,
        coroutine: Some(number),
        into: None,
        frames,
    })
}

/// There is room for so many more frames in what a coroutine has left to be done.
fn make_room(condition: &mut Condition<'_>, more: usize) -> Result<(), NoMemory>
    ensures same { seen.condition_of condition.new ≡ seen.condition_of condition.old }
    ensures room { OnOk result (HasRoom more condition.new) }
{
    match condition {
        Condition::Suspended(_, _, rest) => rest.frames.reserve(more)?,
        Condition::Final(_, _, rest) => rest.frames.reserve(more)?,
        Condition::Running(_) | Condition::Over => {}
    }
    Ok(())
}

/// What a coroutine of the condition has left to be done: nothing where it is not suspended.
fn left_to_do<'u>(
    condition: Condition<'u>,
    nothing: Continuation<'u>,
    more: usize,
) -> Continuation<'u>
    requires slots { nothing.slots ≡ [] }
    requires frames { nothing.frames.items ≡ [] }
    requires spare { vec_len nothing.frames + more ≤ vec_capacity nothing.frames }
    requires room { HasRoom more condition }
    ensures left { seen.continuation_of result ≡ changed.continuation_in (seen.condition_of condition.entry) }
    ensures room { vec_len result.frames + more ≤ vec_capacity result.frames }
{
    let _ = more;
    match condition {
        Condition::Suspended(_, _, rest) | Condition::Final(_, _, rest) => rest,
        Condition::Running(_) | Condition::Over => nothing,
    }
}

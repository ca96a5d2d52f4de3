ghost use Rattle.std.specs.Prelude.{◌≡◌, List, slice_set, Some, MatchResult};
ghost use Rattle.co_eval_data.specs.Agents.{object_of};
ghost use Rattle.co_eval_data.specs.Changed as changed;
ghost use Rattle.co_eval_data.specs.declared.changes.Effect.TheVariants as effect;
ghost use Rattle.co_meaning_calls.specs.Coroutines.{promised_by};
ghost use Rattle.co_meaning_data.specs.Frames as meaning;
ghost use Rattle.co_meaning_data.specs.Turn.{Local};
ghost use Rattle.co_eval_commit.specs.InPlace.{seeing, sharing};

use crate::coroutines::{draw, set_promise};
use crate::objects::add_object;
use co_base::NoMemory;
use co_eval_data::{Activation, Shared, StoredObject};
use sqlite_items::Items;

/// The object of a slot is set, where the slot is there.
fn set_slot(slots: &mut Items<Option<u64>>, slot: usize, object: u64)
    ensures { slots.new ≡ slice_set slots.old slot (Some object) }
{
    if slot < slots.len() {
        slots.set(slot, Some(object));
    }
}

/// A new object, the object of a slot.
pub fn adds<'u>(
    shared: &mut Shared<'u>,
    top: &mut Activation<'u>,
    slot: u32,
    object: StoredObject<'u>,
) -> Result<(), NoMemory>
    ensures made { (l : Local) (fs : List meaning.Frame) → MatchResult result (λ _. seeing shared.new top.new fs l ≡ changed.added slot (object_of object.entry) (seeing shared.old top.old fs l)) (λ _. seeing shared.new top.new fs l ≡ seeing shared.old top.old fs l) }
    ensures frames { top.new.frames ≡ top.old.frames }
{
    shared.store.objects.reserve(1)?;
    let number = shared.store.objects.len() as u64;
    add_object(&mut shared.store, object);
    set_slot(&mut top.slots, slot as usize, number);
    Ok(())
}

/// The same, where the object is the promise of the coroutine whose slots these are [dcl.fct.def.coroutine].
pub fn adds_promise<'u>(
    shared: &mut Shared<'u>,
    top: &mut Activation<'u>,
    slot: u32,
    object: StoredObject<'u>,
) -> Result<(), NoMemory>
    ensures made { (l : Local) (fs : List meaning.Frame) → MatchResult result (λ _. seeing shared.new top.new fs l ≡ changed.effected (effect.AddsPromise slot object.entry) (seeing shared.old top.old fs l)) (λ _. seeing shared.new top.new fs l ≡ seeing shared.old top.old fs l) }
    ensures frames { top.new.frames ≡ top.old.frames }
{
    let number = shared.store.objects.len() as u64;
    match adds(shared, top, slot, object) {
        Ok(()) => {
            set_promise_of(shared, top.coroutine, number);
            Ok(())
        }
        Err(_) => Err(NoMemory),
    }
}

/// The object is the promise of the coroutine, where there is one.
fn set_promise_of(shared: &mut Shared<'_>, coroutine: Option<u64>, object: u64)
    ensures { (l : Local) → sharing shared.new l ≡ promised_by object (sharing shared.old l) coroutine }
{
    if let Some(coroutine) = coroutine {
        set_promise(shared, coroutine, object);
    }
}

/// The coroutine of the activation is made, and its frame stands in the block [dcl.fct.def.coroutine].
pub fn draws(shared: &mut Shared<'_>, top: &mut Activation<'_>, block: u64) -> Result<(), NoMemory>
    ensures made { (l : Local) (fs : List meaning.Frame) → MatchResult result (λ _. seeing shared.new top.new fs l ≡ changed.effected (effect.Draws block) (seeing shared.old top.old fs l)) (λ _. seeing shared.new top.new fs l ≡ seeing shared.old top.old fs l) }
    ensures frames { top.new.frames ≡ top.old.frames }
{
    shared.coroutines.reserve(1)?;
    let number = draw(shared, top.func, block);
    top.coroutine = Some(number);
    Ok(())
}

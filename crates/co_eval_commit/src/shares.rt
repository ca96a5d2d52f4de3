ghost use Rattle.std.specs.Prelude.{◌≡◌, MatchResult};
ghost use Rattle.co_eval_data.specs.Changed as changed;
ghost use Rattle.co_eval_data.specs.declared.changes.Effect.TheVariants as effect;
ghost use Rattle.co_meaning_data.specs.Turn.{Local};
ghost use Rattle.co_eval_commit.specs.InPlace.{sharing};

use crate::blocks::{add_block, set_standing};
use crate::coroutines::set_condition;
use crate::objects::{add_object, copies_of, fill_object};
use co_base::NoMemory;
use co_eval_data::{Condition, Shared, StoredObject};
use co_meaning_data::{Cell, Standing, Value};
use std::alloc::Global;

/// A new object that stands in a block.
pub fn adds_in<'u>(
    shared: &mut Shared<'u>,
    block: u64,
    object: StoredObject<'u>,
) -> Result<(), NoMemory>
    ensures { (l : Local) → MatchResult result (λ _. sharing shared.new l ≡ changed.effected (effect.AddsIn block object.entry) (sharing shared.old l)) (λ _. sharing shared.new l ≡ sharing shared.old l) }
{
    shared.store.objects.reserve(1)?;
    let number = shared.store.objects.len() as u64;
    add_object(&mut shared.store, object);
    set_standing(&mut shared.store, block, Standing::Object(number));
    Ok(())
}

/// A new block of so many words.
pub fn adds_block(shared: &mut Shared<'_>, words: u64) -> Result<(), NoMemory>
    ensures { (l : Local) → MatchResult result (λ _. sharing shared.new l ≡ changed.effected (effect.AddsBlock words) (sharing shared.old l)) (λ _. sharing shared.new l ≡ sharing shared.old l) }
{
    shared.store.blocks.reserve(1)?;
    add_block(&mut shared.store, words);
    Ok(())
}

/// So many cells of an object from one on become as this one.
pub fn fills(
    alloc: Global,
    shared: &mut Shared<'_>,
    object: u64,
    from: usize,
    count: usize,
    cell: Cell,
) -> Result<(), NoMemory>
    ensures { (l : Local) → MatchResult result (λ _. sharing shared.new l ≡ changed.effected (effect.Fills object from count cell) (sharing shared.old l)) (λ _. sharing shared.new l ≡ sharing shared.old l) }
{
    let copies = copies_of(alloc, &cell, count)?;
    fill_object(&mut shared.store, object, from, &cell, copies);
    Ok(())
}

/// The coroutine is over, and nothing stands in the block [dcl.fct.def.coroutine].
pub fn closes(shared: &mut Shared<'_>, number: u64, block: u64)
    ensures { (l : Local) → sharing shared.new l ≡ changed.effected (effect.Closes number block) (sharing shared.old l) }
{
    set_standing(&mut shared.store, block, Standing::Nothing);
    set_condition(shared, number, Condition::Over);
}

/// One more handle is posted.
pub fn posts(shared: &mut Shared<'_>, value: Value) -> Result<(), NoMemory>
    ensures { (l : Local) → MatchResult result (λ _. sharing shared.new l ≡ changed.effected (effect.Posts value) (sharing shared.old l)) (λ _. sharing shared.new l ≡ sharing shared.old l) }
{
    shared.posted.push_back(value)?;
    Ok(())
}

ghost use Rattle.std.specs.Prelude.{◌≡◌, slice_get};
ghost use Rattle.std.specs.Option.{option_map};
ghost use Rattle.co_eval_data.specs.Agents.{block_of, local_of, object_of};
ghost use Rattle.co_meaning.specs.Expressions as expressions;
ghost use Rattle.co_meaning_data.specs.Store as store;
ghost use Rattle.co_meaning_data.specs.Turn as turn;

use co_base::Thrown;
use co_eval_data::{Here, StoredBlock, StoredObject};
use co_meaning_data::{Lifetime, Standing};
use sqlite_items::at;

/// The object of this number.
#[tactic(auto, using(crate::proofs::Mapped::seen_object))]
pub fn object_at<'a, 'u>(here: &Here<'a, 'u>, object: u64) -> Option<&'a StoredObject<'u>>
    ensures { option_map (λ o. object_of o.now) result ≡ store.object_at (turn.store (local_of here.now)) object }
{
    let shared = here.shared;
    at(shared.store.objects.as_slice(), object as usize)
}

/// The block of this number.
#[tactic(auto, using(crate::proofs::Mapped::seen_block))]
pub fn block_at<'a>(here: &Here<'a, '_>, block: u64) -> Option<&'a StoredBlock>
    ensures { option_map (λ b. block_of b.now) result ≡ store.block_at (turn.store (local_of here.now)) block }
{
    let shared = here.shared;
    at(shared.store.blocks.as_slice(), block as usize)
}

/// The number that the next object gets.
#[tactic(auto, using(crate::proofs::Mapped::objects_counted))]
pub fn next_object(here: &Here<'_, '_>) -> u64
    ensures { result ≡ store.next_object (turn.store (local_of here.now)) }
{
    here.shared.store.objects.len() as u64
}

/// The number that the next block gets.
#[tactic(auto, using(crate::proofs::Mapped::blocks_counted))]
pub fn next_block(here: &Here<'_, '_>) -> u64
    ensures { result ≡ store.next_block (turn.store (local_of here.now)) }
{
    here.shared.store.blocks.len() as u64
}

pub(crate) fn is_live_lifetime(lifetime: Lifetime) -> bool
    ensures { result ≡ store.is_live_lifetime lifetime }
{
    match lifetime {
        Lifetime::Live => true,
        Lifetime::Raw | Lifetime::Ended => false,
    }
}

fn is_ended_lifetime(lifetime: Lifetime) -> bool
    ensures { result ≡ store.is_ended_lifetime lifetime }
{
    match lifetime {
        Lifetime::Ended => true,
        Lifetime::Raw | Lifetime::Live => false,
    }
}

/// Whether the object is live.
pub fn is_live(here: &Here<'_, '_>, object: u64) -> bool
    ensures { result ≡ store.is_live (turn.store (local_of here.now)) object }
{
    match object_at(here, object) {
        Some(object) => is_live_lifetime(object.lifetime),
        None => false,
    }
}

/// Whether the object has ended.
pub fn is_ended(here: &Here<'_, '_>, object: u64) -> bool
    ensures { result ≡ store.is_ended (turn.store (local_of here.now)) object }
{
    match object_at(here, object) {
        Some(object) => is_ended_lifetime(object.lifetime),
        None => true,
    }
}

/// The coroutine whose promise, parameter copy, local or temporary of a class the object is.
pub fn coroutine_in(here: &Here<'_, '_>, object: u64) -> Option<u64>
    ensures { result ≡ store.coroutine_in (store.object_at (turn.store (local_of here.now)) object) }
{
    match object_at(here, object) {
        Some(object) => object.coroutine,
        None => None,
    }
}

/// What stands in the block.
pub fn standing_in(here: &Here<'_, '_>, block: u64) -> Standing
    ensures { result ≡ store.standing_in (store.block_at (turn.store (local_of here.now)) block) }
{
    match block_at(here, block) {
        Some(block) => block.standing,
        None => Standing::Nothing,
    }
}

/// The newest exception that the agent handles, where it handles one.
#[tactic(auto, using(crate::proofs::Mapped::handled_last))]
pub fn handled(here: &Here<'_, '_>) -> Option<Thrown>
    ensures { result ≡ slice_get (local_of here.now).handled 0 }
{
    here.handled.last().copied()
}

/// The newest exception that the agent handles, or none.
#[tactic(auto, using(crate::proofs::Mapped::newest_first, crate::proofs::Mapped::newest_none))]
pub fn newest(here: &Here<'_, '_>) -> Thrown
    ensures { result ≡ expressions.newest (local_of here.now).handled }
{
    match handled(here) {
        Some(value) => value,
        None => Thrown::None,
    }
}

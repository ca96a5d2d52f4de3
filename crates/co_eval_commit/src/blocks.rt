ghost use Rattle.std.specs.Prelude.{◌≡◌, ◌<◌, Some};
ghost use Rattle.std.specs.Vec.{vec_len, vec_capacity};
ghost use Rattle.co_eval_data.specs.Agents.{store_of};
ghost use Rattle.co_meaning_data.specs.Store as stored;

use crate::objects::end_object;
use co_eval_data::{Store, StoredBlock};
use co_meaning_data::Standing;

/// A new block of so many words. There is room for it.
pub fn add_block(store: &mut Store<'_>, words: u64)
    requires { vec_len store.old.blocks < vec_capacity store.old.blocks }
    ensures { store_of store.new ≡ stored.add_block words (store_of store.old) }
{
    store.blocks.push_reserved(StoredBlock {
        words,
        released: false,
        standing: Standing::Nothing,
    });
}

/// What stands in a block: nothing where the block is not there.
pub fn standing_in(store: &Store<'_>, block: u64) -> Standing
    ensures { result ≡ stored.standing_in (stored.block_at (store_of store.now) block) }
{
    match store.blocks.get(block as usize) {
        Some(block) => block.standing,
        None => Standing::Nothing,
    }
}

/// This stands in the block from now on, where the block is there.
pub fn set_standing(store: &mut Store<'_>, block: u64, what: Standing)
    ensures { store_of store.new ≡ stored.set_standing block what (store_of store.old) }
{
    if let Some(block) = store.blocks.get_mut(block as usize) {
        block.standing = what;
    }
}

/// The object stands no more in the block that it was made in.
pub fn leave_block(store: &mut Store<'_>, object: u64, block: u64)
    ensures { store_of store.new ≡ stored.leave_block object (Some block) (store_of store.old) }
{
    if let Standing::Object(other) = standing_in(store, block) {
        if object == other {
            set_standing(store, block, Standing::Nothing);
        }
    }
}

/// The block is released, where it is there; an object of `new` that stands in it ends without a destructor [basic.life].
pub fn release(store: &mut Store<'_>, block: u64)
    ensures { store_of store.new ≡ stored.release block (store_of store.old) }
{
    if let Standing::Object(object) = standing_in(store, block) {
        end_object(store, object);
    }
    release_emptied(store, block);
}

/// The block is released, where it is there, and nothing stands in it.
fn release_emptied(store: &mut Store<'_>, block: u64)
    ensures { store_of store.new ≡ stored.released_block (store_of store.old) block (stored.block_at (store_of store.old) block) }
{
    if let Some(block) = store.blocks.get_mut(block as usize) {
        block.released = true;
        block.standing = Standing::Nothing;
    }
}

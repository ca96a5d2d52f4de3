ghost use Rattle.std.specs.Prelude.{◌≡◌, ℕ, ◌+◌, ◌-◌, ◌<◌, ◌≤◌, ◌%◌, ◌^◌, Some, None, Ok, Err};
ghost use Rattle.co_words.specs.declared.access.Access.{Access};
ghost use Rattle.co_words.specs.declared.storage.StoreFull.{StoreFull};
ghost use Rattle.co_words.specs.Storage as storage;

use crate::blocks::Blocks;
use crate::words::Words;
use co_base::Undef;

/// The words hold no block of that size any more.
#[derive(Clone, Copy, Debug, PartialEq, Eq)]
pub struct StoreFull;

/// A block of `size` words: its place, the word before which is for its size. It is the newest spare block of that
/// size, without an access; else it is made of `size` + 1 words from the break on, by one add to word 3, which holds
/// the break. The size word is not stored. A size above the number of words is refused without an access.
///
/// `StoreFull` comes exactly where no spare block has that size, and the size is above the number of words or the block
/// would end past the last word. The spare blocks are then as before.
#[tactic(auto, using(crate::proofs::Groups::without_absent))]
pub fn take_block<W: Words>(blocks: &mut Blocks, words: &mut W, size: u64) -> Result<u64, StoreFull>
    requires size { 1 ≤ size }
    requires words { 4 ≤ W.count words.old }
    ensures spare { (place : ℕ) → storage.newest_of size blocks.old ≡ Some place → (result ≡ Ok place) × (blocks.new ≡ storage.without size blocks.old) × (words.new ≡ words.old) }
    ensures too_large { storage.newest_of size blocks.old ≡ None → W.count words.old < size → (result ≡ Err (record {})) × (blocks.new ≡ blocks.old) × (words.new ≡ words.old) }
    ensures made { storage.newest_of size blocks.old ≡ None → size ≤ W.count words.old → (old : ℕ) × W.gives words.old (Access.Add 3 ((size + 1) % 2 ^ 64)) old words.new × (result ≡ storage.made old size (W.count words.old)) × (blocks.new ≡ blocks.old) }
    ensures size { W.count words.new ≡ W.count words.old }
{
    if let Some(place) = blocks.remove(size) {
        return Ok(place);
    }
    let most = words.size();
    if most < size {
        return Err(StoreFull);
    }
    let old = words.add(3, size.wrapping_add(1));
    made(old, size, most)
}

// The block from the break on, if it ends at the last word or before.
fn made(old: u64, size: u64, most: u64) -> Result<u64, StoreFull>
    ensures { result ≡ storage.made old size most }
{
    if size < most && old < most - size {
        Ok(old + 1)
    } else {
        Err(StoreFull)
    }
}

/// The block at `at` goes back: one swap of its size word with 0. It is then the newest spare block of its size, or is
/// given up for good where 4,096 are kept already.
///
/// `U11` comes exactly where the swapped size word is 0 or above the number of words. The spare blocks are then as
/// before.
pub fn give_block<W: Words>(blocks: &mut Blocks, words: &mut W, at: u64) -> Result<(), Undef>
    requires { (2 ≤ at) × (at - 1 < W.count words.old) }
    ensures given { (old : ℕ) × W.gives words.old (Access.Swap (at - 1) 0) old words.new × (result ≡ storage.given_answer old (W.count words.old)) × (blocks.new ≡ storage.given_back old (W.count words.old) at blocks.old) }
    ensures size { W.count words.new ≡ W.count words.old }
{
    let most = words.size();
    let size = words.swap(at - 1, 0);
    if size == 0 || most < size {
        return Err(Undef::U11);
    }
    blocks.add(size, at);
    Ok(())
}

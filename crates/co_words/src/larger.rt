ghost use Rattle.std.specs.Prelude.{◌≡◌, ◌+◌, ◌<◌, false, length, slice_index_or, drop, vec_capacity, MatchOption};
ghost use Rattle.co_words.specs.Chains.{no_link};
ghost use Rattle.co_words.specs.Storage as storage;

use crate::links::Block;

// The number of the last block of that size.
fn last_of(blocks: &[Block], size: u64) -> Option<usize>
    ensures { MatchOption result (storage.has size blocks.now ≡ false) (λ n. (n < length blocks.now) × ((slice_index_or blocks.now n no_link.block).size ≡ size) × (storage.has size (drop (n + 1) blocks.now) ≡ false)) }
{
    let mut n = blocks.len();
    while 0 < n {
        n -= 1;
        if blocks[n].size == size {
            return Some(n);
        }
    }
    None
}

/// The place of the newest block of that size among these.
pub fn newest(blocks: &[Block], size: u64) -> Option<u64>
    ensures { result ≡ storage.newest_of size blocks.now }
{
    match last_of(blocks, size) {
        None => None,
        Some(n) => Some(blocks[n].place),
    }
}

/// The newest block of that size leaves. Its place.
pub fn remove(blocks: &mut Vec<Block>, size: u64) -> Option<u64>
    ensures place { result ≡ storage.newest_of size blocks.old.items }
    ensures rest { blocks.new.items ≡ storage.without size blocks.old.items }
    ensures room { vec_capacity blocks.new ≡ vec_capacity blocks.old }
{
    match last_of(blocks.as_slice(), size) {
        None => None,
        Some(n) => Some(blocks.remove(n).place),
    }
}

ghost use Rattle.std.specs.Prelude.{◌≡◌, [], None, IfOk};
ghost use Rattle.co_words.specs.Storage as storage;

use crate::larger;
use crate::links::{Block, Chain, Link, empty_chains, free_links, move_link};
use co_base::NoMemory;
use std::alloc::Global;
use std::marker::Model;

/// The spare blocks of a worker, with room for 4,096. Contracts see the list: the smaller first, and among those of one
/// size the newest last; all that are larger than 1,024 words stand together.
#[derive(Drop)]
pub struct Blocks {
    links: Vec<Link>,
    chains: Vec<Chain>,
    free: Chain,
    larger: Vec<Block>,
}

impl Model for Blocks {
    ghost use Rattle.std.specs.Prelude.{List, ◌≤◌, vec_capacity};
    ghost use Rattle.co_words.specs.declared.links.Block.{Block};
    ghost use Rattle.co_words.specs.Chains.{Holds, listed};

    ghost Value = { List Block };

    ghost view = { λ s. listed s.links.items s.larger.items s.chains.items };

    ghost invariant = { λ s. Holds s.links.items s.chains.items s.free s.larger.items × (4096 ≤ vec_capacity s.larger) };
}

impl Blocks {
    /// No spare block.
    pub fn new(alloc: Global) -> Result<Blocks, NoMemory>
        ensures { IfOk result (λ s. s ≡ []) }
    {
        let links = free_links(alloc, 4096)?;
        let chains = empty_chains(alloc, 1025)?;
        let larger = Vec::with_capacity(alloc, 4096)?;
        let free = Chain {
            newest: 4095,
            count: 4096,
        };
        Ok(Blocks {
            links,
            chains,
            free,
            larger,
        })
    }

    /// The place of the newest block of that size.
    pub fn newest(&self, size: u64) -> Option<u64>
        ensures { result ≡ storage.newest_of size self.now }
    {
        if 1024 < size {
            return larger::newest(self.larger.as_slice(), size);
        }
        let chain = self.chains[size as usize];
        if chain.count == 0 {
            return None;
        }
        Some(self.links[chain.newest as usize].block.place)
    }

    /// The newest block of that size leaves. Its place.
    pub fn remove(&mut self, size: u64) -> Option<u64>
        ensures place { result ≡ storage.newest_of size self.old }
        ensures rest { self.new ≡ storage.without size self.old }
    {
        if 1024 < size {
            return larger::remove(&mut self.larger, size);
        }
        let from = self.chains[size as usize];
        if from.count == 0 {
            return None;
        }
        let place = self.links[from.newest as usize].block.place;
        let spare = Block {
            size: 1025,
            place: 0,
        };
        let (from, free) = move_link(&mut self.links, from, self.free, spare);
        self.chains[size as usize] = from;
        self.free = free;
        Some(place)
    }

    /// The block joins its group as the newest; it is given up for good where 4,096 are kept already.
    pub fn add(&mut self, size: u64, place: u64)
        ensures { self.new ≡ storage.given (record { size = size; place = place }) self.old }
    {
        if self.free.count as usize <= self.larger.len() {
            return;
        }
        let block = Block { size, place };
        if 1024 < size {
            match self.larger.push(block) {
                Ok(()) => {}
                Err(_) => unreachable!(),
            }
            return;
        }
        let to = self.chains[size as usize];
        let (free, to) = move_link(&mut self.links, self.free, to, block);
        self.free = free;
        self.chains[size as usize] = to;
    }
}

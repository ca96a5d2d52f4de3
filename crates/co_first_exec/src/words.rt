ghost use Rattle.std.specs.Prelude.{◌≡◌, ◌<◌, length, slice_index, slice_set, replicate, IfOk};

use co_base::NoMemory;
use std::alloc::Global;
use std::marker::Model;

/// The words of a run, of 64 bits each. Contracts see the list.
#[derive(Debug, Drop)]
pub struct Words {
    words: Vec<u64>,
}

impl Model for Words {
    ghost use Rattle.std.specs.Prelude.{List, ℕ};

    ghost Value = { List ℕ };

    ghost view = { λ w. w.words.items };
}

impl Words {
    /// So many words, each 0.
    pub fn new(alloc: Global, size: usize) -> Result<Words, NoMemory>
        ensures { IfOk result (λ w. w ≡ replicate size 0) }
    {
        let words = vec![in alloc; 0; size]?;
        Ok(Words { words })
    }

    pub fn len(&self) -> u64
        ensures { result ≡ length self.now }
    {
        self.words.len() as u64
    }

    /// The word at this address.
    pub fn load(&self, at: u64) -> u64
        requires { at < length self.now }
        ensures { result ≡ slice_index self.now at }
    {
        self.words[at as usize]
    }

    pub fn store(&mut self, at: u64, word: u64)
        requires { at < length self.old }
        ensures { self.new ≡ slice_set self.old at word }
    {
        self.words[at as usize] = word;
    }
}

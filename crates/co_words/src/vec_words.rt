ghost use Rattle.std.specs.Prelude.{◌≡◌, IfOk};

use crate::words::Words;
use co_base::NoMemory;
use std::alloc::Global;
use std::marker::Model;

/// Words of its own, seen as the list of them.
#[derive(Debug, Drop)]
pub struct VecWords {
    words: Vec<u64>,
}

impl Model for VecWords {
    ghost use Rattle.std.specs.Prelude.{List, ℕ};

    ghost Value = { List ℕ };

    ghost view = { λ w. w.words.items };
}

impl VecWords {
    /// A copy of these words.
    pub fn new(alloc: Global, words: &[u64]) -> Result<VecWords, NoMemory>
        ensures { IfOk result (λ w. w ≡ words.now) }
    {
        let words = Vec::from_slice(alloc, words)?;
        Ok(VecWords { words })
    }
}

impl Words for VecWords {
    ghost use Rattle.std.specs.Prelude.{length};
    ghost use Rattle.co_words.specs.Words.{Makes};

    ghost count = { length };

    ghost gives = { Makes };

    fn size(&self) -> u64 {
        self.words.len() as u64
    }

    fn load(&mut self, at: u64) -> u64 {
        self.words[at as usize]
    }

    fn store(&mut self, at: u64, v: u64) {
        self.words[at as usize] = v;
    }

    fn swap(&mut self, at: u64, v: u64) -> u64 {
        let old = self.words[at as usize];
        self.words[at as usize] = v;
        old
    }

    fn add(&mut self, at: u64, v: u64) -> u64 {
        let old = self.words[at as usize];
        self.words[at as usize] = old.wrapping_add(v);
        old
    }

    fn cas(&mut self, at: u64, was: u64, v: u64) -> u64 {
        let old = self.words[at as usize];
        if old == was {
            self.words[at as usize] = v;
        }
        old
    }
}

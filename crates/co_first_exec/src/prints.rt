ghost use Rattle.std.specs.Prelude.{◌≡◌, ◌<◌, ◌^◌, ◌++◌, [], ◌∷◌, length, IfOk};

use co_base::NoMemory;
use std::alloc::Global;
use std::marker::Model;

/// The greatest number of prints of a run.
pub const MOST_PRINTS: usize = 65536;

/// The numbers that a run has printed, with room for all that it may print. Contracts see the list.
#[derive(Debug, Drop)]
pub struct Prints {
    numbers: Vec<i64>,
}

impl Model for Prints {
    ghost use Rattle.std.specs.Prelude.{List, ℤ, ◌≤◌, vec_capacity};

    ghost Value = { List ℤ };

    ghost view = { λ p. p.numbers.items };

    ghost invariant = { λ p. 65536 ≤ vec_capacity p.numbers };
}

impl Prints {
    /// No print.
    pub fn new(alloc: Global) -> Result<Prints, NoMemory>
        ensures { IfOk result (λ p. p ≡ []) }
    {
        let numbers = Vec::with_capacity(alloc, MOST_PRINTS)?;
        Ok(Prints { numbers })
    }

    pub fn len(&self) -> u64
        ensures { result ≡ length self.now }
    {
        self.numbers.len() as u64
    }

    pub fn as_slice(&self) -> &[i64]
        ensures { result.now ≡ self.now }
    {
        self.numbers.as_slice()
    }

    /// One more print, which takes no memory.
    pub fn push(&mut self, number: i64)
        requires { length self.old < 65536 }
        ensures { self.new ≡ self.old ++ number ∷ [] }
    {
        match self.numbers.push(number) {
            Ok(()) => {}
            Err(_) => unreachable!(),
        }
    }
}

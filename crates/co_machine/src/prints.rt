ghost use Rattle.std.specs.Prelude.{◌≡◌, [], ◌∷◌, ◌++◌, ◌<◌, length, IfOk};

use co_base::{NoMemory, Print};
use std::alloc::Global;
use std::marker::Model;

/// The prints of a worker with their stamps, and room for all that it may make. Contracts see the list, the oldest first.
#[derive(Drop)]
pub struct Prints {
    items: Vec<(u64, Print)>,
}

impl Model for Prints {
    ghost use Rattle.std.specs.Prelude.{List, ℕ, ◌≤◌, vec_capacity};
    ghost use Rattle.co_base.specs.declared.kinds.Print.{Print};

    ghost Value = { List (ℕ × Print) };

    ghost view = { λ p. p.items.items };

    ghost invariant = { λ p. 65536 ≤ vec_capacity p.items };
}

impl Prints {
    /// No print.
    pub fn new(alloc: Global) -> Result<Prints, NoMemory>
        ensures { IfOk result (λ p. p ≡ []) }
    {
        let items = Vec::with_capacity(alloc, 65536)?;
        Ok(Prints { items })
    }

    pub fn len(&self) -> u64
        ensures { result ≡ length self.now }
    {
        self.items.len() as u64
    }

    pub fn as_slice(&self) -> &[(u64, Print)]
        ensures { result.now ≡ self.now }
    {
        self.items.as_slice()
    }

    /// One print more, which takes no memory.
    pub fn push(&mut self, stamp: u64, print: Print)
        requires { length self.old < 65536 }
        ensures { self.new ≡ self.old ++ (stamp, print) ∷ [] }
    {
        match self.items.push((stamp, print)) {
            Ok(()) => {}
            Err(_) => unreachable!(),
        }
    }
}

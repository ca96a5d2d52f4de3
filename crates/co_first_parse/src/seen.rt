ghost use Rattle.std.specs.Prelude.{◌≡◌, [], ◌∷◌, ◌==◌, IfOk, OnOk};
ghost use Rattle.std.specs.List.{list_any};

use co_base::NoMemory;
use std::alloc::Global;
use std::marker::Model;

/// The variables that are seen, the newest first.
#[derive(Debug, Drop)]
pub struct Seen {
    numbers: Vec<u32>,
}

impl Model for Seen {
    ghost use Rattle.std.specs.Prelude.{List, ℕ};

    ghost Value = { List ℕ };

    ghost view = { λ s. s.numbers.items };
}

impl Seen {
    pub fn new(alloc: Global) -> Seen
        ensures { result ≡ [] }
    {
        Seen {
            numbers: Vec::new(alloc),
        }
    }

    pub fn add(&mut self, number: u32) -> Result<(), NoMemory>
        ensures { OnOk result (self.new ≡ number ∷ self.old) }
    {
        self.numbers.insert(0, number)?;
        Ok(())
    }

    pub fn copy(&self, alloc: Global) -> Result<Seen, NoMemory>
        ensures { IfOk result (λ copy. copy ≡ self.now) }
    {
        let numbers = Vec::from_slice(alloc, self.numbers.as_slice())?;
        Ok(Seen { numbers })
    }

    pub fn has(&self, number: u32) -> bool
        ensures { result ≡ list_any (λ y. y == number) self.now }
    {
        self.numbers.as_slice().contains(&number)
    }
}

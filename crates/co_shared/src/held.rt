ghost use Rattle.std.specs.Prelude.{◌≡◌};

use crate::shared::{Pass, Shared};
use co_words::Words;
use std::marker::Model;

/// The words of a `Shared` through one pass. One access is one atomic step, and all of them stand in one order, as
/// memory_order::seq_cst asks ([atomics.order]).
#[derive(Drop)]
pub struct Held<'a> {
    shared: &'a Shared,
    pass: Pass,
}

impl<'a> Model for Held<'a> {
    ghost use Rattle.std.specs.Prelude.{◌≡◌};
    ghost use Rattle.co_shared.specs.Sights.{Grip};

    ghost Value = { Grip };

    ghost view = { λ h. record { ground = h.shared.now; pass = h.pass } };

    ghost invariant = { λ h. h.pass.id ≡ h.shared.now.id };
}

impl<'a> Held<'a> {
    pub(crate) fn new(shared: &'a Shared, pass: Pass) -> Held<'a>
        requires { pass.id ≡ shared.now.id }
        ensures { (result.ground ≡ shared.now) × (result.pass ≡ pass) }
    {
        Held { shared, pass }
    }

    /// The pass again.
    pub fn back(self) -> Pass
        ensures { result ≡ self.entry.pass }
    {
        self.pass
    }
}

impl<'a> Words for Held<'a> {
    ghost use Rattle.std.specs.Prelude.{length};
    ghost use Rattle.co_shared.specs.Sights.{Steps};

    ghost count = { λ h. length h.ground.opening };

    ghost gives = { Steps };

    fn size(&self) -> u64 {
        self.shared.size()
    }

    fn load(&mut self, at: u64) -> u64 {
        self.shared.load(&mut self.pass, at)
    }

    fn store(&mut self, at: u64, v: u64) {
        self.shared.store(&mut self.pass, at, v);
    }

    fn swap(&mut self, at: u64, v: u64) -> u64 {
        self.shared.swap(&mut self.pass, at, v)
    }

    fn add(&mut self, at: u64, v: u64) -> u64 {
        self.shared.add(&mut self.pass, at, v)
    }

    fn cas(&mut self, at: u64, was: u64, v: u64) -> u64 {
        self.shared.cas(&mut self.pass, at, was, v)
    }
}

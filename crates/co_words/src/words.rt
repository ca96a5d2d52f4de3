ghost use Rattle.std.specs.Prelude.{◌≡◌, ℕ, ◌<◌, ◌≤◌};
ghost use Rattle.co_words.specs.declared.access.Access.{Access};

use crate::access::Access;

/// Words of 64 bits, numbered from 0. Each call but `size` makes exactly one access, to a word other than 0.
///
/// `gives before access answer after` is the meaning of an access: the object before, what is done, the answer,
/// the object after. `count` is the number of words, which no access changes.
pub trait Words {
    ghost count: { Self → ℕ };

    ghost gives: { Self → Access → ℕ → Self → Type 0 };

    /// The number of words. It makes no access.
    fn size(&self) -> u64
        ensures { result ≡ count self.now };

    /// The word at `at`.
    fn load(&mut self, at: u64) -> u64
        requires { (1 ≤ at) × (at < count self.old) }
        ensures meaning { gives self.old (Access.Load at) result self.new }
        ensures size { count self.new ≡ count self.old };

    /// Writes `v` at `at`.
    fn store(&mut self, at: u64, v: u64)
        requires { (1 ≤ at) × (at < count self.old) }
        ensures meaning { gives self.old (Access.Store at v) 0 self.new }
        ensures size { count self.new ≡ count self.old };

    /// Writes `v` at `at`, and answers the word that stood there.
    fn swap(&mut self, at: u64, v: u64) -> u64
        requires { (1 ≤ at) × (at < count self.old) }
        ensures meaning { gives self.old (Access.Swap at v) result self.new }
        ensures size { count self.new ≡ count self.old };

    /// Adds `v` to the word at `at`, modulo 2^64, and answers the word that stood there.
    fn add(&mut self, at: u64, v: u64) -> u64
        requires { (1 ≤ at) × (at < count self.old) }
        ensures meaning { gives self.old (Access.Add at v) result self.new }
        ensures size { count self.new ≡ count self.old };

    /// Writes `v` at `at` exactly where the word there is `was`, and answers the word that stood there.
    fn cas(&mut self, at: u64, was: u64, v: u64) -> u64
        requires { (1 ≤ at) × (at < count self.old) }
        ensures meaning { gives self.old (Access.Cas at was v) result self.new }
        ensures size { count self.new ≡ count self.old };
}

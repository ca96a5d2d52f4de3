ghost use Rattle.std.specs.Prelude.{◌≡◌, ◌+◌, ◌<◌, ◌≤◌, length, IfOk};
ghost use Rattle.co_words.specs.declared.access.Access as Access;
ghost use Rattle.co_words.specs.declared.access.Access.TheVariants.{Load, Store, Swap, Add, Cas};
ghost use Rattle.co_shared.specs.Passes.{fresh, split_once, joined};
ghost use Rattle.co_shared.specs.Sights.{sight, advanced};
ghost use Rattle.co_shared.specs.Closing.{Closes};

use crate::held::Held;
use crate::rule::{Adds, Cut, Exchanges, Loads, OneHistory, Stores, Swaps};
use crate::told::View;
use atomic_table::{Seat, Table};
use co_base::NoMemory;
use co_words::VecWords;
use std::alloc::Global;
use std::marker::Model;
use std::snapshot::Snapshot;

/// Words that several threads read and write, each through a pass of its own, seen as what they were at the start.
#[derive(Drop)]
pub struct Shared {
    table: Table<(), View, Snapshot<VecWords>, OneHistory, Global>,
}

impl Model for Shared {
    ghost use Rattle.std.specs.Prelude.{◌≡◌, ◌≤◌};
    ghost use Rattle.std.specs.Prelude as prelude;
    ghost use Rattle.co_shared.specs.Sights.{Ground};

    ghost Value = { Ground };

    ghost view = { λ s. record { id = s.table.shared.table_id; opening = s.table.shared.key.value } };

    ghost invariant = { λ s. (s.table.shared.table_id.words ≡ prelude.length s.table.shared.key.value) × (s.table.shared.table_id.slots ≡ 0) × (1 ≤ s.table.shared.table_id.words) };
}

/// Leave to read and write the words of one `Shared`, seen as its number, its accesses with the words that they
/// found, how many passes it split off, and the passes that were joined into it.
#[derive(Drop)]
pub struct Pass {
    seat: Seat<(), View>,
}

impl Model for Pass {
    ghost use Rattle.std.specs.Prelude.{◌≡◌, [], false};
    ghost use Rattle.co_shared.specs.Sights.{Sight};

    ghost Value = { Sight };

    ghost view = { λ p. record { id = p.seat.table_id; told = p.seat.me.0.told } };

    ghost invariant = { λ p. (p.seat.me.1 ≡ []) × (p.seat.me.0.spent ≡ false) };
}

/// The words 1 and 2 at the end.
#[derive(Debug, Clone, Copy, PartialEq, Eq)]
pub struct Last {
    pub stamp: u64,
    pub stop: u64,
}

impl Shared {
    /// Words that begin as these, and the pass with number 0. `NoMemory` where there is no room for them; no other
    /// call here takes memory.
    pub fn new(alloc: Global, words: &[u64]) -> Result<(Shared, Pass), NoMemory>
        requires { 1 ≤ length words.now }
        ensures { IfOk result (λ r. (r.0.opening ≡ words.now) × (r.1 ≡ sight r.0.id (fresh 0))) }
    {
        let key = remembered(alloc, words)?;
        let (table, seat) = Table::of_words(alloc, words, &key)?;
        Ok((Shared { table }, Pass { seat }))
    }

    /// The words through this pass.
    pub fn hold<'a>(&'a self, pass: Pass) -> Held<'a>
        requires { pass.id ≡ self.now.id }
        ensures { (result.ground ≡ self.now) × (result.pass ≡ pass) }
    {
        Held::new(self, pass)
    }

    /// A new pass, with no access yet. Its number is the number of passes that this one has split off by now.
    pub fn split(&self, pass: &mut Pass) -> Pass
        requires { (pass.old.id ≡ self.now.id) × (pass.old.told.number ≡ 0) }
        ensures left { pass.new ≡ sight pass.old.id (split_once pass.old.told) }
        ensures right { result ≡ sight pass.old.id (fresh (pass.old.told.splits + 1)) }
    {
        let seat = self.table.shared.split_seat::<Cut>(&mut pass.seat);
        Pass { seat }
    }

    /// Takes in a pass, which ends. What `pass` does from now on stands after all that the other did.
    pub fn join(&self, pass: &mut Pass, other: Pass)
        requires { (pass.old.id ≡ self.now.id) × (other.id ≡ self.now.id) × (pass.old.told.number ≡ 0) }
        ensures { pass.new ≡ sight pass.old.id (joined pass.old.told other.told) }
    {
        self.table
            .shared
            .join_seat::<Cut>(&mut pass.seat, other.seat);
    }

    /// The end: the words 1 and 2 as the one history of all accesses leaves them.
    pub fn close(self, pass: Pass) -> Last
        requires room { 3 ≤ length self.opening }
        requires whole { (pass.id ≡ self.id) × (pass.told.number ≡ 0) × (length pass.told.ended ≡ pass.told.splits) }
        ensures { Closes self.opening pass.told result.stamp result.stop }
    {
        let Shared { table } = self;
        let closed = table.close_with(pass.seat);
        let stamp = closed.word(1);
        let stop = closed.word(2);
        closed.free();
        Last { stamp, stop }
    }

    pub(crate) fn size(&self) -> u64
        ensures { result ≡ length self.now.opening }
    {
        self.table.word_count() as u64
    }

    pub(crate) fn load(&self, pass: &mut Pass, at: u64) -> u64
        requires { (pass.old.id ≡ self.now.id) × (at < length self.now.opening) }
        ensures { pass.new ≡ advanced pass.old (Load at) result }
    {
        self.table.shared.load::<Loads>(&mut pass.seat, at as usize)
    }

    pub(crate) fn store(&self, pass: &mut Pass, at: u64, v: u64)
        requires { (pass.old.id ≡ self.now.id) × (at < length self.now.opening) }
        ensures { pass.new ≡ advanced pass.old (Store at v) 0 }
    {
        self.table
            .shared
            .store::<Stores>(&mut pass.seat, at as usize, v);
    }

    pub(crate) fn swap(&self, pass: &mut Pass, at: u64, v: u64) -> u64
        requires { (pass.old.id ≡ self.now.id) × (at < length self.now.opening) }
        ensures { pass.new ≡ advanced pass.old (Swap at v) result }
    {
        self.table
            .shared
            .swap::<Swaps>(&mut pass.seat, at as usize, v)
    }

    pub(crate) fn add(&self, pass: &mut Pass, at: u64, v: u64) -> u64
        requires { (pass.old.id ≡ self.now.id) × (at < length self.now.opening) }
        ensures { pass.new ≡ advanced pass.old (Add at v) result }
    {
        self.table
            .shared
            .fetch_add::<Adds>(&mut pass.seat, at as usize, v)
    }

    pub(crate) fn cas(&self, pass: &mut Pass, at: u64, was: u64, v: u64) -> u64
        requires { (pass.old.id ≡ self.now.id) × (at < length self.now.opening) }
        ensures { pass.new ≡ advanced pass.old (Cas at was v) result }
    {
        self.table
            .shared
            .compare_exchange::<Exchanges>(&mut pass.seat, at as usize, was, v)
    }
}

// The words as the rule remembers them. It has no bytes: the copy of which it is made goes at once.
fn remembered(alloc: Global, words: &[u64]) -> Result<Snapshot<VecWords>, NoMemory>
    ensures { IfOk result (λ k. k.value ≡ words.now) }
{
    let copy = VecWords::new(alloc, words)?;
    Ok(Snapshot::of(&copy))
}

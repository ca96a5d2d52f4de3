ghost use Rattle.std.specs.Prelude.{◌≡◌, ◌∷◌, [], ◌++◌, ◌<◌, ◌≤◌, length, take, is_err, IfOk, OnOk, OnErr};
ghost use Rattle.co_base.specs.Outside.{HasRisen, Takes};
ghost use Rattle.co_base.specs.Memory.{after_write, fresh_sink, write_count, write_fails};

use crate::fault::{Failed, NoMemory};
use crate::outside::Sink;
use std::alloc::Global;
use std::marker::Model;

/// A sink in memory, for tests. It takes what fits into its room; a piece that isn't empty with no
/// room left is a fault, and so is a call whose number was chosen. The calls are numbered from 0;
/// the number stays at 2^64 - 1 once it is reached.
#[derive(Drop)]
pub struct MemSink {
    taken: Vec<u8>,
    room: usize,
    most: usize,
    failing: Vec<u64>,
    calls: u64,
    faults: u64,
}

impl Model for MemSink {
    ghost use Rattle.std.specs.Prelude.{◌<◌, ◌≤◌, length, vec_capacity};
    ghost use Rattle.co_base.specs.Memory.{MemorySink};

    ghost Value = { MemorySink };

    ghost view = { λ s. record {
      taken = s.taken.items;
      room = s.room;
      most = s.most;
      failing = s.failing.items;
      calls = s.calls;
      faults = s.faults;
    } };

    ghost invariant = { λ s. (length s.taken.items ≤ s.room) × (s.room ≤ vec_capacity s.taken) × (0 < s.most) };
}

impl MemSink {
    /// A sink with room for so many bytes, which are reserved now. `NoMemory`: there is none.
    pub fn new(alloc: Global, room: usize) -> Result<MemSink, NoMemory>
        ensures { IfOk result (λ s. s ≡ fresh_sink room usize.MAX) }
    {
        MemSink::slow(alloc, room, usize::MAX)
    }

    /// A sink that takes at most `most` bytes in one call.
    pub fn slow(alloc: Global, room: usize, most: usize) -> Result<MemSink, NoMemory>
        requires { 1 ≤ most }
        ensures { IfOk result (λ s. s ≡ fresh_sink room most) }
    {
        Ok(MemSink {
            taken: Vec::with_capacity(alloc, room)?,
            room,
            most,
            failing: Vec::new(alloc),
            calls: 0,
            faults: 0,
        })
    }

    /// Lets the write of this number fail. After `NoMemory` nothing has changed.
    pub fn fail_at(&mut self, call: u64) -> Result<(), NoMemory>
        ensures ok { OnOk result (self.new ≡ record self.old { failing = self.old.failing ++ call ∷ [] }) }
        ensures err { OnErr result (self.new ≡ self.old) }
    {
        self.failing.push(call)?;
        Ok(())
    }

    /// All bytes taken so far.
    pub fn taken(&self) -> &[u8]
        ensures { result.now ≡ self.now.taken }
    {
        self.taken.as_slice()
    }
}

impl Sink for MemSink {
    ghost use Rattle.std.specs.Prelude.{Some};

    ghost taken = { λ s. Some s.taken };

    ghost faults = { λ s. s.faults };

    fn write(&mut self, piece: &[u8]) -> Result<usize, Failed>
        ensures within { IfOk result (λ n. n ≤ length piece.now) }
        ensures some { IfOk result (λ n. 0 < length piece.now → 0 < n) }
        ensures bytes { IfOk result (λ n. Takes (Some self.old.taken) (take n piece.now) (Some self.new.taken)) }
        ensures same { OnErr result (Some self.new.taken ≡ Some self.old.taken) }
        ensures ok { OnOk result (self.new.faults ≡ self.old.faults) }
        ensures failed { OnErr result (HasRisen self.old.faults self.new.faults) }
        ensures fails { is_err result ≡ write_fails self.old piece.now }
        ensures count { IfOk result (λ n. n ≡ write_count self.old piece.now) }
        ensures after { self.new ≡ after_write self.old piece.now }
    {
        let chosen = self.failing.contains(&self.calls);
        self.calls = self.calls.saturating_add(1);
        let left = self.room - self.taken.len();
        if chosen || (!piece.is_empty() && left == 0) {
            self.faults = self.faults.saturating_add(1);
            return Err(Failed);
        }
        let count = piece.len().min(self.most).min(left);
        match self.taken.extend_from_slice(&piece[..count]) {
            Ok(()) => Ok(count),
            Err(_) => unreachable!(),
        }
    }
}

ghost use Rattle.std.specs.Prelude.{◌≡◌, ℕ, List, ◌∷◌, [], ◌++◌, ◌≤◌, length, take, drop, is_err, IfOk, OnOk, OnErr, IfSome};
ghost use Rattle.co_base.specs.Outside.{HasRisen, Reads, one_more};
ghost use Rattle.co_base.specs.Memory.{held_at, read_count, read_fails, with_file};

use crate::fault::{Failed, NoMemory};
use crate::outside::Files;
use crate::text::Text;
use std::alloc::Global;
use std::collections::BTreeMap;

/// Files that lie in memory, for tests. A read fails where its name isn't held, and where its number
/// was chosen. The reads are numbered from 0; the number stays at 2^64 - 1 once it is reached.
#[derive(Drop)]
pub struct MemFiles {
    alloc: Global,
    held: BTreeMap<String, Text>,
    failing: Vec<u64>,
    calls: u64,
    faults: u64,
}

impl MemFiles {
    /// No file, and no call chosen to fail. It takes no memory.
    pub fn new(alloc: Global) -> MemFiles
        ensures held { held_at result ≡ (λ _. None) }
        ensures failing { result.failing.items ≡ [] }
        ensures calls { result.calls ≡ 0 }
        ensures faults { result.faults ≡ 0 }
    {
        MemFiles {
            alloc,
            held: BTreeMap::new(alloc),
            failing: Vec::new(alloc),
            calls: 0,
            faults: 0,
        }
    }

    /// Holds these bytes under this name, in place of those that it held there before. After
    /// `NoMemory` nothing has changed.
    pub fn add(&mut self, name: &str, bytes: &[u8]) -> Result<(), NoMemory>
        ensures ok { OnOk result ((q : List ℕ) →
            held_at self.new q ≡ with_file (held_at self.old) name.now bytes.now q) }
        ensures err { OnErr result (held_at self.new ≡ held_at self.old) }
        ensures failing { self.new.failing.items ≡ self.old.failing.items }
        ensures calls { self.new.calls ≡ self.old.calls }
        ensures faults { self.new.faults ≡ self.old.faults }
    {
        let name = String::from_str(self.alloc, name)?;
        let bytes = Text::from_slice(self.alloc, bytes)?;
        self.held.insert(name, bytes)?;
        Ok(())
    }

    /// Lets the read of this number fail. After `NoMemory` nothing has changed.
    pub fn fail_at(&mut self, call: u64) -> Result<(), NoMemory>
        ensures ok { OnOk result (self.new.failing.items ≡ self.old.failing.items ++ call ∷ []) }
        ensures err { OnErr result (self.new.failing.items ≡ self.old.failing.items) }
        ensures held { held_at self.new ≡ held_at self.old }
        ensures calls { self.new.calls ≡ self.old.calls }
        ensures faults { self.new.faults ≡ self.old.faults }
    {
        self.failing.push(call)?;
        Ok(())
    }
}

/// Copies the bytes from `at` on to the front of `into`, as many as there are and fit.
fn copy_from(bytes: &[u8], at: u64, into: &mut [u8]) -> usize
    ensures count { result ≡ read_count (length bytes.now) at (length into.old) }
    ensures copied { take result into.new ≡ take result (drop at bytes.now) }
{
    let start = bytes.len().min(at as usize);
    let rest = &bytes[start..];
    let count = into.len().min(rest.len());
    into[..count].copy_from_slice(&rest[..count]);
    count
}

impl Files for MemFiles {
    ghost told = { held_at };

    ghost faults = { λ m. m.faults };

    fn read(&mut self, name: &str, at: u64, into: &mut [u8]) -> Result<usize, Failed>
        ensures within { IfOk result (λ n. n ≤ length into.old) }
        ensures bytes { IfOk result (λ n. Reads (held_at self.old name.now) at n into.new) }
        ensures same { held_at self.new ≡ held_at self.old }
        ensures ok { OnOk result (self.new.faults ≡ self.old.faults) }
        ensures failed { OnErr result (HasRisen self.old.faults self.new.faults) }
        ensures fails { is_err result ≡ read_fails self.old name.now }
        ensures count { IfOk result (λ n. IfSome (held_at self.old name.now)
            (λ bytes. n ≡ read_count (length bytes) at (length into.old))) }
        ensures failing { self.new.failing.items ≡ self.old.failing.items }
        ensures calls { self.new.calls ≡ one_more self.old.calls }
        ensures faults { OnErr result (self.new.faults ≡ one_more self.old.faults) }
    {
        let chosen = self.failing.contains(&self.calls);
        self.calls = self.calls.saturating_add(1);
        if !chosen {
            if let Some(bytes) = self.held.get(name) {
                return Ok(copy_from(bytes.as_slice(), at, into));
            }
        }
        self.faults = self.faults.saturating_add(1);
        Err(Failed)
    }
}

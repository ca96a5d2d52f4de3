//! The traits for what lies outside the program, and the loops over their calls.
ghost use Rattle.std.specs.Prelude.{◌≡◌, ◌<◌, ◌≤◌, length, take, vec_len, IfOk, IfErr, OnOk, OnErr};
ghost use Rattle.co_base.specs.Outside.{HasCause, HasRisen, HoldsFirst, Reads, Takes, TakesFront};

use crate::fault::Failed;
use std::alloc::{AllocError, Global};

/// The files that a program can read.
pub trait Files {
    ghost use Rattle.std.specs.Prelude.{ℕ, List, Option};

    /// The bytes held under a name, or None where this tells nothing of that name.
    ghost told: { Self → List ℕ → Option (List ℕ) };

    /// How many reads have failed. It stays at 2^64 - 1 once it is reached.
    ghost faults: { Self → ℕ };

    /// Reads bytes of the file `name` from `at` on to the front of `into`, and answers how many.
    /// Where `into` isn't empty, 0 means the end of the file. `Failed`: the count of faults rose.
    fn read(&mut self, name: &str, at: u64, into: &mut [u8]) -> Result<usize, Failed>
        ensures within { IfOk result (λ n. n ≤ length into.old) }
        ensures bytes { IfOk result (λ n. Reads (told self.old name.now) at n into.new) }
        ensures same { told self.new ≡ told self.old }
        ensures ok { OnOk result (faults self.new ≡ faults self.old) }
        ensures failed { OnErr result (HasRisen (faults self.old) (faults self.new)) };
}

/// What takes the bytes that a program writes.
pub trait Sink {
    ghost use Rattle.std.specs.Prelude.{ℕ, List, Option};

    /// All bytes taken so far, or None where this does not tell.
    ghost taken: { Self → Option (List ℕ) };

    /// How many writes have failed. It stays at 2^64 - 1 once it is reached.
    ghost faults: { Self → ℕ };

    /// Takes the first bytes of `piece`, and answers how many: never 0 where `piece` isn't empty.
    /// `Failed`: nothing of `piece` was taken, and the count of faults rose.
    fn write(&mut self, piece: &[u8]) -> Result<usize, Failed>
        ensures within { IfOk result (λ n. n ≤ length piece.now) }
        ensures some { IfOk result (λ n. 0 < length piece.now → 0 < n) }
        ensures bytes { IfOk result (λ n. Takes (taken self.old) (take n piece.now) (taken self.new)) }
        ensures same { OnErr result (taken self.new ≡ taken self.old) }
        ensures ok { OnOk result (faults self.new ≡ faults self.old) }
        ensures failed { OnErr result (HasRisen (faults self.old) (faults self.new)) };
}

/// Offers the piece to the sink, and what it didn't take again, until all is taken or a write
/// fails. `Failed`: the first bytes of the piece may have been taken.
pub fn offer_all<S: Sink>(sink: &mut S, piece: &[u8]) -> Result<(), Failed>
    ensures bytes { OnOk result (Takes (S.taken sink.old) piece.now (S.taken sink.new)) }
    ensures ok { OnOk result (S.faults sink.new ≡ S.faults sink.old) }
    ensures front { OnErr result (TakesFront (S.taken sink.old) piece.now (S.taken sink.new)) }
    ensures failed { OnErr result (HasRisen (S.faults sink.old) (S.faults sink.new)) }
{
    let mut at = 0;
    while at < piece.len() {
        at += sink.write(&piece[at..])?;
    }
    Ok(())
}

/// Why a file was not read whole: a read failed, or memory ran out.
#[derive(Clone, Copy, Debug, PartialEq, Eq)]
pub enum ReadFault {
    Failed,
    NoMemory,
}

impl From<Failed> for ReadFault {
    ghost use Rattle.co_base.specs.declared.outside.ReadFault.{ReadFault};

    ghost from_gives = { λ _ e. e ≡ ReadFault.Failed };

    fn from(_e: Failed) -> ReadFault {
        ReadFault::Failed
    }
}

impl From<AllocError> for ReadFault {
    ghost use Rattle.co_base.specs.declared.outside.ReadFault.{ReadFault};

    ghost from_gives = { λ _ e. e ≡ ReadFault.NoMemory };

    fn from(_e: AllocError) -> ReadFault {
        ReadFault::NoMemory
    }
}

const PART: usize = 4096;

/// The first bytes of the file `name`, at most `most` of them. Each read asks for at most 4,096
/// bytes, and nothing is read past the first `most`.
pub fn read_all<F: Files>(
    alloc: Global,
    files: &mut F,
    name: &str,
    most: usize,
) -> Result<Vec<u8>, ReadFault>
    ensures bytes { IfOk result (λ v. HoldsFirst (F.told files.old name.now) most v.items) }
    ensures within { IfOk result (λ v. vec_len v ≤ most) }
    ensures same { F.told files.new ≡ F.told files.old }
    ensures ok { OnOk result (F.faults files.new ≡ F.faults files.old) }
    ensures err { IfErr result (λ e. HasCause e (F.faults files.old) (F.faults files.new)) }
{
    let mut bytes = Vec::new(alloc);
    let mut part = [0; PART];
    while bytes.len() < most {
        let room = PART.min(most - bytes.len());
        let count = files.read(name, bytes.len() as u64, &mut part[..room])?;
        if count == 0 {
            break;
        }
        bytes.extend_from_slice(&part[..count])?;
    }
    Ok(bytes)
}

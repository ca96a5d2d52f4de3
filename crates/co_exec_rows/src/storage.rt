ghost use Rattle.std.specs.Prelude.{◌≡◌, ◌<◌, ◌+◌, ◌^◌};
ghost use Rattle.co_machine.specs.Check.{asked};
ghost use Rattle.co_machine.specs.Effect as effect;

use crate::change::{meet, set_block};
use co_base::{Limit, Span, Undef};
use co_machine::{Control, Limits, StopKind};

/// The words that TAKE asks for, at least 1.
pub fn asked(k: &Control) -> u64
    ensures { result ≡ asked k.now }
{
    if k.registers.a == 0 { 1 } else { k.registers.a }
}

/// The words from the old break on, one of them for the size, if they end at the last word or before.
pub fn take_from(old: u64, limits: Limits, k: &mut Control)
    requires place { k.old.pc < 4294967295 }
    requires room { asked k.old + 1 < 2 ^ 64 }
    ensures { k.new ≡ effect.taken_from old limits k.old }
{
    let size = asked(k);
    if size + 1 <= limits.words && old <= limits.words - (size + 1) {
        set_block(size, old, k);
    } else {
        meet(StopKind::Limit(Limit::Store), k);
    }
}

/// A spare block of that size is used again.
pub fn reuse(size: u64, place: u64, k: &mut Control)
    requires { k.old.pc < 4294967295 }
    ensures { k.new ≡ effect.reused size place k.old }
{
    let _ = k.spare.remove(size);
    set_block(size, place.saturating_sub(1), k);
}

/// The block at a goes back, of the size that its size word told.
pub fn give_back(old: u64, limits: Limits, at: Span, k: &mut Control)
    requires { k.old.pc < 4294967295 }
    ensures { k.new ≡ effect.given_back old limits at k.old }
{
    if 0 < old && old <= limits.words {
        k.spare.add(old, k.registers.a);
        k.pc += 1;
    } else {
        meet(StopKind::Undefined(Undef::U11, at), k);
    }
}

ghost use Rattle.std.specs.Prelude.{◌≡◌, ◌<◌};
ghost use Rattle.co_machine.specs.Ready.{IsAllowed, IsSteady};
ghost use Rattle.co_machine.specs.Turn as turn;

use co_code::Instr;
use co_machine::{Due, Limits, Looked, Tally};

// Each instruction is counted.
#[inline(always)]
fn count(t: &mut Tally, limits: Limits)
    requires steady { IsSteady limits t.old }
    requires allowed { t.old.instructions < limits.budget }
    ensures { t.new ≡ turn.counted t.old }
{
    t.instructions += 1;
    t.since += 1;
}

#[inline(always)]
fn count_with(instr: Instr, t: &mut Tally, limits: Limits)
    requires steady { IsSteady limits t.old }
    requires allowed { t.old.instructions < limits.budget }
    ensures { t.new ≡ turn.counted_with instr t.old }
{
    count(t, limits);
    match instr {
        Instr::Made => t.frames_made += 1,
        Instr::Ended => t.frames_ended += 1,
        Instr::Born => t.born += 1,
        Instr::Died => t.died += 1,
        _ => {}
    }
}

#[inline(always)]
fn load_stop(old: u64, t: &mut Tally)
    ensures { t.new ≡ turn.loaded_stop old t.old }
{
    if old == 0 {
        t.since = 0;
    }
}

#[inline(always)]
fn look_round(seen: Looked, t: &mut Tally)
    requires { t.old.idles < 4294967296 }
    ensures { t.new ≡ turn.looked_round seen t.old }
{
    match seen {
        Looked::Empty => t.idles += 1,
        Looked::Found(_) => {}
        Looked::Next => {}
    }
}

/// The counts after what is due, whose access found the word `old`; `seen` is what a look's cell answers.
#[inline(always)]
pub fn tally(due: Due, seen: Looked, old: u64, t: &mut Tally, limits: Limits)
    requires steady { IsSteady limits t.old }
    requires allowed { IsAllowed due limits t.old }
    requires idles { t.old.idles < 4294967296 }
    ensures { t.new ≡ turn.tallied due seen old t.old }
{
    match due {
        Due::Rest => {}
        Due::Stamp(_) => {}
        Due::Halt(_, _) => {}
        Due::LoadStop => load_stop(old, t),
        Due::LookStop => load_stop(old, t),
        Due::LookMain => {}
        Due::LookCell => look_round(seen, t),
        Due::Spent => {}
        Due::Do(instr) => count_with(instr, t, limits),
        Due::Meet(_) => count(t, limits),
        Due::PassTaken => count(t, limits),
        Due::ResumeTaken(_) => count(t, limits),
        Due::Pass => count(t, limits),
        Due::Reuse(_, _) => count(t, limits),
        Due::Call(_, _) => count(t, limits),
        Due::Park(_) => count(t, limits),
    }
}

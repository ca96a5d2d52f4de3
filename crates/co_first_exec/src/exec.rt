ghost use Rattle.std.specs.Prelude.{◌≡◌, ◌≢◌, ℕ, ◌+◌, ◌-◌, ◌^◌, ◌<◌, ◌≤◌, length, IsTrue, IsFalse};
ghost use mir.Val.{to_z, of_z};
ghost use mir.Syntax.{w64};
ghost use Rattle.co_first_exec.specs.declared.instr.Stop.TheVariants.{Running};
ghost use Rattle.co_first_exec.specs.Machine as machine;

use crate::instr::{Image, Instr, Placed, Stop};
use crate::local::Local;
use crate::turn::{Access, Computed, Due};
use crate::words::Words;
use co_base::{Limit, Num, Op, Span, Undef};
use sqlite_items::Items;

const UNLAWFUL: Stop = Stop::Undefined(Undef::U12, Span { line: 0, col: 0 });

/// One turn of the run: the instruction that is due with at most one access to the words, or the stop that it meets.
/// A run that has stopped stays as it is.
pub fn exec_one(image: &Image, local: &mut Local)
    ensures { local.new ≡ machine.turn image.now.code local.old }
{
    let due = due(&image.code, local);
    let access = ask(due, local);
    let old = make(access, &mut local.words);
    settle_turn(due, local, old);
}

// What the next turn does.
fn due(code: &Items<Placed>, local: &Local) -> Due
    ensures meaning { result ≡ machine.due code.now local.now }
    ensures ready { machine.IsReady result local.now }
    ensures within { machine.IsWithin (machine.ask result local.now) (length local.now.words) }
{
    match local.stop {
        Stop::Running => due_running(code, local),
        _ => Due::Nothing,
    }
}

fn due_running(code: &Items<Placed>, local: &Local) -> Due
    ensures meaning { result ≡ machine.due_running code.now local.now }
    ensures ready { machine.IsReady result local.now }
    ensures within { machine.IsWithin (machine.ask result local.now) (length local.now.words) }
{
    if local.made >= local.budget {
        return Due::OutOfBudget;
    }
    let _size = code.len();
    match code.get(local.place as usize) {
        None => Due::Meets(UNLAWFUL),
        Some(placed) => checked(local, *placed),
    }
}

// The instruction, or the stop that it meets.
fn checked(local: &Local, placed: Placed) -> Due
    requires made { local.now.made + 1 < 2 ^ 64 }
    requires place { local.now.place + 1 < 2 ^ 64 }
    ensures meaning { result ≡ machine.checked local.now (Some placed) }
    ensures ready { machine.IsReady result local.now }
    ensures within { machine.IsWithin (machine.ask result local.now) (length local.now.words) }
{
    if is_lawful(local, placed.instr) {
        Due::Does(placed.instr, placed.span)
    } else {
        Due::Meets(met(placed.instr))
    }
}

fn is_lawful(local: &Local, instr: Instr) -> bool
    ensures value { result ≡ machine.lawful local.now instr }
    ensures room { IsTrue result → machine.HasRoom instr local.now }
    ensures within { IsTrue result → machine.IsWithin (machine.ask_of instr local.now) (length local.now.words) }
{
    match instr {
        Instr::Load => local.a < local.words.len(),
        Instr::Store => local.b < local.words.len(),
        Instr::Push => local.sp < local.words.len(),
        Instr::Pop => {
            if local.sp == 0 {
                return false;
            }
            local.sp - 1 < local.words.len()
        }
        Instr::Print => local.prints.len() < 65536,
        _ => true,
    }
}

fn met(instr: Instr) -> Stop
    ensures { result ≡ machine.met instr }
{
    match instr {
        Instr::Push => Stop::Limit(Limit::Stack),
        Instr::Print => Stop::Limit(Limit::Prints),
        _ => UNLAWFUL,
    }
}

// The access of the turn.
fn ask(due: Due, local: &Local) -> Access
    requires { machine.IsReady due local.now }
    ensures { result ≡ machine.ask due local.now }
{
    match due {
        Due::Does(Instr::Load, _) => Access::Loads(local.a),
        Due::Does(Instr::Store, _) => Access::Stores(local.b, local.a),
        Due::Does(Instr::Push, _) => Access::Stores(local.sp, local.a),
        Due::Does(Instr::Pop, _) => Access::Loads(local.sp - 1),
        _ => Access::Private,
    }
}

// Makes the access, and answers the word that it found, or 0.
fn make(access: Access, words: &mut Words) -> u64
    requires { machine.IsWithin access (length words.old) }
    ensures word { result ≡ machine.old_of access words.old }
    ensures words { words.new ≡ machine.after access words.old }
{
    match access {
        Access::Private => 0,
        Access::Loads(at) => words.load(at),
        Access::Stores(at, word) => {
            words.store(at, word);
            0
        }
    }
}

// The state after what is due.
fn settle_turn(due: Due, local: &mut Local, old: u64)
    requires { machine.IsReady due local.old }
    ensures { local.new ≡ machine.instr due local.old old }
{
    match due {
        Due::Nothing => {}
        Due::OutOfBudget => local.stop = Stop::Budget,
        Due::Meets(stop) => {
            local.made += 1;
            local.stop = stop;
        }
        Due::Does(instr, span) => {
            local.made += 1;
            act(instr, span, local, old);
        }
    }
}

// The registers, the place and the prints after the instruction.
fn act(instr: Instr, span: Span, local: &mut Local, old: u64)
    requires place { local.old.place + 1 < 2 ^ 64 }
    requires room { machine.HasRoom instr local.old }
    ensures { local.new ≡ machine.act instr span local.old old }
{
    match instr {
        Instr::Const(v) => local.a = v.cast_unsigned(),
        Instr::Arith(op, num) => return act_arith(op, num, span, local),
        Instr::Slot(k) => local.a = local.fp as u64 + k as u64,
        Instr::Load => local.a = old,
        Instr::Store => {}
        Instr::Push => local.sp += 1,
        Instr::Pop => {
            local.b = old;
            local.sp -= 1;
        }
        Instr::Jump(place) => {
            local.place = place;
            return;
        }
        Instr::JumpZ(place) => return branch(place, local),
        Instr::Print => local.prints.push(local.a.cast_signed()),
        Instr::MainRet => {
            local.stop = Stop::Main(0);
            return;
        }
    }
    local.place += 1;
}

fn act_arith(op: Op, num: Num, span: Span, local: &mut Local)
    requires { local.old.place + 1 < 2 ^ 64 }
    ensures { local.new ≡ machine.settle (machine.computed op num (to_z w64 local.old.b) (to_z w64 local.old.a)) span local.old }
{
    match compute(op, num, local.b.cast_signed(), local.a.cast_signed()) {
        Computed::Value(v) => {
            local.a = v.cast_unsigned();
            local.place += 1;
        }
        Computed::Outside => local.stop = Stop::Undefined(Undef::U5, span),
        Computed::Absent => local.stop = UNLAWFUL,
    }
}

fn compute(op: Op, num: Num, x: i64, y: i64) -> Computed
    ensures { result ≡ machine.computed op num x y }
{
    let value = match (op, num) {
        (Op::Add, Num::Long) => x.checked_add(y),
        (Op::Sub, Num::Long) => x.checked_sub(y),
        _ => return Computed::Absent,
    };
    match value {
        Some(v) => Computed::Value(v),
        None => Computed::Outside,
    }
}

fn branch(place: u64, local: &mut Local)
    requires { local.old.place + 1 < 2 ^ 64 }
    ensures { local.new ≡ machine.branch local.old.a place local.old }
{
    if local.a == 0 {
        local.place = place;
    } else {
        local.place += 1;
    }
}

/// Takes turns until the run has stopped.
pub fn run(image: &Image, local: &mut Local)
    ensures turns { (n : ℕ) × (local.new ≡ machine.turns image.now.code n local.old) }
    ensures stopped { local.new.stop ≢ Running }
{
    while is_running(local) {
        exec_one(image, local);
    }
}

fn is_running(local: &Local) -> bool
    ensures running { IsTrue result → local.now.stop ≡ Running }
    ensures stopped { IsFalse result → local.now.stop ≢ Running }
{
    matches!(local.stop, Stop::Running)
}

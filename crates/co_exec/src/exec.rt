ghost use Rattle.std.specs.Prelude.{◌≡◌, ◌<◌, ◌≤◌, ◌+◌, ℕ, IfSome, IsTrue};
ghost use Rattle.co_exec.specs.Fetched.{IsFetched};
ghost use Rattle.co_words.specs.declared.access.Access.{Access};
ghost use Rattle.co_machine.specs.Effect.{ask_due, ask_of, cell, post_answer, post_cell, post_cell_tried, look_answer as looked_at, look_cell_seen};
ghost use Rattle.co_machine.specs.Ready.{HasRoom, IsAllowed, IsReady, IsSteady, IsWithin, MakesBy};
ghost use Rattle.co_machine.specs.Turn as turn;

use crate::due::{
    await_handle_due, await_void_due, below_top, calling, due, global_due, not_null, pop_due,
    push_due, reach_a, reach_b, resume_due, ret_due, suspend_due,
};
use crate::effect::effect;
use crate::local::Local;
use crate::tally::tally;
use co_base::Undef;
use co_code::{Image, Instr, Register};
use co_exec_rows::board;
use co_exec_rows::storage::asked;
use co_exec_rows::values::{packed, span_at};
use co_machine::{Control, Due, Looked, Next, Posted, State, StopKind, Turn};
use co_words::{Access, Words};

/// One turn of the worker: it makes the access `ask`, at most one, or none, and leaves the state `instr`. A worker that
/// has answered a stop stays as it is. It takes no memory.
pub fn exec_one<W: Words>(image: &Image, inputs: &[i64], local: &mut Local, words: &mut W) -> Turn
    requires size { W.count words.old ≡ local.old.limits.words }
    requires idles { local.old.tally.idles < 4294967296 }
    ensures turn { (old : ℕ) × MakesBy W.gives words.old (turn.ask image.now local.old) old words.new × (local.new ≡ turn.instr image.now inputs.now local.old old) × (result ≡ turn.turn_answer image.now local.old old) }
    ensures size { W.count words.new ≡ W.count words.old }
    ensures limits { local.new.limits ≡ local.old.limits }
    ensures idles { local.new.tally.idles ≡ local.old.tally.idles + turn.idled result }
{
    take_turn(image, inputs, &mut local.state, words)
}

/// A post tries one cell of the board, the one after those that it found full.
pub fn post<W: Words>(local: &mut Local, words: &mut W, handle: u64) -> Posted
    requires handle { 1 ≤ handle }
    requires size { 65552 ≤ W.count words.old }
    ensures turn { (old : ℕ) × W.gives words.old (Access.Cas (cell (post_cell local.old.control)) 0 handle) old words.new × (local.new ≡ record local.old { control = post_cell_tried old local.old.control }) × (result ≡ post_answer old local.old.control) }
    ensures size { W.count words.new ≡ W.count words.old }
{
    let at = 16 + board::post_cell(&local.state.control) as u64;
    let old = words.cas(at, 0, handle);
    board::try_cell(old, &mut local.state.control)
}

/// A look swaps one cell of the board with 0, the one after the cell that was looked at last.
pub fn look<W: Words>(local: &mut Local, words: &mut W) -> Looked
    requires { 65552 ≤ W.count words.old }
    ensures turn { (old : ℕ) × W.gives words.old (Access.Swap (cell local.old.control.look) 0) old words.new × (local.new ≡ record local.old { control = look_cell_seen old local.old.control }) × (result ≡ looked_at old local.old.control) }
    ensures size { W.count words.new ≡ W.count words.old }
{
    let at = 16 + local.state.control.look as u64;
    let old = words.swap(at, 0);
    board::see_cell(old, &mut local.state.control)
}

fn take_turn<W: Words>(image: &Image, inputs: &[i64], s: &mut State, words: &mut W) -> Turn
    requires size { W.count words.old ≡ s.old.limits.words }
    requires idles { s.old.tally.idles < 4294967296 }
    requires steady { IsSteady s.old.limits s.old.tally }
    ensures turn { (old : ℕ) × MakesBy W.gives words.old (turn.ask image.now s.old) old words.new × (s.new ≡ turn.instr image.now inputs.now s.old old) × (result ≡ turn.turn_answer image.now s.old old) }
    ensures size { W.count words.new ≡ W.count words.old }
    ensures limits { s.new.limits ≡ s.old.limits }
    ensures idles { s.new.tally.idles ≡ s.old.tally.idles + turn.idled result }
    ensures steady { IsSteady s.new.limits s.new.tally }
{
    match fetch(image, s) {
        None => any_turn(image, inputs, s, words),
        Some(instr) => common_turn(image, inputs, instr, s, words),
    }
}

// The instruction that is due, where neither a load of word 2 nor the end of the budget comes first.
#[inline(always)]
fn fetch(image: &Image, s: &State) -> Option<Instr>
    ensures { IfSome result (λ i. IsFetched image.now s.now i) }
{
    if !is_instruction(s.control.next) {
        return None;
    }
    if s.tally.since >= 1024 {
        return None;
    }
    if s.tally.instructions >= s.limits.budget {
        return None;
    }
    if s.control.pc == 4294967295 {
        return None;
    }
    image.code.get(s.control.pc as usize).copied()
}

#[inline(always)]
fn is_instruction(next: Next) -> bool
    ensures { IsTrue result → next ≡ Next.Instruction }
{
    match next {
        Next::Instruction => true,
        _ => false,
    }
}

// Any turn, by the definition's three parts.
#[inline(never)]
fn any_turn<W: Words>(image: &Image, inputs: &[i64], s: &mut State, words: &mut W) -> Turn
    requires size { W.count words.old ≡ s.old.limits.words }
    requires idles { s.old.tally.idles < 4294967296 }
    requires steady { IsSteady s.old.limits s.old.tally }
    ensures turn { (old : ℕ) × MakesBy W.gives words.old (turn.ask image.now s.old) old words.new × (s.new ≡ turn.instr image.now inputs.now s.old old) × (result ≡ turn.turn_answer image.now s.old old) }
    ensures size { W.count words.new ≡ W.count words.old }
    ensures limits { s.new.limits ≡ s.old.limits }
    ensures idles { s.new.tally.idles ≡ s.old.tally.idles + turn.idled result }
    ensures steady { IsSteady s.new.limits s.new.tally }
{
    let due = due(image, s.limits, s.tally, &s.control);
    finish(image, inputs, due, s, words)
}

// The turn whose tests are made.
#[inline(always)]
fn finish<W: Words>(image: &Image, inputs: &[i64], due: Due, s: &mut State, words: &mut W) -> Turn
    requires size { W.count words.old ≡ s.old.limits.words }
    requires idles { s.old.tally.idles < 4294967296 }
    requires steady { IsSteady s.old.limits s.old.tally }
    requires due { due ≡ turn.due image.now s.old }
    requires ready { IsReady due s.old.control }
    requires within { IsWithin (ask_due due s.old.control) s.old.limits.words }
    requires allowed { IsAllowed due s.old.limits s.old.tally }
    ensures turn { (old : ℕ) × MakesBy W.gives words.old (turn.ask image.now s.old) old words.new × (s.new ≡ turn.instr image.now inputs.now s.old old) × (result ≡ turn.turn_answer image.now s.old old) }
    ensures size { W.count words.new ≡ W.count words.old }
    ensures limits { s.new.limits ≡ s.old.limits }
    ensures idles { s.new.tally.idles ≡ s.old.tally.idles + turn.idled result }
    ensures steady { IsSteady s.new.limits s.new.tally }
{
    let old = reach(ask(due, &s.control), words);
    settle(image, inputs, due, s, old)
}

// The turn whose tests are made; where it meets a stop, it is not a common one.
#[inline(always)]
fn tested_turn<W: Words>(
    image: &Image,
    inputs: &[i64],
    due: Due,
    s: &mut State,
    words: &mut W,
) -> Turn
    requires size { W.count words.old ≡ s.old.limits.words }
    requires idles { s.old.tally.idles < 4294967296 }
    requires steady { IsSteady s.old.limits s.old.tally }
    requires due { due ≡ turn.due image.now s.old }
    requires ready { IsReady due s.old.control }
    requires within { IsWithin (ask_due due s.old.control) s.old.limits.words }
    requires allowed { IsAllowed due s.old.limits s.old.tally }
    ensures turn { (old : ℕ) × MakesBy W.gives words.old (turn.ask image.now s.old) old words.new × (s.new ≡ turn.instr image.now inputs.now s.old old) × (result ≡ turn.turn_answer image.now s.old old) }
    ensures size { W.count words.new ≡ W.count words.old }
    ensures limits { s.new.limits ≡ s.old.limits }
    ensures idles { s.new.tally.idles ≡ s.old.tally.idles + turn.idled result }
    ensures steady { IsSteady s.new.limits s.new.tally }
{
    match due {
        Due::Meet(_) => any_turn(image, inputs, s, words),
        _ => finish(image, inputs, due, s, words),
    }
}

// An instruction that is common is known where it is made, so that nothing is asked twice of it.
#[inline(always)]
fn common_turn<W: Words>(
    image: &Image,
    inputs: &[i64],
    instr: Instr,
    s: &mut State,
    words: &mut W,
) -> Turn
    requires size { W.count words.old ≡ s.old.limits.words }
    requires idles { s.old.tally.idles < 4294967296 }
    requires steady { IsSteady s.old.limits s.old.tally }
    requires fetched { IsFetched image.now s.old instr }
    ensures turn { (old : ℕ) × MakesBy W.gives words.old (turn.ask image.now s.old) old words.new × (s.new ≡ turn.instr image.now inputs.now s.old old) × (result ≡ turn.turn_answer image.now s.old old) }
    ensures size { W.count words.new ≡ W.count words.old }
    ensures limits { s.new.limits ≡ s.old.limits }
    ensures idles { s.new.tally.idles ≡ s.old.tally.idles + turn.idled result }
    ensures steady { IsSteady s.new.limits s.new.tally }
{
    let limits = s.limits;
    let at = span_at(image, s.control.pc);
    match instr {
        Instr::Const(v) => finish(image, inputs, Due::Do(Instr::Const(v)), s, words),
        Instr::Move(to, from) => finish(image, inputs, Due::Do(Instr::Move(to, from)), s, words),
        Instr::Convert(num) => finish(image, inputs, Due::Do(Instr::Convert(num)), s, words),
        Instr::Arith(op, num) => finish(image, inputs, Due::Do(Instr::Arith(op, num)), s, words),
        Instr::Slot(n) => finish(image, inputs, Due::Do(Instr::Slot(n)), s, words),
        Instr::AtSlot(n) => finish(image, inputs, Due::Do(Instr::AtSlot(n)), s, words),
        Instr::Field(n) => finish(image, inputs, Due::Do(Instr::Field(n)), s, words),
        Instr::Jump(place) => finish(image, inputs, Due::Do(Instr::Jump(place)), s, words),
        Instr::JumpZ(place) => finish(image, inputs, Due::Do(Instr::JumpZ(place)), s, words),
        Instr::Global(n) => {
            let due = global_due(image, n, limits, &s.control);
            tested_turn(image, inputs, due, s, words)
        }
        Instr::Check => {
            let due = not_null(limits, &s.control, Undef::U4, at, Due::Pass);
            tested_turn(image, inputs, due, s, words)
        }
        Instr::Load(_) => {
            let due = reach_a(limits, &s.control, at, instr);
            tested_turn(image, inputs, due, s, words)
        }
        Instr::Store(_) => {
            let due = reach_b(limits, &s.control, at, instr);
            tested_turn(image, inputs, due, s, words)
        }
        Instr::Push => {
            let due = push_due(limits, &s.control, at);
            tested_turn(image, inputs, due, s, words)
        }
        Instr::Pop(Register::A) => {
            let due = pop_due(Register::A, limits, &s.control, at);
            tested_turn(image, inputs, due, s, words)
        }
        Instr::Pop(Register::B) => {
            let due = pop_due(Register::B, limits, &s.control, at);
            tested_turn(image, inputs, due, s, words)
        }
        Instr::Pop(Register::C) => {
            let due = pop_due(Register::C, limits, &s.control, at);
            tested_turn(image, inputs, due, s, words)
        }
        Instr::Pop(Register::D) => {
            let due = pop_due(Register::D, limits, &s.control, at);
            tested_turn(image, inputs, due, s, words)
        }
        Instr::Drop(n) => {
            let due = below_top(n, limits, &s.control, at, Instr::Drop(n));
            tested_turn(image, inputs, due, s, words)
        }
        Instr::Call(n) => {
            let due = calling(image, n, limits, &s.control);
            tested_turn(image, inputs, due, s, words)
        }
        Instr::Ret => {
            let due = ret_due(limits, &s.control, at);
            tested_turn(image, inputs, due, s, words)
        }
        Instr::Suspend(n) => {
            let due = suspend_due(image, n, limits, &s.control, at);
            tested_turn(image, inputs, due, s, words)
        }
        Instr::AwaitVoid => {
            let due = await_void_due(limits, &s.control, at);
            tested_turn(image, inputs, due, s, words)
        }
        Instr::AwaitHandle => {
            let due = await_handle_due(limits, &s.control, at);
            tested_turn(image, inputs, due, s, words)
        }
        Instr::Resume => {
            let due = resume_due(limits, &s.control, at, Instr::Resume);
            tested_turn(image, inputs, due, s, words)
        }
        _ => any_turn(image, inputs, s, words),
    }
}

// The access of what is due.
#[inline(always)]
fn ask(due: Due, k: &Control) -> Option<Access>
    requires { IsReady due k.now }
    ensures { result ≡ ask_due due k.now }
{
    match due {
        Due::Stamp(_) => Some(Access::Add(1, 1)),
        Due::Halt(_, _) => Some(Access::Store(2, 1)),
        Due::LoadStop => Some(Access::Load(2)),
        Due::LookStop => Some(Access::Load(2)),
        Due::LookMain => Some(Access::Load(5)),
        Due::LookCell => Some(Access::Swap(16 + k.look as u64, 0)),
        Due::ResumeTaken(handle) => Some(Access::Swap(handle, 0)),
        Due::Park(word) => Some(Access::Store(k.fp, word)),
        Due::Do(instr) => ask_instr(instr, k),
        Due::Rest => None,
        Due::Spent => None,
        Due::Meet(_) => None,
        Due::PassTaken => None,
        Due::Pass => None,
        Due::Reuse(_, _) => None,
        Due::Call(_, _) => None,
    }
}

#[inline(always)]
fn ask_instr(instr: Instr, k: &Control) -> Option<Access>
    requires { HasRoom instr k.now }
    ensures { result ≡ ask_of instr k.now }
{
    let a = k.registers.a;
    let b = k.registers.b;
    match instr {
        Instr::Load(_) => Some(Access::Load(a)),
        Instr::Store(_) => Some(Access::Store(b, a)),
        Instr::Push => Some(Access::Store(k.sp, a)),
        Instr::Pop(_) => Some(Access::Load(k.sp.saturating_sub(1))),
        Instr::MainRet => Some(Access::Store(5, 1)),
        Instr::Take => Some(Access::Add(3, asked(k) + 1)),
        Instr::Give => Some(Access::Swap(a.saturating_sub(1), 0)),
        Instr::Number => Some(Access::Add(4, 1)),
        Instr::AwaitBool => Some(Access::Cas(k.top.place, k.top.word, 0)),
        Instr::Unpark => Some(Access::Cas(k.top.place, k.top.word, 0)),
        Instr::AwaitHandle => Some(Access::Swap(a, 0)),
        Instr::Resume => Some(Access::Swap(a, 0)),
        Instr::Destroy => Some(Access::Swap(a, 0)),
        Instr::Done => Some(Access::Load(a)),
        Instr::Post => Some(Access::Cas(16 + board::post_cell(k) as u64, 0, a)),
        Instr::ALoad(_) => Some(Access::Load(a)),
        Instr::AStore(kind) => Some(Access::Store(b, packed(kind, a))),
        Instr::ASwap(kind) => Some(Access::Swap(b, packed(kind, a))),
        Instr::AAdd(kind) => Some(Access::Add(b, packed(kind, a))),
        Instr::ACas(kind) => Some(Access::Cas(b, packed(kind, k.registers.c), packed(kind, a))),
        Instr::Print => Some(Access::Add(1, 1)),
        Instr::Lit(_) => Some(Access::Add(1, 1)),
        _ => None,
    }
}

// Makes the access, and answers the word that it found, or 0.
#[inline(always)]
fn reach<W: Words>(access: Option<Access>, words: &mut W) -> u64
    requires { IsWithin access (W.count words.old) }
    ensures made { MakesBy W.gives words.old access result words.new }
    ensures size { W.count words.new ≡ W.count words.old }
{
    match access {
        None => 0,
        Some(Access::Load(at)) => words.load(at),
        Some(Access::Store(at, v)) => {
            words.store(at, v);
            0
        }
        Some(Access::Swap(at, v)) => words.swap(at, v),
        Some(Access::Add(at, v)) => words.add(at, v),
        Some(Access::Cas(at, was, v)) => words.cas(at, was, v),
    }
}

// What the turn leaves and answers.
#[inline(always)]
fn settle(image: &Image, inputs: &[i64], due: Due, s: &mut State, old: u64) -> Turn
    requires idles { s.old.tally.idles < 4294967296 }
    requires steady { IsSteady s.old.limits s.old.tally }
    requires allowed { IsAllowed due s.old.limits s.old.tally }
    requires ready { IsReady due s.old.control }
    ensures state { s.new ≡ turn.left_by image.now inputs.now due s.old old }
    ensures answer { result ≡ turn.answer_of due s.old.control old }
    ensures limits { s.new.limits ≡ s.old.limits }
    ensures idles { s.new.tally.idles ≡ s.old.tally.idles + turn.idled result }
    ensures steady { IsSteady s.new.limits s.new.tally }
{
    let limits = s.limits;
    let seen = look_answer(old, &s.control);
    let answer = answer(due, seen, old);
    tally(due, seen, old, &mut s.tally, limits);
    effect(image, inputs, limits, due, &mut s.control, old);
    answer
}

#[inline(always)]
fn look_answer(old: u64, k: &Control) -> Looked
    ensures { result ≡ looked_at old k.now }
{
    if old != 0 {
        return Looked::Found(old);
    }
    if k.zeros == 65535 {
        return Looked::Empty;
    }
    Looked::Next
}

// What the turn answers; `seen` is what a look's cell answers.
#[inline(always)]
fn answer(due: Due, seen: Looked, old: u64) -> Turn
    ensures { result ≡ turn.answer_by due seen old }
{
    match due {
        Due::LoadStop => seen_or_went(old),
        Due::LookStop => seen_or_went(old),
        Due::LookCell => look_turn(seen),
        Due::Halt(_, kind) => Turn::Stop(kind),
        Due::Rest => Turn::Went,
        Due::Stamp(_) => Turn::Went,
        Due::LookMain => Turn::Went,
        Due::Spent => Turn::Went,
        Due::Meet(_) => Turn::Went,
        Due::PassTaken => Turn::Went,
        Due::ResumeTaken(_) => Turn::Went,
        Due::Pass => Turn::Went,
        Due::Reuse(_, _) => Turn::Went,
        Due::Do(_) => Turn::Went,
        Due::Call(_, _) => Turn::Went,
        Due::Park(_) => Turn::Went,
    }
}

#[inline(always)]
fn seen_or_went(old: u64) -> Turn
    ensures { result ≡ turn.seen_or_went old }
{
    if old == 0 {
        Turn::Went
    } else {
        Turn::Stop(StopKind::Seen)
    }
}

#[inline(always)]
fn look_turn(seen: Looked) -> Turn
    ensures { result ≡ turn.looked_turn seen }
{
    match seen {
        Looked::Empty => Turn::Idle,
        Looked::Found(_) => Turn::Went,
        Looked::Next => Turn::Went,
    }
}

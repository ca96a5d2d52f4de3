ghost use Rattle.std.specs.Prelude.{◌≡◌, ◌<◌, ◌≤◌, ◌-◌, ◌==◌, pos, length, nat_lt, slice_get, Some, if◌then◌else◌};
ghost use Rattle.co_machine.specs.Check as check;
ghost use Rattle.co_machine.specs.Effect.{ask_due, ask_of};
ghost use Rattle.co_words.specs.Storage.{newest_of};
ghost use Rattle.co_machine.specs.Ready.{HasRoom, IsAllowed, IsReady, IsTo, IsWithin};

use co_base::{Limit, Span, Undef};
use co_code::{Image, Instr, PointCode, Register};
use co_exec_rows::storage::asked;
use co_exec_rows::values::{NOWHERE, is_lawful, span_at, state_word};
use co_machine::{Control, Due, Limits, Next, StopKind, Tally};

const UNLAWFUL: Due = Due::Meet(StopKind::Undefined(Undef::U12, NOWHERE));

// An access to the word at a.
#[inline(always)]
pub(crate) fn reach_a(limits: Limits, k: &Control, at: Span, instr: Instr) -> Due
    requires place { k.now.pc < 4294967295 }
    requires room { HasRoom instr k.now }
    requires to { IsTo (ask_of instr k.now) k.now.registers.a }
    ensures meaning { result ≡ check.reaching limits k.now.registers.a at (Due.Do instr) }
    ensures ready { IsReady result k.now }
    ensures within { IsWithin (ask_due result k.now) limits.words }
{
    if !is_lawful(limits, k.registers.a) {
        return Due::Meet(StopKind::Undefined(Undef::U12, at));
    }
    Due::Do(instr)
}

// An access to the word at b.
#[inline(always)]
pub(crate) fn reach_b(limits: Limits, k: &Control, at: Span, instr: Instr) -> Due
    requires place { k.now.pc < 4294967295 }
    requires room { HasRoom instr k.now }
    requires to { IsTo (ask_of instr k.now) k.now.registers.b }
    ensures meaning { result ≡ check.reaching limits k.now.registers.b at (Due.Do instr) }
    ensures ready { IsReady result k.now }
    ensures within { IsWithin (ask_due result k.now) limits.words }
{
    if !is_lawful(limits, k.registers.b) {
        return Due::Meet(StopKind::Undefined(Undef::U12, at));
    }
    Due::Do(instr)
}

// What a test of the instruction's own stack decides: so many words below sp.
#[inline(always)]
pub(crate) fn below_top(n: u32, limits: Limits, k: &Control, at: Span, instr: Instr) -> Due
    requires place { k.now.pc < 4294967295 }
    requires room { HasRoom instr k.now }
    requires within { IsWithin (ask_of instr k.now) limits.words }
    ensures meaning { result ≡ check.below_top n k.now at (Due.Do instr) }
    ensures ready { IsReady result k.now }
    ensures within { IsWithin (ask_due result k.now) limits.words }
{
    if k.sp.saturating_sub(k.stack) < n as u64 {
        return Due::Meet(StopKind::Undefined(Undef::U12, at));
    }
    Due::Do(instr)
}

fn print_due(limits: Limits, k: &Control, instr: Instr) -> Due
    requires place { k.now.pc < 4294967295 }
    requires room { length k.now.prints < 65536 → HasRoom instr k.now }
    requires within { IsWithin (ask_of instr k.now) limits.words }
    ensures meaning { result ≡ check.printing k.now (Due.Do instr) }
    ensures ready { IsReady result k.now }
    ensures within { IsWithin (ask_due result k.now) limits.words }
{
    if k.prints.len() >= 65536 {
        return Due::Meet(StopKind::Limit(Limit::Prints));
    }
    Due::Do(instr)
}

// The resume or the destroy of the coroutine of the handle a.
#[inline(always)]
pub(crate) fn resume_due(limits: Limits, k: &Control, at: Span, instr: Instr) -> Due
    requires place { k.now.pc < 4294967295 }
    requires room { length k.now.below < 1023 → HasRoom instr k.now }
    requires to { IsTo (ask_of instr k.now) k.now.registers.a }
    ensures meaning { result ≡ check.not_null k.now.registers.a Undef.U4 at (check.unless_noop k.now.registers.a Due.Pass (check.reaching limits k.now.registers.a at (check.entering k.now (Due.Do instr)))) }
    ensures ready { IsReady result k.now }
    ensures within { IsWithin (ask_due result k.now) limits.words }
{
    if k.registers.a == 0 {
        return Due::Meet(StopKind::Undefined(Undef::U4, at));
    }
    if k.registers.a == 6 {
        return Due::Pass;
    }
    if !is_lawful(limits, k.registers.a) {
        return Due::Meet(StopKind::Undefined(Undef::U12, at));
    }
    if k.below.len() >= 1023 {
        return Due::Meet(StopKind::Limit(Limit::Control));
    }
    Due::Do(instr)
}

// An instruction that null in a refuses.
#[inline(always)]
pub(crate) fn not_null(limits: Limits, k: &Control, u: Undef, at: Span, due: Due) -> Due
    requires ready { IsReady due k.now }
    requires within { IsWithin (ask_due due k.now) limits.words }
    ensures meaning { result ≡ check.not_null k.now.registers.a u at due }
    ensures ready { IsReady result k.now }
    ensures within { IsWithin (ask_due result k.now) limits.words }
{
    if k.registers.a == 0 {
        return Due::Meet(StopKind::Undefined(u, at));
    }
    due
}

#[inline(always)]
pub(crate) fn push_due(limits: Limits, k: &Control, at: Span) -> Due
    requires { k.now.pc < 4294967295 }
    ensures meaning { result ≡ check.above_top 1 k.now (check.reaching limits k.now.sp at (Due.Do Instr.Push)) }
    ensures ready { IsReady result k.now }
    ensures within { IsWithin (ask_due result k.now) limits.words }
{
    if k.stack_end.saturating_sub(k.sp) < 1 {
        return Due::Meet(StopKind::Limit(Limit::Stack));
    }
    if !is_lawful(limits, k.sp) {
        return Due::Meet(StopKind::Undefined(Undef::U12, at));
    }
    Due::Do(Instr::Push)
}

#[inline(always)]
pub(crate) fn pop_due(to: Register, limits: Limits, k: &Control, at: Span) -> Due
    requires { k.now.pc < 4294967295 }
    ensures meaning { result ≡ check.below_top 1 k.now at (check.reaching limits (k.now.sp - 1) at (Due.Do (Instr.Pop to))) }
    ensures ready { IsReady result k.now }
    ensures within { IsWithin (ask_due result k.now) limits.words }
{
    if k.sp.saturating_sub(k.stack) < 1 {
        return Due::Meet(StopKind::Undefined(Undef::U12, at));
    }
    if !is_lawful(limits, k.sp.saturating_sub(1)) {
        return Due::Meet(StopKind::Undefined(Undef::U12, at));
    }
    Due::Do(Instr::Pop(to))
}

fn raise_due(n: u32, limits: Limits, k: &Control) -> Due
    requires { k.now.pc < 4294967295 }
    ensures meaning { result ≡ check.above_top n k.now (Due.Do (Instr.Raise n)) }
    ensures ready { IsReady result k.now }
    ensures within { IsWithin (ask_due result k.now) limits.words }
{
    if k.stack_end.saturating_sub(k.sp) < n as u64 {
        return Due::Meet(StopKind::Limit(Limit::Stack));
    }
    Due::Do(Instr::Raise(n))
}

fn begin_due(place: u32, limits: Limits, k: &Control) -> Due
    requires { k.now.pc < 4294967295 }
    ensures meaning { result ≡ check.entering k.now (Due.Do (Instr.Begin place)) }
    ensures ready { IsReady result k.now }
    ensures within { IsWithin (ask_due result k.now) limits.words }
{
    if k.below.len() >= 1023 {
        return Due::Meet(StopKind::Limit(Limit::Control));
    }
    Due::Do(Instr::Begin(place))
}

#[inline(always)]
fn call_due(entry: u32, words: u32, limits: Limits, k: &Control) -> Due
    requires { k.now.pc < 4294967295 }
    ensures meaning { result ≡ check.entering k.now (check.above_top words k.now (Due.Call entry words)) }
    ensures ready { IsReady result k.now }
    ensures within { IsWithin (ask_due result k.now) limits.words }
{
    if k.below.len() >= 1023 {
        return Due::Meet(StopKind::Limit(Limit::Control));
    }
    if k.stack_end.saturating_sub(k.sp) < words as u64 {
        return Due::Meet(StopKind::Limit(Limit::Stack));
    }
    Due::Call(entry, words)
}

#[inline(always)]
pub(crate) fn calling(image: &Image, n: u32, limits: Limits, k: &Control) -> Due
    requires { k.now.pc < 4294967295 }
    ensures meaning { result ≡ check.calling (slice_get image.now.funcs n) k.now }
    ensures ready { IsReady result k.now }
    ensures within { IsWithin (ask_due result k.now) limits.words }
{
    match image.funcs.get(n as usize) {
        None => UNLAWFUL,
        Some(f) => call_due(f.entry, f.words, limits, k),
    }
}

#[inline(always)]
fn return_due(limits: Limits, k: &Control, at: Span) -> Due
    requires { k.now.pc < 4294967295 }
    ensures meaning { result ≡ check.returning k.now at }
    ensures ready { IsReady result k.now }
    ensures within { IsWithin (ask_due result k.now) limits.words }
{
    if k.below.len() == 0 {
        return Due::Meet(StopKind::Undefined(Undef::U12, at));
    }
    Due::Do(Instr::Ret)
}

#[inline(always)]
pub(crate) fn ret_due(limits: Limits, k: &Control, at: Span) -> Due
    requires { k.now.pc < 4294967295 }
    ensures meaning { result ≡ check.not_parked k.now at (check.returning k.now at) }
    ensures ready { IsReady result k.now }
    ensures within { IsWithin (ask_due result k.now) limits.words }
{
    if k.top.word != 0 {
        return Due::Meet(StopKind::Undefined(Undef::U12, at));
    }
    return_due(limits, k, at)
}

#[inline(always)]
pub(crate) fn await_void_due(limits: Limits, k: &Control, at: Span) -> Due
    requires { k.now.pc < 4294967295 }
    ensures meaning { result ≡ check.parked k.now at (check.returning k.now at) }
    ensures ready { IsReady result k.now }
    ensures within { IsWithin (ask_due result k.now) limits.words }
{
    if k.top.word == 0 {
        return Due::Meet(StopKind::Undefined(Undef::U12, at));
    }
    return_due(limits, k, at)
}

fn await_bool_due(limits: Limits, k: &Control, at: Span) -> Due
    requires { k.now.pc < 4294967295 }
    ensures meaning { result ≡ check.parked k.now at (if k.now.registers.a == 0 then check.reaching limits k.now.top.place at (Due.Do Instr.AwaitBool) else check.returning k.now at) }
    ensures ready { IsReady result k.now }
    ensures within { IsWithin (ask_due result k.now) limits.words }
{
    if k.top.word == 0 {
        return Due::Meet(StopKind::Undefined(Undef::U12, at));
    }
    if k.registers.a != 0 {
        return return_due(limits, k, at);
    }
    if !is_lawful(limits, k.top.place) {
        return Due::Meet(StopKind::Undefined(Undef::U12, at));
    }
    Due::Do(Instr::AwaitBool)
}

fn unpark_due(limits: Limits, k: &Control, at: Span) -> Due
    requires { k.now.pc < 4294967295 }
    ensures meaning { result ≡ check.parked k.now at (check.reaching limits k.now.top.place at (Due.Do Instr.Unpark)) }
    ensures ready { IsReady result k.now }
    ensures within { IsWithin (ask_due result k.now) limits.words }
{
    if k.top.word == 0 {
        return Due::Meet(StopKind::Undefined(Undef::U12, at));
    }
    if !is_lawful(limits, k.top.place) {
        return Due::Meet(StopKind::Undefined(Undef::U12, at));
    }
    Due::Do(Instr::Unpark)
}

#[inline(always)]
pub(crate) fn await_handle_due(limits: Limits, k: &Control, at: Span) -> Due
    requires { k.now.pc < 4294967295 }
    ensures meaning { result ≡ check.parked k.now at (check.not_null k.now.registers.a Undef.U4 at (check.unless_noop k.now.registers.a (check.returning k.now at) (check.reaching limits k.now.registers.a at (Due.Do Instr.AwaitHandle)))) }
    ensures ready { IsReady result k.now }
    ensures within { IsWithin (ask_due result k.now) limits.words }
{
    if k.top.word == 0 {
        return Due::Meet(StopKind::Undefined(Undef::U12, at));
    }
    if k.registers.a == 0 {
        return Due::Meet(StopKind::Undefined(Undef::U4, at));
    }
    if k.registers.a == 6 {
        return return_due(limits, k, at);
    }
    reach_a(limits, k, at, Instr::AwaitHandle)
}

fn done_due(limits: Limits, k: &Control, at: Span) -> Due
    requires { k.now.pc < 4294967295 }
    ensures meaning { result ≡ check.not_null k.now.registers.a Undef.U4 at (check.unless_noop k.now.registers.a (Due.Do (Instr.Const (pos 0))) (check.reaching limits k.now.registers.a at (Due.Do Instr.Done))) }
    ensures ready { IsReady result k.now }
    ensures within { IsWithin (ask_due result k.now) limits.words }
{
    if k.registers.a == 0 {
        return Due::Meet(StopKind::Undefined(Undef::U4, at));
    }
    if k.registers.a == 6 {
        return Due::Do(Instr::Const(0));
    }
    reach_a(limits, k, at, Instr::Done)
}

fn take_due(limits: Limits, k: &Control) -> Due
    requires place { k.now.pc < 4294967295 }
    requires words { (65552 ≤ limits.words) × (limits.words ≤ 16777216) }
    ensures meaning { result ≡ check.taking (newest_of (check.asked k.now) k.now.spare) limits k.now }
    ensures ready { IsReady result k.now }
    ensures within { IsWithin (ask_due result k.now) limits.words }
{
    let size = asked(k);
    if let Some(place) = k.spare.newest(size) {
        return Due::Reuse(size, place);
    }
    if limits.words < size {
        return Due::Meet(StopKind::Limit(Limit::Store));
    }
    Due::Do(Instr::Take)
}

fn give_due(limits: Limits, k: &Control, at: Span) -> Due
    requires { k.now.pc < 4294967295 }
    ensures meaning { result ≡ if k.now.registers.a == 0 then Due.Pass else check.reaching limits (k.now.registers.a - 1) at (Due.Do Instr.Give) }
    ensures ready { IsReady result k.now }
    ensures within { IsWithin (ask_due result k.now) limits.words }
{
    if k.registers.a == 0 {
        return Due::Pass;
    }
    if !is_lawful(limits, k.registers.a.saturating_sub(1)) {
        return Due::Meet(StopKind::Undefined(Undef::U12, at));
    }
    Due::Do(Instr::Give)
}

#[inline(always)]
fn park_due(point: PointCode, n: u32, limits: Limits, k: &Control, at: Span) -> Due
    requires { k.now.pc < 4294967295 }
    ensures meaning { result ≡ check.suspending (Some point) n limits k.now at }
    ensures ready { IsReady result k.now }
    ensures within { IsWithin (ask_due result k.now) limits.words }
{
    if !is_lawful(limits, k.fp) {
        return Due::Meet(StopKind::Undefined(Undef::U12, at));
    }
    Due::Park(state_word(k.top.serial, n, point.resume == point.cleanup))
}

#[inline(always)]
pub(crate) fn suspend_due(image: &Image, n: u32, limits: Limits, k: &Control, at: Span) -> Due
    requires { k.now.pc < 4294967295 }
    ensures meaning { result ≡ check.suspending (slice_get image.now.points n) n limits k.now at }
    ensures ready { IsReady result k.now }
    ensures within { IsWithin (ask_due result k.now) limits.words }
{
    match image.points.get(n as usize) {
        None => UNLAWFUL,
        Some(point) => park_due(*point, n, limits, k, at),
    }
}

#[inline(always)]
pub(crate) fn global_due(image: &Image, n: u32, limits: Limits, k: &Control) -> Due
    requires { k.now.pc < 4294967295 }
    ensures meaning { result ≡ if nat_lt n (length image.now.globals) then Due.Do (Instr.Global n) else check.unlawful }
    ensures ready { IsReady result k.now }
    ensures within { IsWithin (ask_due result k.now) limits.words }
{
    if (n as usize) < image.globals.len() {
        return Due::Do(Instr::Global(n));
    }
    UNLAWFUL
}

fn lit_due(image: &Image, n: u32, limits: Limits, k: &Control) -> Due
    requires place { k.now.pc < 4294967295 }
    requires words { (65552 ≤ limits.words) × (limits.words ≤ 16777216) }
    ensures meaning { result ≡ (if nat_lt n (length image.now.texts) then check.printing k.now (Due.Do (Instr.Lit n)) else check.unlawful) }
    ensures ready { IsReady result k.now }
    ensures within { IsWithin (ask_due result k.now) limits.words }
{
    if (n as usize) < image.texts.len() {
        return print_due(limits, k, Instr::Lit(n));
    }
    UNLAWFUL
}

// The instruction, or the stop that it meets before its access.
fn checked(image: &Image, limits: Limits, k: &Control, at: Span, instr: Instr) -> Due
    requires place { k.now.pc < 4294967295 }
    requires words { (65552 ≤ limits.words) × (limits.words ≤ 16777216) }
    ensures meaning { result ≡ check.checked image.now limits k.now at instr }
    ensures ready { IsReady result k.now }
    ensures within { IsWithin (ask_due result k.now) limits.words }
{
    match instr {
        Instr::Global(n) => global_due(image, n, limits, k),
        Instr::Check => not_null(limits, k, Undef::U4, at, Due::Pass),
        Instr::CheckNew => not_null(limits, k, Undef::U10, at, Due::Pass),
        Instr::Load(_) => reach_a(limits, k, at, instr),
        Instr::Store(_) => reach_b(limits, k, at, instr),
        Instr::Push => push_due(limits, k, at),
        Instr::Pop(to) => pop_due(to, limits, k, at),
        Instr::Drop(n) => below_top(n, limits, k, at, instr),
        Instr::Top(n) => below_top(n, limits, k, at, instr),
        Instr::Raise(n) => raise_due(n, limits, k),
        Instr::Call(n) => calling(image, n, limits, k),
        Instr::Ret => ret_due(limits, k, at),
        Instr::Off => Due::Meet(StopKind::Undefined(Undef::U6, at)),
        Instr::RePtr => not_null(limits, k, Undef::U4, at, Due::Do(instr)),
        Instr::Take => take_due(limits, k),
        Instr::Give => give_due(limits, k, at),
        Instr::Suspend(n) => suspend_due(image, n, limits, k, at),
        Instr::AwaitVoid => await_void_due(limits, k, at),
        Instr::AwaitBool => await_bool_due(limits, k, at),
        Instr::Unpark => unpark_due(limits, k, at),
        Instr::AwaitHandle => await_handle_due(limits, k, at),
        Instr::Resume => resume_due(limits, k, at, Instr::Resume),
        Instr::Destroy => resume_due(limits, k, at, Instr::Destroy),
        Instr::Done => done_due(limits, k, at),
        Instr::Promise => not_null(limits, k, Undef::U4, at, Due::Do(Instr::Promise)),
        Instr::FromPromise => not_null(limits, k, Undef::U4, at, Due::Do(Instr::FromPromise)),
        Instr::Post => not_null(limits, k, Undef::U4, at, Due::Do(Instr::Post)),
        Instr::ALoad(_) => reach_a(limits, k, at, instr),
        Instr::AStore(_) => reach_b(limits, k, at, instr),
        Instr::ASwap(_) => reach_b(limits, k, at, instr),
        Instr::AAdd(_) => reach_b(limits, k, at, instr),
        Instr::ACas(_) => reach_b(limits, k, at, instr),
        Instr::Print => print_due(limits, k, Instr::Print),
        Instr::Lit(n) => lit_due(image, n, limits, k),
        Instr::Begin(place) => begin_due(place, limits, k),
        Instr::Const(_) => Due::Do(instr),
        Instr::Move(_, _) => Due::Do(instr),
        Instr::Convert(_) => Due::Do(instr),
        Instr::Arith(_, _) => Due::Do(instr),
        Instr::Slot(_) => Due::Do(instr),
        Instr::Field(_) => Due::Do(instr),
        Instr::Jump(_) => Due::Do(instr),
        Instr::JumpZ(_) => Due::Do(instr),
        Instr::MainRet => Due::Do(instr),
        Instr::Throw(_) => Due::Do(instr),
        Instr::Rethrow => Due::Do(instr),
        Instr::Unwind => Due::Do(instr),
        Instr::Catch => Due::Do(instr),
        Instr::Uncatch => Due::Do(instr),
        Instr::Current => Due::Do(instr),
        Instr::Terminate => Due::Do(instr),
        Instr::Number => Due::Do(instr),
        Instr::Made => Due::Do(instr),
        Instr::Ended => Due::Do(instr),
        Instr::Born => Due::Do(instr),
        Instr::Died => Due::Do(instr),
        Instr::Input => Due::Do(instr),
        Instr::Inputs => Due::Do(instr),
        Instr::AtSlot(_) => Due::Do(instr),
        Instr::ResultAt => Due::Do(instr),
        Instr::Exit(_) => Due::Do(instr),
    }
}

fn fetched(image: &Image, limits: Limits, k: &Control) -> Due
    requires place { k.now.pc < 4294967295 }
    requires words { (65552 ≤ limits.words) × (limits.words ≤ 16777216) }
    ensures meaning { result ≡ check.fetched image.now limits k.now (slice_get image.now.code k.now.pc) }
    ensures ready { IsReady result k.now }
    ensures within { IsWithin (ask_due result k.now) limits.words }
{
    match image.code.get(k.pc as usize) {
        None => UNLAWFUL,
        Some(instr) => checked(image, limits, k, span_at(image, k.pc), *instr),
    }
}

fn instruction_due(image: &Image, limits: Limits, t: Tally, k: &Control) -> Due
    requires words { (65552 ≤ limits.words) × (limits.words ≤ 16777216) }
    ensures meaning { result ≡ check.instruction_due image.now limits t k.now }
    ensures ready { IsReady result k.now }
    ensures within { IsWithin (ask_due result k.now) limits.words }
    ensures allowed { IsAllowed result limits t }
{
    if t.since >= 1024 {
        return Due::LoadStop;
    }
    if t.instructions >= limits.budget {
        return Due::Spent;
    }
    if k.pc == 4294967295 {
        return UNLAWFUL;
    }
    fetched(image, limits, k)
}

fn taken_due(limits: Limits, t: Tally, k: &Control) -> Due
    ensures meaning { result ≡ check.taken_due limits t k.now }
    ensures ready { IsReady result k.now }
    ensures within { IsWithin (ask_due result k.now) limits.words }
    ensures allowed { IsAllowed result limits t }
{
    if t.instructions >= limits.budget {
        return Due::Spent;
    }
    if k.taken == 6 {
        return Due::PassTaken;
    }
    if !is_lawful(limits, k.taken) {
        return UNLAWFUL;
    }
    if k.below.len() >= 1023 {
        return Due::Meet(StopKind::Limit(Limit::Control));
    }
    Due::ResumeTaken(k.taken)
}

/// What is due to a worker.
pub fn due(image: &Image, limits: Limits, t: Tally, k: &Control) -> Due
    requires { (65552 ≤ limits.words) × (limits.words ≤ 16777216) }
    ensures meaning { result ≡ check.due_by k.now.next image.now limits t k.now }
    ensures ready { IsReady result k.now }
    ensures within { IsWithin (ask_due result k.now) limits.words }
    ensures allowed { IsAllowed result limits t }
{
    match k.next {
        Next::Instruction => instruction_due(image, limits, t, k),
        Next::LookStop => Due::LookStop,
        Next::LookMain => Due::LookMain,
        Next::LookCell => {
            let _cell = k.look;
            Due::LookCell
        }
        Next::Taken => taken_due(limits, t, k),
        Next::Stamp(kind) => Due::Stamp(kind),
        Next::Halt(stamp, kind) => Due::Halt(stamp, kind),
        Next::Stopped(_, _) => Due::Rest,
        Next::Seen => Due::Rest,
    }
}

ghost use Rattle.std.specs.Prelude.{◌≡◌, ◌<◌, ◌+◌, length, false};
ghost use Rattle.co_machine.specs.Effect as effect;
ghost use Rattle.co_machine.specs.Ready.{HasRoom, IsReady};

use co_base::{AtomicKind, Print, Span, bits, value};
use co_code::{Image, Instr, Register};
use co_exec_rows::board::{look, post, tell_done};
use co_exec_rows::change::{go_on, jump, meet, print, set_a, set_registers};
use co_exec_rows::entries;
use co_exec_rows::integers::{compute, converted_word, input};
use co_exec_rows::rows::{POOL, begin, search};
use co_exec_rows::storage::{give_back, reuse, take_from};
use co_exec_rows::values::{
    NOWHERE, exception, packed, register, span_at, unpacked, with_register,
};
use co_machine::{Control, Due, Going, Limits, Next, StopKind};

/// What is due, whose access found the word `old`.
#[inline(always)]
pub fn effect(image: &Image, inputs: &[i64], limits: Limits, due: Due, k: &mut Control, old: u64)
    requires { IsReady due k.old }
    ensures { k.new ≡ effect.effect image.now inputs.now limits due k.old old }
{
    match due {
        Due::Rest => {}
        Due::Stamp(kind) => k.next = Next::Halt(old, kind),
        Due::Halt(stamp, kind) => k.next = Next::Stopped(stamp, kind),
        Due::LoadStop => load_stop(k, old),
        Due::LookStop => look_stop(k, old),
        Due::LookMain => {
            k.seen_main = old;
            k.zeros = 0;
            k.next = Next::LookCell;
        }
        Due::LookCell => look(old, k),
        Due::Spent => meet(StopKind::Budget, k),
        Due::Meet(kind) => meet(kind, k),
        Due::PassTaken => {
            k.taken = 0;
            k.next = Next::LookStop;
        }
        Due::ResumeTaken(handle) => resume_taken(image, handle, k, old),
        Due::Pass => go_on(k),
        Due::Reuse(size, place) => reuse(size, place, k),
        Due::Call(entry, words) => entries::call(entry, words, k),
        Due::Park(word) => entries::park(word, k),
        Due::Do(instr) => {
            let at = span_at(image, k.pc);
            perform(image, inputs, limits, at, instr, k, old);
        }
    }
}

fn load_stop(k: &mut Control, old: u64)
    ensures { k.new ≡ effect.stop_loaded k.old old }
{
    if old != 0 {
        k.next = Next::Seen;
    }
}

fn look_stop(k: &mut Control, old: u64)
    ensures { k.new ≡ effect.stop_looked k.old old }
{
    if old == 0 {
        k.next = Next::LookMain;
    } else {
        k.next = Next::Seen;
    }
}

fn resume_taken(image: &Image, handle: u64, k: &mut Control, old: u64)
    requires { length k.old.below < 1023 }
    ensures { k.new ≡ effect.taken_resumed image.now handle k.old old }
{
    let found = entries::woken(image, false, old);
    k.taken = 0;
    k.next = Next::Instruction;
    entries::resume(found, POOL, handle, old, NOWHERE, k);
}

fn resume(image: &Image, destroys: bool, at: Span, k: &mut Control, old: u64)
    requires place { k.old.pc < 4294967295 }
    requires room { length k.old.below < 1023 }
    ensures { k.new ≡ effect.resumed (effect.woken image.now.points destroys old) (k.old.pc + 1) k.old.registers.a old at k.old }
{
    let found = entries::woken(image, destroys, old);
    entries::resume(found, k.pc + 1, k.registers.a, old, at, k);
}

#[inline(always)]
fn transfer(image: &Image, at: Span, k: &mut Control, old: u64)
    ensures { k.new ≡ effect.transferred (effect.woken image.now.points false old) k.old.registers.a old at k.old }
{
    let found = entries::woken(image, false, old);
    entries::transfer(found, k.registers.a, old, at, k);
}

#[inline(always)]
fn move_register(to: Register, from: Register, k: &mut Control)
    requires { k.old.pc < 4294967295 }
    ensures { k.new ≡ effect.moved to from k.old }
{
    let r = with_register(to, register(from, k.registers), k.registers);
    set_registers(r, k);
}

#[inline(always)]
fn pop(to: Register, k: &mut Control, old: u64)
    requires { k.old.pc < 4294967295 }
    ensures { k.new ≡ effect.popped to k.old old }
{
    k.registers = with_register(to, old, k.registers);
    k.sp = k.sp.saturating_sub(1);
    k.pc += 1;
}

#[inline(always)]
fn branch(place: u32, k: &mut Control)
    requires { k.old.pc < 4294967295 }
    ensures { k.new ≡ effect.branched place k.old }
{
    if k.registers.a == 0 {
        jump(place, k);
    } else {
        go_on(k);
    }
}

fn exchanged(kind: AtomicKind, k: &mut Control, old: u64)
    requires { k.old.pc < 4294967295 }
    ensures { k.new ≡ effect.exchanged kind k.old old }
{
    let was = if old == packed(kind, k.registers.c) {
        1
    } else {
        0
    };
    k.registers.a = was;
    k.registers.c = unpacked(kind, old);
    k.pc += 1;
}

fn begin_body(place: u32, k: &mut Control)
    requires at { k.old.pc < 4294967295 }
    requires room { length k.old.below < 1023 }
    ensures { k.new ≡ effect.jumped place (effect.entered (k.old.pc + 1) k.old.registers.a 0 k.old) }
{
    entries::enter(k.pc + 1, k.registers.a, 0, k);
    jump(place, k);
}

fn set_b(n: u64, k: &mut Control)
    requires { k.old.pc < 4294967295 }
    ensures { k.new ≡ effect.set_b n k.old }
{
    k.registers.b = n;
    k.pc += 1;
}

// One instruction, whose access found the word `old`; `at` is its place in the file.
#[inline(always)]
fn perform(
    image: &Image,
    inputs: &[i64],
    limits: Limits,
    at: Span,
    instr: Instr,
    k: &mut Control,
    old: u64,
)
    requires place { k.old.pc < 4294967295 }
    requires room { HasRoom instr k.old }
    ensures { k.new ≡ effect.effect_of image.now inputs.now limits at instr k.old old }
{
    match instr {
        Instr::Const(v) => set_a(bits(v), k),
        Instr::Move(to, from) => move_register(to, from, k),
        Instr::Convert(num) => set_a(converted_word(num, k.registers.a), k),
        Instr::Arith(op, num) => compute(op, num, at, k),
        Instr::Slot(n) => set_a(k.fp.wrapping_add(n as u64), k),
        Instr::Global(n) => set_a(65552 + n as u64, k),
        Instr::Field(n) => set_a(k.registers.a.wrapping_add(n as u64), k),
        Instr::Load(num) => set_a(converted_word(num, old), k),
        Instr::Push => {
            k.sp += 1;
            k.pc += 1;
        }
        Instr::Pop(to) => pop(to, k, old),
        Instr::Drop(n) => {
            k.sp = k.sp.saturating_sub(n as u64);
            k.pc += 1;
        }
        Instr::Jump(place) => jump(place, k),
        Instr::JumpZ(place) => branch(place, k),
        Instr::Ret => entries::go_back(k),
        Instr::MainRet => entries::return_main(k),
        Instr::Throw(kind) => {
            begin(
                Going::Exception(exception(kind, k.registers)),
                image.funcs.as_slice(),
                at,
                k,
            )
        }
        Instr::Rethrow => entries::rethrow(image.funcs.as_slice(), at, k),
        Instr::Unwind => search(image.funcs.as_slice(), at, k),
        Instr::Catch => entries::catch_exception(at, k),
        Instr::Uncatch => entries::uncatch(at, k),
        Instr::Current => entries::current(k),
        Instr::RePtr => begin(Going::Exception(k.registers), image.funcs.as_slice(), at, k),
        Instr::Terminate => entries::terminate(k),
        Instr::Take => take_from(old, limits, k),
        Instr::Give => give_back(old, limits, at, k),
        Instr::Number => set_a(old, k),
        Instr::AwaitBool => entries::unpark(old, at, k),
        Instr::Unpark => entries::unpark(old, at, k),
        Instr::AwaitHandle => transfer(image, at, k, old),
        Instr::Resume => resume(image, false, at, k, old),
        Instr::Destroy => resume(image, true, at, k, old),
        Instr::Done => tell_done(old, at, k),
        Instr::Promise => set_a(k.registers.a.wrapping_add(2), k),
        Instr::FromPromise => set_a(k.registers.a.saturating_sub(2), k),
        Instr::Post => post(old, k),
        Instr::ALoad(kind) => set_a(unpacked(kind, old), k),
        Instr::ASwap(kind) => set_a(unpacked(kind, old), k),
        Instr::AAdd(kind) => set_a(unpacked(kind, old), k),
        Instr::ACas(kind) => exchanged(kind, k, old),
        Instr::Print => print(old, Print::Num(value(k.registers.a)), k),
        Instr::Lit(n) => print(old, Print::Lit(n), k),
        Instr::Input => set_a(bits(input(inputs, k.registers.a)), k),
        Instr::Inputs => set_a(inputs.len() as u64, k),
        Instr::AtSlot(n) => set_b(k.fp.wrapping_add(n as u64), k),
        Instr::Top(n) => set_a(k.sp.saturating_sub(n as u64), k),
        Instr::Raise(n) => {
            k.sp += n as u64;
            k.pc += 1;
        }
        Instr::ResultAt => set_a(k.top.result, k),
        Instr::Exit(place) => begin(
            Going::Exit(place, k.registers),
            image.funcs.as_slice(),
            at,
            k,
        ),
        Instr::Begin(place) => begin_body(place, k),
        Instr::Check => go_on(k),
        Instr::CheckNew => go_on(k),
        Instr::Store(_) => go_on(k),
        Instr::Call(_) => go_on(k),
        Instr::Off => go_on(k),
        Instr::Made => go_on(k),
        Instr::Ended => go_on(k),
        Instr::Born => go_on(k),
        Instr::Died => go_on(k),
        Instr::Suspend(_) => go_on(k),
        Instr::AwaitVoid => go_on(k),
        Instr::AStore(_) => go_on(k),
    }
}

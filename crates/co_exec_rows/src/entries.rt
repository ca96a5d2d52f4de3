ghost use Rattle.std.specs.Prelude.{◌≡◌, ◌<◌, ◌+◌, ◌^◌, ◌∷◌, length};
ghost use Rattle.co_base.specs.Integers.{convert_of, held_by};
ghost use Rattle.co_machine.specs.Effect as effect;

use crate::change::{jump, meet, set_registers};
use crate::rows::{POOL, begin};
use crate::values::{is_final, serial_in, thrown_of};
use co_base::{Limit, Num, Span, Thrown, Undef, convert, value};
use co_code::{FuncCode, Image, PointCode};
use co_machine::{Control, Entry, Going, Next, Registers, StopKind, Woken};

// An entry to which nothing has happened yet.
fn new_entry(return_to: u32, base: u64, target: u64, serial: u64, k: &Control) -> Entry
    ensures { result ≡ record {
      return_to = return_to;
      return_fp = k.now.fp;
      return_sp = k.now.sp;
      base = base;
      result = target;
      serial = serial;
      place = 0;
      word = 0;
      going = Going.Nothing;
      origin = 0;
      row = 0;
    } }
{
    Entry {
        return_to,
        return_fp: k.fp,
        return_sp: k.sp,
        base,
        result: target,
        serial,
        place: 0,
        word: 0,
        going: Going::Nothing,
        origin: 0,
        row: 0,
    }
}

/// A call: the frame's words stand above the stack's top.
pub fn call(entry: u32, words: u32, k: &mut Control)
    requires place { k.old.pc < 4294967295 }
    requires stack { k.old.sp + words < 2 ^ 64 }
    requires room { length k.old.below < 1023 }
    ensures { k.new ≡ effect.called entry words k.old }
{
    let end = k.sp + words as u64;
    let top = new_entry(k.pc + 1, end, k.registers.d, 0, k);
    k.below.push(k.top);
    k.top = top;
    k.fp = k.sp;
    k.sp = end;
    k.pc = entry;
}

/// An entry more for the frame at this handle, whose pushed words begin at sp.
pub fn enter(back: u32, handle: u64, serial: u64, k: &mut Control)
    requires { length k.old.below < 1023 }
    ensures { k.new ≡ effect.entered back handle serial k.old }
{
    let top = new_entry(back, k.sp, 0, serial, k);
    k.below.push(k.top);
    k.top = top;
    k.fp = handle;
}

/// A return; one that has no caller goes back to looking.
pub fn go_back(k: &mut Control)
    ensures { k.new ≡ effect.returned k.old }
{
    match k.below.pop() {
        None => {}
        Some(e) => return_to(e, k),
    }
}

fn return_to(e: Entry, k: &mut Control)
    ensures { k.new ≡ effect.returned_to (e ∷ k.old.below) k.old }
{
    let from = k.top;
    k.top = e;
    k.fp = from.return_fp;
    k.sp = from.return_sp;
    k.pc = from.return_to;
    if from.return_to == POOL {
        k.next = Next::LookStop;
    }
}

/// The worker's own entry, as it was when the worker began.
pub fn base_entry(at: u64) -> Entry
    ensures { result ≡ effect.base_entry at }
{
    Entry {
        return_to: POOL,
        return_fp: at,
        return_sp: at,
        base: at,
        result: 0,
        serial: 0,
        place: 0,
        word: 0,
        going: Going::Nothing,
        origin: 0,
        row: 0,
    }
}

/// `main` has returned the low 32 bits of a.
pub fn return_main(k: &mut Control)
    ensures { k.new ≡ effect.main_returned k.old }
{
    k.main_value = Some(main_value(k.registers.a));
    k.below.clear();
    k.top = base_entry(k.stack);
    k.fp = k.stack;
    k.sp = k.stack;
    k.next = Next::LookStop;
}

fn main_value(a: u64) -> i32
    ensures { result ≡ convert_of Num.Int (held_by a) }
{
    convert(Num::Int, value(a)) as i32
}

/// `throw;` throws the newest handled exception again, and terminates where none is handled.
pub fn rethrow(funcs: &[FuncCode], at: Span, k: &mut Control)
    ensures { k.new ≡ effect.rethrown k.old.handled funcs.now at k.old }
{
    match k.handled.newest() {
        None => meet(StopKind::Uncaught(Thrown::None), k),
        Some(v) => begin(Going::Exception(v), funcs, at, k),
    }
}

/// Enters a handler: the exception under way becomes the newest handled one.
pub fn catch_exception(at: Span, k: &mut Control)
    requires { k.old.pc < 4294967295 }
    ensures { k.new ≡ effect.caught k.old.top.going at k.old }
{
    match k.top.going {
        Going::Nothing => meet(StopKind::Undefined(Undef::U12, at), k),
        Going::Exit(_, _) => meet(StopKind::Undefined(Undef::U12, at), k),
        Going::Exception(v) => handle(v, k),
    }
}

fn handle(v: Registers, k: &mut Control)
    requires { k.old.pc < 4294967295 }
    ensures { k.new ≡ effect.handling v k.old }
{
    if k.handled.len() < 1024 {
        k.registers = v;
        k.handled.push(v);
        k.top.going = Going::Nothing;
        k.pc += 1;
    } else {
        meet(StopKind::Limit(Limit::Handled), k);
    }
}

/// Leaves a handler.
pub fn uncatch(at: Span, k: &mut Control)
    requires { k.old.pc < 4294967295 }
    ensures { k.new ≡ effect.uncaught_again k.old.handled at k.old }
{
    match k.handled.pop() {
        None => meet(StopKind::Undefined(Undef::U12, at), k),
        Some(_) => k.pc += 1,
    }
}

/// a, b, c, d = the newest handled exception, or null.
pub fn newest_or_null(k: &Control) -> Registers
    ensures { result ≡ effect.newest_or_null k.now.handled }
{
    match k.handled.newest() {
        None => Registers {
            a: 0,
            b: 0,
            c: 0,
            d: 0,
        },
        Some(v) => v,
    }
}

fn pointed(point: PointCode, destroys: bool, word: u64) -> Woken
    ensures { result ≡ effect.pointed (Some point) destroys word }
{
    if destroys {
        return Woken::At(point.cleanup);
    }
    if is_final(word) {
        return Woken::Not(Undef::U2);
    }
    Woken::At(point.resume)
}

/// What a swap of a state word finds.
pub fn woken(image: &Image, destroys: bool, word: u64) -> Woken
    ensures { result ≡ effect.woken image.now.points destroys word }
{
    if word == 0 {
        return Woken::Not(Undef::U1);
    }
    let number = word % 65536;
    if number == 0 {
        return Woken::Not(Undef::U12);
    }
    match image.points.get((number - 1) as usize) {
        None => Woken::Not(Undef::U12),
        Some(point) => pointed(*point, destroys, word),
    }
}

/// The frame at the handle goes on in an entry of its own.
pub fn resume(found: Woken, back: u32, handle: u64, word: u64, at: Span, k: &mut Control)
    requires { length k.old.below < 1023 }
    ensures { k.new ≡ effect.resumed found back handle word at k.old }
{
    match found {
        Woken::Not(u) => meet(StopKind::Undefined(u, at), k),
        Woken::At(place) => {
            enter(back, handle, serial_in(word), k);
            jump(place, k);
        }
    }
}

/// The frame at the handle goes on in the place of the parked entry.
pub fn transfer(found: Woken, handle: u64, word: u64, at: Span, k: &mut Control)
    ensures { k.new ≡ effect.transferred found handle word at k.old }
{
    match found {
        Woken::Not(u) => meet(StopKind::Undefined(u, at), k),
        Woken::At(place) => {
            k.top.serial = serial_in(word);
            k.top.word = 0;
            k.top.going = Going::Nothing;
            k.fp = handle;
            k.sp = k.top.base;
            k.pc = place;
        }
    }
}

/// The state word was stored: the entry is parked with it.
pub fn park(word: u64, k: &mut Control)
    requires { k.old.pc < 4294967295 }
    ensures { k.new ≡ effect.parked_with word k.old }
{
    k.top.place = k.fp;
    k.top.word = word;
    k.top.serial = k.top.serial % (1 << 46) + 1;
    k.pc += 1;
}

/// The suspension is taken back, if the parked word still stood there.
pub fn unpark(old: u64, at: Span, k: &mut Control)
    requires { k.old.pc < 4294967295 }
    ensures { k.new ≡ effect.unparked old at k.old }
{
    if old == k.top.word {
        k.top.word = 0;
        k.fp = k.top.place;
        k.sp = k.top.base;
        k.pc += 1;
    } else {
        meet(StopKind::Undefined(Undef::U1, at), k);
    }
}

/// Terminates with the newest handled exception, or none.
pub fn terminate(k: &mut Control)
    ensures { k.new ≡ effect.terminated k.old }
{
    let v = newest_or_null(k);
    meet(StopKind::Uncaught(thrown_of(v)), k);
}

/// a, b, c, d = the newest handled exception, or null.
pub fn current(k: &mut Control)
    requires { k.old.pc < 4294967295 }
    ensures { k.new ≡ effect.set_registers (effect.newest_or_null k.old.handled) k.old }
{
    let v = newest_or_null(k);
    set_registers(v, k);
}

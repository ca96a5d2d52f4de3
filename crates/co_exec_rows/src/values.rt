ghost use Rattle.std.specs.Prelude.{◌≡◌, ◌<◌, ◌≤◌, ℕ, IsTrue};
ghost use Rattle.co_machine.specs.Values as values;

use co_base::{AtomicKind, CatchOf, ClassId, Span, Thrown, value};
use co_code::{Image, Register, ThrownKind};
use co_machine::{Limits, Registers};

/// The span of what stands at no place of a file.
pub const NOWHERE: Span = Span { line: 0, col: 0 };

/// The place in the file that the instruction at `pc` stands for.
pub fn span_at(image: &Image, pc: u32) -> Span
    ensures { result ≡ values.span_at image.now pc }
{
    match image.spans.get(pc as usize) {
        None => NOWHERE,
        Some(at) => *at,
    }
}

/// Whether a program may name the word: a global, a word of a stack or of storage.
pub fn is_lawful(limits: Limits, at: u64) -> bool
    ensures value { result ≡ values.lawful limits at }
    ensures lawful { IsTrue result → (65552 ≤ at) × (at < limits.words) }
{
    if at < 65552 {
        return false;
    }
    at < limits.words
}

pub fn register(of: Register, r: Registers) -> u64
    ensures { result ≡ values.register of r }
{
    match of {
        Register::A => r.a,
        Register::B => r.b,
        Register::C => r.c,
        Register::D => r.d,
    }
}

pub fn with_register(of: Register, n: u64, r: Registers) -> Registers
    ensures { result ≡ values.with_register of n r }
{
    match of {
        Register::A => Registers { a: n, ..r },
        Register::B => Registers { b: n, ..r },
        Register::C => Registers { c: n, ..r },
        Register::D => Registers { d: n, ..r },
    }
}

/// The word that holds an atomic's value: an `int` is held times 2^32, so that adding wraps at 32 bits.
pub fn packed(kind: AtomicKind, n: u64) -> u64
    ensures { result ≡ values.packed kind n }
{
    match kind {
        AtomicKind::Int => n.wrapping_mul(1 << 32),
        AtomicKind::Long | AtomicKind::Bool | AtomicKind::VoidPointer => n,
    }
}

/// The value of an atomic that this word holds.
pub fn unpacked(kind: AtomicKind, n: u64) -> u64
    ensures { result ≡ values.unpacked kind n }
{
    match kind {
        AtomicKind::Int => extended(n / (1 << 32)),
        AtomicKind::Long | AtomicKind::Bool | AtomicKind::VoidPointer => n,
    }
}

// The sign-extended value of 32 bits.
fn extended(n: u64) -> u64
    requires { n < 4294967296 }
    ensures { result ≡ values.extended n }
{
    if n < 1 << 31 {
        n
    } else {
        n + 0xffff_ffff_0000_0000
    }
}

/// The exception of a type, its members in a, b, c.
pub fn exception(kind: ThrownKind, r: Registers) -> Registers
    ensures { result ≡ values.exception kind r }
{
    match kind {
        ThrownKind::Int => single(1, r),
        ThrownKind::Long => single(2, r),
        ThrownKind::Bool => single(3, r),
        ThrownKind::Class(ClassId(of)) => Registers {
            a: of as u64 + 4,
            b: r.a,
            c: r.b,
            d: r.c,
        },
    }
}

fn single(kind: u64, r: Registers) -> Registers
    ensures { result ≡ record { a = kind; b = r.a; c = 0; d = 0 } }
{
    Registers {
        a: kind,
        b: r.a,
        c: 0,
        d: 0,
    }
}

/// The value that an exception is.
pub fn thrown_of(v: Registers) -> Thrown
    ensures { result ≡ values.thrown_of v }
{
    if v.a == 0 {
        return Thrown::None;
    }
    if v.a == 1 {
        return Thrown::Int(value(v.b));
    }
    if v.a == 2 {
        return Thrown::Long(value(v.b));
    }
    if v.a == 3 {
        return Thrown::Bool(0 < v.b);
    }
    let class = ClassId(((v.a - 4) % (1 << 32)) as u32);
    Thrown::Class(class, value(v.b), value(v.c), value(v.d))
}

/// Whether a handler catches the exception.
pub fn catches(of: CatchOf, v: Registers) -> bool
    ensures { result ≡ values.catches of v }
{
    match of {
        CatchOf::Any => true,
        CatchOf::Int => v.a == 1,
        CatchOf::Long => v.a == 2,
        CatchOf::Bool => v.a == 3,
        CatchOf::Class(ClassId(class)) => v.a == class as u64 + 4,
    }
}

/// The state word of a coroutine that has suspended itself `n + 1` times, now at this point.
pub fn state_word(n: u64, point: u32, is_final: bool) -> u64
    ensures { result ≡ values.state_word n point is_final }
{
    let last = if is_final { 1 << 62 } else { 0 };
    (n % (1 << 46) + 1) * (1 << 16) + point as u64 + 1 + last
}

/// The serial in a state word.
pub fn serial_in(word: u64) -> u64
    ensures { result ≡ values.serial_in word }
{
    word % (1 << 62) / (1 << 16)
}

/// Whether the state word is of a final suspend point.
pub fn is_final(word: u64) -> bool
    ensures { result ≡ values.final_in word }
{
    word / (1 << 62) % 2 == 1
}

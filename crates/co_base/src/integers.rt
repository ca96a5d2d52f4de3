ghost use Rattle.std.specs.Prelude.{◌≡◌, ◌≢◌, pos, ◌≤ℤ◌, ◌<ℤ◌, Some, ◌^◌, ◌<◌, ◌↔◌, IsTrue};
ghost use Rattle.std.specs.Option.{option_map};
ghost use Rattle.std.specs.Ordering.{int_eq};
ghost use Rattle.std.specs.Int.RustNames.{int_lt, int_le};
ghost use Rattle.co_base.specs.Integers.{arith_of, kept, shift_count, value_of, IsOperand, IsValue};

use crate::kinds::{Num, Op};

/// The result of an operation on two values of a type, which is `int`, `long` or `std::size_t`; the
/// count `b` of a shift is any value. A `std::size_t` is its bit pattern. None where the act is
/// undefined: a signed overflow [expr.pre], a division by zero or a quotient that the type can't
/// hold [expr.mul], a count outside the width [expr.shift].
pub fn arith(op: Op, num: Num, a: i64, b: i64) -> Option<i64>
    requires number { num ≢ Num.Bool }
    requires left { IsValue num a }
    requires right { IsOperand op num b }
    ensures { result ≡ arith_of op num a b }
{
    match op {
        Op::Add => sum(num, a, b),
        Op::Sub => difference(num, a, b),
        Op::Mul => product(num, a, b),
        Op::Div => quotient(num, a, b),
        Op::Rem => remainder(num, a, b),
        Op::Shl => shift_left(num, a, b),
        Op::Shr => shift_right(num, a, b),
        Op::And => Some(bits_and(num, a, b)),
        Op::Or => Some(bits_or(num, a, b)),
        Op::Xor => Some(bits_xor(num, a, b)),
        Op::Lt => Some(i64::from(is_less(num, a, b))),
        Op::Le => Some(i64::from(is_at_most(num, a, b))),
        Op::Gt => Some(i64::from(is_less(num, b, a))),
        Op::Ge => Some(i64::from(is_at_most(num, b, a))),
        Op::Eq => Some(i64::from(is_equal(num, a, b))),
        Op::Ne => Some(i64::from(!is_equal(num, a, b))),
    }
}

/// Whether an i64 holds a value of the type: of the i64s, two hold a `bool`, those in its range an
/// `int`, and each holds a `long` and, by its bits, a `std::size_t`.
pub fn is_value(num: Num, v: i64) -> bool
    ensures { IsTrue result ↔ IsValue num v }
{
    match num {
        Num::Bool => v == 0 || v == 1,
        Num::Int => i64::from(i32::MIN) <= v && v <= i64::from(i32::MAX),
        Num::Long | Num::Size => true,
    }
}

/// The integer where it is an `int`.
fn kept_int(z: i64) -> Option<i64>
    ensures { result ≡ kept Num.Int z }
{
    if i64::from(i32::MIN) <= z && z <= i64::from(i32::MAX) {
        Some(z)
    } else {
        None
    }
}

fn sum(num: Num, a: i64, b: i64) -> Option<i64>
    requires number { num ≢ Num.Bool }
    requires left { IsValue num a }
    requires right { IsValue num b }
    ensures { result ≡ arith_of Op.Add num a b }
{
    match num {
        Num::Bool => unreachable!(),
        Num::Int => kept_int(a + b),
        Num::Long => a.checked_add(b),
        Num::Size => Some(a.wrapping_add(b)),
    }
}

fn difference(num: Num, a: i64, b: i64) -> Option<i64>
    requires number { num ≢ Num.Bool }
    requires left { IsValue num a }
    requires right { IsValue num b }
    ensures { result ≡ arith_of Op.Sub num a b }
{
    match num {
        Num::Bool => unreachable!(),
        Num::Int => kept_int(a - b),
        Num::Long => a.checked_sub(b),
        Num::Size => Some(a.wrapping_sub(b)),
    }
}

fn product(num: Num, a: i64, b: i64) -> Option<i64>
    requires number { num ≢ Num.Bool }
    requires left { IsValue num a }
    requires right { IsValue num b }
    ensures { result ≡ arith_of Op.Mul num a b }
{
    match num {
        Num::Bool => unreachable!(),
        Num::Int => kept_int(a * b),
        Num::Long => a.checked_mul(b),
        Num::Size => Some(a.wrapping_mul(b)),
    }
}

fn quotient(num: Num, a: i64, b: i64) -> Option<i64>
    requires number { num ≢ Num.Bool }
    requires left { IsValue num a }
    requires right { IsValue num b }
    ensures { result ≡ arith_of Op.Div num a b }
{
    match num {
        Num::Bool => unreachable!(),
        Num::Int => kept_int(a.checked_div(b)?),
        Num::Long => a.checked_div(b),
        Num::Size => {
            let quotient = a.cast_unsigned().checked_div(b.cast_unsigned())?;
            Some(quotient.cast_signed())
        }
    }
}

fn remainder(num: Num, a: i64, b: i64) -> Option<i64>
    requires number { num ≢ Num.Bool }
    requires left { IsValue num a }
    requires right { IsValue num b }
    ensures { result ≡ arith_of Op.Rem num a b }
{
    match num {
        Num::Bool => unreachable!(),
        Num::Int => {
            let _ = kept_int(a.checked_div(b)?)?;
            a.checked_rem(b)
        }
        Num::Long => a.checked_rem(b),
        Num::Size => {
            let remainder = a.cast_unsigned().checked_rem(b.cast_unsigned())?;
            Some(remainder.cast_signed())
        }
    }
}

/// The count of a shift, where it lies below the width of the type.
fn count_of(num: Num, k: i64) -> Option<u32>
    requires { num ≢ Num.Bool }
    ensures { result ≡ shift_count num k }
{
    let width = match num {
        Num::Bool => unreachable!(),
        Num::Int => 32,
        Num::Long | Num::Size => 64,
    };
    if 0 <= k && k < width {
        Some(k as u32)
    } else {
        None
    }
}

fn shift_left(num: Num, a: i64, k: i64) -> Option<i64>
    requires number { num ≢ Num.Bool }
    requires left { IsValue num a }
    ensures { result ≡ arith_of Op.Shl num a k }
{
    let count = count_of(num, k)?;
    match num {
        Num::Bool => unreachable!(),
        Num::Int => Some(i64::from((a as i32) << count)),
        Num::Long | Num::Size => Some(a << count),
    }
}

fn shift_right(num: Num, a: i64, k: i64) -> Option<i64>
    requires number { num ≢ Num.Bool }
    requires left { IsValue num a }
    ensures { result ≡ arith_of Op.Shr num a k }
{
    let count = count_of(num, k)?;
    match num {
        Num::Bool => unreachable!(),
        Num::Int | Num::Long => Some(a >> count),
        Num::Size => Some((a.cast_unsigned() >> count).cast_signed()),
    }
}

fn bits_and(num: Num, a: i64, b: i64) -> i64
    requires number { num ≢ Num.Bool }
    requires left { IsValue num a }
    requires right { IsValue num b }
    ensures { Some result ≡ arith_of Op.And num a b }
{
    match num {
        Num::Bool => unreachable!(),
        Num::Int => i64::from(a as i32 & b as i32),
        Num::Long | Num::Size => a & b,
    }
}

fn bits_or(num: Num, a: i64, b: i64) -> i64
    requires number { num ≢ Num.Bool }
    requires left { IsValue num a }
    requires right { IsValue num b }
    ensures { Some result ≡ arith_of Op.Or num a b }
{
    match num {
        Num::Bool => unreachable!(),
        Num::Int => i64::from(a as i32 | b as i32),
        Num::Long | Num::Size => a | b,
    }
}

fn bits_xor(num: Num, a: i64, b: i64) -> i64
    requires number { num ≢ Num.Bool }
    requires left { IsValue num a }
    requires right { IsValue num b }
    ensures { Some result ≡ arith_of Op.Xor num a b }
{
    match num {
        Num::Bool => unreachable!(),
        Num::Int => i64::from(a as i32 ^ b as i32),
        Num::Long | Num::Size => a ^ b,
    }
}

fn is_less(num: Num, a: i64, b: i64) -> bool
    ensures { result ≡ int_lt (value_of num a) (value_of num b) }
{
    match num {
        Num::Size => a.cast_unsigned() < b.cast_unsigned(),
        Num::Bool | Num::Int | Num::Long => a < b,
    }
}

fn is_at_most(num: Num, a: i64, b: i64) -> bool
    ensures { result ≡ int_le (value_of num a) (value_of num b) }
{
    match num {
        Num::Size => a.cast_unsigned() <= b.cast_unsigned(),
        Num::Bool | Num::Int | Num::Long => a <= b,
    }
}

fn is_equal(num: Num, a: i64, b: i64) -> bool
    ensures { result ≡ int_eq (value_of num a) (value_of num b) }
{
    match num {
        Num::Size => a.cast_unsigned() == b.cast_unsigned(),
        Num::Bool | Num::Int | Num::Long => a == b,
    }
}

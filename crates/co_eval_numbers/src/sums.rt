ghost use Rattle.std.specs.Prelude.{◌≡◌, ◌≢◌, ◌+ℤ◌, ◌-ℤ◌};
ghost use Rattle.co_base.specs.Integers.{IsValue, arith_of, convert_of, kept};

use co_base::{Num, Op, convert, is_value};

/// The integer where it is a value of the type, in which sums are not reduced.
pub(crate) fn kept_in(num: Num, z: i64) -> Option<i64>
    requires { num ≢ Num.Size }
    ensures { result ≡ kept num z }
{
    if is_value(num, z) { Some(z) } else { None }
}

/// The sum of two integers, where it is a value of the type.
pub(crate) fn sum(num: Num, a: i64, b: i64) -> Option<i64>
    requires { num ≢ Num.Size }
    ensures { result ≡ arith_of Op.Add num a b }
{
    match a.checked_add(b) {
        Some(z) => kept_in(num, z),
        None => None,
    }
}

/// Their difference.
pub(crate) fn difference(num: Num, a: i64, b: i64) -> Option<i64>
    requires { num ≢ Num.Size }
    ensures { result ≡ arith_of Op.Sub num a b }
{
    match a.checked_sub(b) {
        Some(z) => kept_in(num, z),
        None => None,
    }
}

/// Their product.
pub(crate) fn product(num: Num, a: i64, b: i64) -> Option<i64>
    requires { num ≢ Num.Size }
    ensures { result ≡ arith_of Op.Mul num a b }
{
    match a.checked_mul(b) {
        Some(z) => kept_in(num, z),
        None => None,
    }
}

/// Their quotient, where the divisor is not 0 and it is a value of the type [expr.mul].
pub(crate) fn quotient(num: Num, a: i64, b: i64) -> Option<i64>
    requires { num ≢ Num.Size }
    ensures { result ≡ arith_of Op.Div num a b }
{
    match a.checked_div(b) {
        Some(z) => kept_in(num, z),
        None => None,
    }
}

/// The remainder of that division.
pub(crate) fn remainder(num: Num, a: i64, b: i64) -> Option<i64>
    requires { num ≢ Num.Size }
    ensures { result ≡ arith_of Op.Rem num a b }
{
    let _ = kept_in(num, a.checked_div(b)?)?;
    a.checked_rem(b)
}

/// The sum of two `int`s, which wraps.
fn int_sum(a: i64, b: i64) -> i64
    requires left { IsValue Num.Int a }
    requires right { IsValue Num.Int b }
    ensures { result ≡ convert_of Num.Int (a +ℤ b) }
{
    convert(Num::Int, a + b)
}

/// Their difference.
fn int_difference(a: i64, b: i64) -> i64
    requires left { IsValue Num.Int a }
    requires right { IsValue Num.Int b }
    ensures { result ≡ convert_of Num.Int (a -ℤ b) }
{
    convert(Num::Int, a - b)
}

/// The sum of two values of an atomic, which wraps [atomics.types.int].
#[tactic(auto, using(crate::proofs::Reduced::is_int, crate::proofs::Reduced::sum_reduced))]
pub fn plus(num: Num, a: i64, b: i64) -> i64
    ensures { result ≡ convert_of num (a +ℤ b) }
{
    match num {
        Num::Bool => i64::from(!matches!(a.checked_add(b), Some(0))),
        Num::Int => int_sum(convert(Num::Int, a), convert(Num::Int, b)),
        Num::Long | Num::Size => a.wrapping_add(b),
    }
}

/// Their difference.
#[tactic(auto, using(crate::proofs::Reduced::is_int, crate::proofs::Reduced::difference_reduced))]
pub fn minus(num: Num, a: i64, b: i64) -> i64
    ensures { result ≡ convert_of num (a -ℤ b) }
{
    match num {
        Num::Bool => i64::from(a != b),
        Num::Int => int_difference(convert(Num::Int, a), convert(Num::Int, b)),
        Num::Long | Num::Size => a.wrapping_sub(b),
    }
}

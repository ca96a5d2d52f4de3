ghost use Rattle.std.specs.Prelude.{◌≡◌, ◌≢◌, Some, if◌then◌else◌};
ghost use Rattle.co_base.specs.Integers.{arith_of, residue, shift_count};

use co_base::{Num, Op, arith, convert};

/// A bitwise operation in `int`: only the bits of the `int`s count that the integers convert to.
#[tactic(auto, using(crate::proofs::Reduced::is_int, crate::proofs::Reduced::and_reduced))]
pub(crate) fn int_and(a: i64, b: i64) -> Option<i64>
    ensures { result ≡ arith_of Op.And Num.Int a b }
{
    arith(
        Op::And,
        Num::Int,
        convert(Num::Int, a),
        convert(Num::Int, b),
    )
}

#[tactic(auto, using(crate::proofs::Reduced::is_int, crate::proofs::Reduced::or_reduced))]
pub(crate) fn int_or(a: i64, b: i64) -> Option<i64>
    ensures { result ≡ arith_of Op.Or Num.Int a b }
{
    arith(Op::Or, Num::Int, convert(Num::Int, a), convert(Num::Int, b))
}

#[tactic(auto, using(crate::proofs::Reduced::is_int, crate::proofs::Reduced::xor_reduced))]
pub(crate) fn int_xor(a: i64, b: i64) -> Option<i64>
    ensures { result ≡ arith_of Op.Xor Num.Int a b }
{
    arith(
        Op::Xor,
        Num::Int,
        convert(Num::Int, a),
        convert(Num::Int, b),
    )
}

/// A shift to the left in `int`: only the bits of the `int` count that the first integer converts to [expr.shift].
#[tactic(auto, using(crate::proofs::Reduced::is_int, crate::proofs::Reduced::shifted_reduced))]
pub(crate) fn int_shifted_left(a: i64, count: i64) -> Option<i64>
    ensures { result ≡ arith_of Op.Shl Num.Int a count }
{
    arith(Op::Shl, Num::Int, convert(Num::Int, a), count)
}

/// A shift to the right in `int` or `bool`, whose result is not reduced [expr.shift].
pub(crate) fn shifted_right(num: Num, a: i64, count: i64) -> Option<i64>
    requires size { num ≢ Num.Size }
    requires long { num ≢ Num.Long }
    ensures { result ≡ arith_of Op.Shr num a count }
{
    match count_in(num, count) {
        Some(count) => Some(a >> count),
        None => None,
    }
}

/// The count of a shift, where it lies below the width of `int` or `bool`.
fn count_in(num: Num, count: i64) -> Option<u32>
    requires size { num ≢ Num.Size }
    requires long { num ≢ Num.Long }
    ensures { result ≡ shift_count num count }
{
    let width = match num {
        Num::Bool => 1,
        Num::Int => 32,
        Num::Long | Num::Size => unreachable!(),
    };
    if 0 <= count && count < width {
        Some(count as u32)
    } else {
        None
    }
}

/// Whether the lowest bit of an integer is set.
fn is_odd(z: i64) -> bool
    ensures { residue Num.Bool z ≡ (if result then 1 else 0) }
{
    z.rem_euclid(2) == 1
}

/// A bitwise operation in `bool`: only the lowest bits count.
pub(crate) fn truth_and(a: i64, b: i64) -> i64
    ensures { Some result ≡ arith_of Op.And Num.Bool a b }
{
    i64::from(is_odd(a) && is_odd(b))
}

pub(crate) fn truth_or(a: i64, b: i64) -> i64
    ensures { Some result ≡ arith_of Op.Or Num.Bool a b }
{
    i64::from(is_odd(a) | is_odd(b))
}

pub(crate) fn truth_xor(a: i64, b: i64) -> i64
    ensures { Some result ≡ arith_of Op.Xor Num.Bool a b }
{
    i64::from(is_odd(a) != is_odd(b))
}

/// A shift to the left in `bool`, by nothing or not at all [expr.shift].
pub(crate) fn truth_shifted_left(a: i64, count: i64) -> Option<i64>
    ensures { result ≡ arith_of Op.Shl Num.Bool a count }
{
    match count_in(Num::Bool, count) {
        Some(_) => Some(i64::from(is_odd(a))),
        None => None,
    }
}

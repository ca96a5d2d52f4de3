ghost use Rattle.std.specs.Prelude.{◌≡◌};
ghost use Rattle.co_base.specs.Integers.{arith_of};

use crate::bits::{
    int_and, int_or, int_shifted_left, int_xor, shifted_right, truth_and, truth_or,
    truth_shifted_left, truth_xor,
};
use crate::sums::{difference, product, quotient, remainder, sum};
use co_base::{Num, Op};

/// The result of an operation on two integers in a type, none where the act is undefined [expr.pre].
pub fn arith(op: Op, num: Num, a: i64, b: i64) -> Option<i64>
    ensures { result ≡ arith_of op num a b }
{
    match num {
        Num::Long | Num::Size => co_base::arith(op, num, a, b),
        Num::Int => int_arith(op, a, b),
        Num::Bool => truth_arith(op, a, b),
    }
}

fn int_arith(op: Op, a: i64, b: i64) -> Option<i64>
    ensures { result ≡ arith_of op Num.Int a b }
{
    match op {
        Op::Add => sum(Num::Int, a, b),
        Op::Sub => difference(Num::Int, a, b),
        Op::Mul => product(Num::Int, a, b),
        Op::Div => quotient(Num::Int, a, b),
        Op::Rem => remainder(Num::Int, a, b),
        Op::Shl => int_shifted_left(a, b),
        Op::Shr => shifted_right(Num::Int, a, b),
        Op::And => int_and(a, b),
        Op::Or => int_or(a, b),
        Op::Xor => int_xor(a, b),
        Op::Lt => Some(i64::from(a < b)),
        Op::Le => Some(i64::from(a <= b)),
        Op::Gt => Some(i64::from(a > b)),
        Op::Ge => Some(i64::from(a >= b)),
        Op::Eq => Some(i64::from(a == b)),
        Op::Ne => Some(i64::from(a != b)),
    }
}

/// In `bool`, whose values no operation of an accepted file takes.
fn truth_arith(op: Op, a: i64, b: i64) -> Option<i64>
    ensures { result ≡ arith_of op Num.Bool a b }
{
    match op {
        Op::Add => sum(Num::Bool, a, b),
        Op::Sub => difference(Num::Bool, a, b),
        Op::Mul => product(Num::Bool, a, b),
        Op::Div => quotient(Num::Bool, a, b),
        Op::Rem => remainder(Num::Bool, a, b),
        Op::Shl => truth_shifted_left(a, b),
        Op::Shr => shifted_right(Num::Bool, a, b),
        Op::And => Some(truth_and(a, b)),
        Op::Or => Some(truth_or(a, b)),
        Op::Xor => Some(truth_xor(a, b)),
        Op::Lt => Some(i64::from(a < b)),
        Op::Le => Some(i64::from(a <= b)),
        Op::Gt => Some(i64::from(a > b)),
        Op::Ge => Some(i64::from(a >= b)),
        Op::Eq => Some(i64::from(a == b)),
        Op::Ne => Some(i64::from(a != b)),
    }
}

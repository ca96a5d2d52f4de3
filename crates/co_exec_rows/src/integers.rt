ghost use Rattle.std.specs.Prelude.{◌≡◌, ◌≢◌, ◌<◌, slice_get};
ghost use Rattle.co_base.specs.Integers.{arith_of, convert_of, held_by, IsOperand};
ghost use Rattle.co_machine.specs.Effect as effect;

use crate::change::{meet, set_a};
use co_base::{Num, Op, Span, Undef, arith, bits, convert, value};
use co_machine::{Control, StopKind};

/// a = b op a. `at` is the span of the instruction.
pub fn compute(op: Op, num: Num, at: Span, k: &mut Control)
    requires { k.old.pc < 4294967295 }
    ensures { k.new ≡ effect.computing op num at k.old }
{
    match num {
        Num::Bool => meet(StopKind::Undefined(Undef::U12, at), k),
        Num::Int => compute_in(op, Num::Int, at, k),
        Num::Long => compute_in(op, Num::Long, at, k),
        Num::Size => compute_in(op, Num::Size, at, k),
    }
}

fn compute_in(op: Op, num: Num, at: Span, k: &mut Control)
    requires place { k.old.pc < 4294967295 }
    requires number { num ≢ Num.Bool }
    ensures { k.new ≡ effect.set_result (arith_of op num (convert_of num (held_by k.old.registers.b)) (effect.counted_or_converted op num k.old.registers.a)) at k.old }
{
    let left = convert(num, value(k.registers.b));
    let right = right_operand(op, num, k.registers.a);
    match arith(op, num, left, right) {
        None => meet(StopKind::Undefined(Undef::U5, at), k),
        Some(v) => set_a(bits(v), k),
    }
}

// The right operand: the count of a shift keeps its own type.
fn right_operand(op: Op, num: Num, a: u64) -> i64
    requires { num ≢ Num.Bool }
    ensures value { result ≡ effect.counted_or_converted op num a }
    ensures operand { IsOperand op num result }
{
    let count = value(a);
    let converted = convert(num, count);
    match op {
        Op::Shl | Op::Shr => count,
        Op::Add => converted,
        Op::Sub => converted,
        Op::Mul => converted,
        Op::Div => converted,
        Op::Rem => converted,
        Op::And => converted,
        Op::Or => converted,
        Op::Xor => converted,
        Op::Lt => converted,
        Op::Le => converted,
        Op::Gt => converted,
        Op::Ge => converted,
        Op::Eq => converted,
        Op::Ne => converted,
    }
}

/// The word, converted to the type.
pub fn converted_word(num: Num, n: u64) -> u64
    ensures { result ≡ effect.converted_word num n }
{
    bits(convert(num, value(n)))
}

/// The input of that number, or 0 where it is outside the list.
pub fn input(inputs: &[i64], number: u64) -> i64
    ensures { result ≡ effect.or_zero (slice_get inputs.now number) }
{
    match inputs.get(number as usize) {
        None => 0,
        Some(v) => *v,
    }
}

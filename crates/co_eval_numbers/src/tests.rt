use crate::{arith, minus, plus};
use co_base::{Num, Op};
use std::test::Fail;

/// Operations, the type that they are done in, their operands, and the result by hand: the sum, product or quotient of the
/// integers where it is a value of the type, the bits of the operands modulo 2^32 in `int` and modulo 2 in `bool`.
const RESULTS: [(Op, Num, i64, i64, Option<i64>); 16] = [
    (Op::Add, Num::Int, 1 << 40, 5 - (1 << 40), Some(5)),
    (Op::Add, Num::Int, i64::MAX, 1, None),
    (Op::Sub, Num::Bool, 3, 2, Some(1)),
    (Op::Mul, Num::Int, 1 << 16, 1 << 15, None),
    (Op::Div, Num::Int, 1 << 40, 1 << 20, Some(1 << 20)),
    (Op::Rem, Num::Int, (1 << 40) + 3, 1 << 20, Some(3)),
    (Op::Rem, Num::Int, 1 << 40, 1, None),
    (Op::Div, Num::Long, i64::MIN, -1, None),
    (Op::Shl, Num::Int, (1 << 32) + 1, 3, Some(8)),
    (Op::Shl, Num::Bool, 3, 0, Some(1)),
    (Op::Shr, Num::Int, 1 << 40, 4, Some(1 << 36)),
    (Op::Shr, Num::Bool, 1, 1, None),
    (Op::And, Num::Int, (1 << 32) + 5, 7, Some(5)),
    (Op::Or, Num::Bool, 2, 4, Some(0)),
    (Op::Xor, Num::Int, 1 << 32, -1, Some(-1)),
    (Op::Lt, Num::Size, 1, -1, Some(1)),
];

#[test]
fn on_any_integers(rt: HostRuntime) -> Result<(), Fail> {
    for (op, num, a, b, result) in RESULTS {
        assert_eq!(rt; arith(op, num, a, b), result);
    }
    Ok(())
}

#[test]
fn of_atomics(rt: HostRuntime) -> Result<(), Fail> {
    assert_eq!(rt; plus(Num::Int, 2147483647, 1), -2147483648);
    assert_eq!(rt; minus(Num::Int, -2147483648, 1), 2147483647);
    assert_eq!(rt; plus(Num::Long, i64::MAX, 1), i64::MIN);
    assert_eq!(rt; minus(Num::Bool, 1, 1), 0);
    Ok(())
}

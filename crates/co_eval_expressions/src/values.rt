ghost use Rattle.std.specs.Prelude.{◌≡◌};
ghost use Rattle.co_meaning.specs.Expressions as spec;
ghost use Rattle.co_meaning_data.specs.Undefined as undefined;

use co_base::CatchOf;
use co_meaning_data::Value;
use co_types::is_same_num;

#[tactic(auto, using(co_eval_reads::proofs::Trailing::empty_other, co_eval_reads::proofs::Trailing::other_empty))]
fn is_same_path(a: &[u32], b: &[u32]) -> bool
    ensures { result ≡ undefined.same_path a.now b.now }
{
    match a {
        [] => match b {
            [] => true,
            [_, ..] => false,
        },
        [x, p @ ..] => match b {
            [] => false,
            [y, q @ ..] => *x == *y && is_same_path(p, q),
        },
    }
}

fn is_same_kind(a: CatchOf, b: CatchOf) -> bool
    ensures { result ≡ undefined.same_kind a b }
{
    match (a, b) {
        (CatchOf::Any, CatchOf::Any) => true,
        (CatchOf::Int, CatchOf::Int) => true,
        (CatchOf::Long, CatchOf::Long) => true,
        (CatchOf::Bool, CatchOf::Bool) => true,
        (CatchOf::Class(x), CatchOf::Class(y)) => x.0 == y.0,
        _ => false,
    }
}

/// Whether two values are one value.
fn is_same_value(a: &Value, b: &Value) -> bool
    ensures { result ≡ undefined.same_value a.now b.now }
{
    match (a, b) {
        (Value::Number(m, x), Value::Number(n, y)) => is_same_num(*m, *n) && *x == *y,
        (Value::Pointer(x, p), Value::Pointer(y, q)) => {
            *x == *y && is_same_path(p.as_slice(), q.as_slice())
        }
        (Value::Block(x), Value::Block(y)) => *x == *y,
        (Value::Frame(x), Value::Frame(y)) => *x == *y,
        (Value::NoopFrame, Value::NoopFrame) => true,
        (Value::Handle(x), Value::Handle(y)) => *x == *y,
        (Value::Noop, Value::Noop) => true,
        (Value::Null, Value::Null) => true,
        (Value::Kind(x), Value::Kind(y)) => is_same_kind(*x, *y),
        (Value::Empty, Value::Empty) => true,
        _ => false,
    }
}

/// Whether two lists of the parts of a `std::exception_ptr` are the same.
#[tactic(auto, using(crate::proofs::Parts::none_same, crate::proofs::Parts::none_other, crate::proofs::Parts::other_none, crate::proofs::Parts::first_same))]
pub(crate) fn has_same_parts(a: &[Value], b: &[Value]) -> bool
    ensures { result ≡ spec.same_parts a.now b.now }
{
    match a {
        [] => match b {
            [] => true,
            [_, ..] => false,
        },
        [x, p @ ..] => match b {
            [] => false,
            [y, q @ ..] => is_same_value(x, y) && has_same_parts(p, q),
        },
    }
}

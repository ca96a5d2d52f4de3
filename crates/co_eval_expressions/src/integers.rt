ghost use Rattle.std.specs.Prelude.{◌≡◌, Some, IfOk};
ghost use Rattle.co_eval_data.specs.Agents.{local_of};
ghost use Rattle.co_eval_data.specs.Changed.{after, turned_by};
ghost use Rattle.co_eval_data.specs.Seen.{given_of, outcome_of, place_of};
ghost use Rattle.co_meaning.specs.Expressions as spec;

use co_base::{NoMemory, Num, Op, Span, Undef, convert};
use co_eval_data::{Change, Given, Here, Outcome, Place, Task};
use co_eval_numbers::arith;
use co_meaning_data::Value;
use sqlite_items::Items;

fn is_comparison(op: Op) -> bool
    ensures { result ≡ spec.is_comparison op }
{
    match op {
        Op::Lt | Op::Le | Op::Gt | Op::Ge | Op::Eq | Op::Ne => true,
        Op::Add
        | Op::Sub
        | Op::Mul
        | Op::Div
        | Op::Rem
        | Op::Shl
        | Op::Shr
        | Op::And
        | Op::Or
        | Op::Xor => false,
    }
}

/// The type of the result of an operation in a type of integers.
fn result_num(op: Op, num: Num) -> Num
    ensures { result ≡ spec.result_num op num }
{
    if is_comparison(op) { Num::Bool } else { num }
}

/// The result of an operation is given; one without a result in its type is undefined [expr.pre].
fn computed<'u>(here: &Here<'_, 'u>, op: Op, num: Num, value: Option<i64>, at: Span) -> Change<'u>
    ensures { Some (turned_by result (local_of here.now)) ≡ spec.computed op num value at (local_of here.now) }
{
    match value {
        Some(value) => here.gives(Given::Scalar(Value::Number(result_num(op, num), value))),
        None => here.is_undefined(Undef::U5, at),
    }
}

/// An operation on two integers [expr].
pub fn arithmetic<'u>(
    here: &Here<'_, 'u>,
    op: Op,
    num: Num,
    left: &Given,
    right: &Given,
    at: Span,
) -> Option<Change<'u>>
    ensures { after result (local_of here.now) ≡ spec.arithmetic op num (given_of left.now) (given_of right.now) at (local_of here.now) }
{
    match left {
        Given::Scalar(Value::Number(_, a)) => match right {
            Given::Scalar(Value::Number(_, b)) => {
                Some(computed(here, op, num, arith(op, num, *a, *b), at))
            }
            _ => None,
        },
        _ => None,
    }
}

/// An integer in another type of integers [conv.integral] [conv.bool].
pub fn converted<'u>(here: &Here<'_, 'u>, num: Num, given: &Given) -> Option<Change<'u>>
    ensures { after result (local_of here.now) ≡ spec.converted num (given_of given.now) (local_of here.now) }
{
    match given {
        Given::Scalar(Value::Number(_, value)) => {
            Some(here.gives(Given::Scalar(Value::Number(num, convert(num, *value)))))
        }
        _ => None,
    }
}

/// What an update gives: the value before, or the place [expr.ass] [expr.post.incr].
fn update_gives(
    here: &Here<'_, '_>,
    old: bool,
    value: Value,
    place: &Place,
) -> Result<Outcome, NoMemory>
    ensures { IfOk result (λ o. outcome_of o ≡ spec.update_gives old value (place_of place.now)) }
{
    if old {
        Ok(Outcome::Gives(Given::Scalar(value)))
    } else {
        Ok(Outcome::Gives(Given::At(place.copy(here.alloc)?)))
    }
}

fn writes_back<'u>(
    here: &Here<'_, 'u>,
    num: Num,
    before: i64,
    value: i64,
    place: &Place,
    old: bool,
    at: Span,
) -> Result<Change<'u>, NoMemory>
    ensures { IfOk result (λ c. Some (turned_by c (local_of here.now)) ≡ spec.update_writes num before (Some value) (place_of place.now) old at (local_of here.now)) }
{
    let mut values = Items::new(here.alloc);
    values.push(Value::Number(num, convert(num, value)))?;
    let outcome = update_gives(here, old, Value::Number(num, before), place)?;
    let place = place.copy(here.alloc)?;
    Ok(here.goes(Task::Writes(false, place, 0, values, outcome, at)))
}

/// The result of the operation of an update is written in the type of the place; one without a result is undefined [expr.pre].
fn update_writes<'u>(
    here: &Here<'_, 'u>,
    num: Num,
    before: i64,
    value: Option<i64>,
    place: &Place,
    old: bool,
    at: Span,
) -> Result<Change<'u>, NoMemory>
    ensures { IfOk result (λ c. Some (turned_by c (local_of here.now)) ≡ spec.update_writes num before value (place_of place.now) old at (local_of here.now)) }
{
    match value {
        Some(value) => writes_back(here, num, before, value, place, old, at),
        None => Ok(here.is_undefined(Undef::U5, at)),
    }
}

/// `op=`, `++` and `--`: what was loaded is converted, and the result is converted to the type of the place [expr.ass].
pub fn updated<'u>(
    here: &Here<'_, 'u>,
    op: Op,
    num: Num,
    value: &Given,
    place: &Place,
    old: bool,
    loaded: &Given,
    at: Span,
) -> Result<Option<Change<'u>>, NoMemory>
    ensures { IfOk result (λ c. after c (local_of here.now) ≡ spec.updated op num (given_of value.now) (place_of place.now) old (given_of loaded.now) at (local_of here.now)) }
{
    match value {
        Given::Scalar(Value::Number(_, right)) => match loaded {
            Given::Scalar(Value::Number(to, before)) => {
                let sum = arith(op, num, convert(num, *before), *right);
                Ok(Some(update_writes(here, *to, *before, sum, place, old, at)?))
            }
            _ => Ok(None),
        },
        _ => Ok(None),
    }
}

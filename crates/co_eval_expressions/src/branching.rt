ghost use Rattle.std.specs.Prelude.{◌≡◌, None, IfOk};
ghost use Rattle.co_eval_data.specs.Agents.{local_of};
ghost use Rattle.co_eval_data.specs.Changed.{after};
ghost use Rattle.co_eval_data.specs.Seen.{given_of, place_if};
ghost use Rattle.co_meaning.specs.Expressions as spec;
ghost use Rattle.co_meaning_data.specs.Frames as frames;
ghost use Rattle.co_meaning_data.specs.Turn as turn;

use crate::truths::{is_zero, truth};
use co_base::NoMemory;
use co_core_tree::{CoreExpr, Init};
use co_eval_data::{Change, Given, Here, Node, Place, Step, Task};
use co_eval_parts::copy_place_if;
use co_meaning_data::Value;

/// An expression is evaluated as the branch of another.
fn joins<'u>(here: &Here<'_, 'u>, e: &'u CoreExpr) -> Result<Option<Change<'u>>, NoMemory>
    ensures { IfOk result (λ c. after c (local_of here.now) ≡ turn.under frames.Joined (frames.Evaluate e.now None) (local_of here.now)) }
{
    let task = Task::Evaluate(e, None);
    Ok(Some(here.under(Step::Joined, Node::Nothing, task)?))
}

/// An object is initialized as by the branch of an initializer.
fn joins_init<'u>(
    here: &Here<'_, 'u>,
    init: &'u Init,
    into: &Option<Place>,
) -> Result<Option<Change<'u>>, NoMemory>
    ensures { IfOk result (λ c. after c (local_of here.now) ≡ turn.under frames.Joined (frames.Initialize init.now (place_if into.now)) (local_of here.now)) }
{
    let task = Task::Initialize(init, copy_place_if(here.alloc, into)?);
    Ok(Some(here.under(Step::Joined, Node::Nothing, task)?))
}

/// The right operand of `&&` is evaluated where the left one is true [expr.log.and].
pub fn both<'u>(
    here: &Here<'_, 'u>,
    right: &'u CoreExpr,
    given: &Given,
) -> Result<Option<Change<'u>>, NoMemory>
    ensures { IfOk result (λ c. after c (local_of here.now) ≡ spec.both right.now (given_of given.now) (local_of here.now)) }
{
    match given {
        Given::Scalar(Value::Number(_, value)) => {
            if is_zero(*value) {
                Ok(Some(here.gives(truth(false))))
            } else {
                joins(here, right)
            }
        }
        _ => Ok(None),
    }
}

/// The right operand of `||` is evaluated where the left one is false [expr.log.or].
pub fn either<'u>(
    here: &Here<'_, 'u>,
    right: &'u CoreExpr,
    given: &Given,
) -> Result<Option<Change<'u>>, NoMemory>
    ensures { IfOk result (λ c. after c (local_of here.now) ≡ spec.either right.now (given_of given.now) (local_of here.now)) }
{
    match given {
        Given::Scalar(Value::Number(_, value)) => {
            if is_zero(*value) {
                joins(here, right)
            } else {
                Ok(Some(here.gives(truth(true))))
            }
        }
        _ => Ok(None),
    }
}

/// The second operand of `?:` is evaluated where the condition is true, else the third [expr.cond].
pub fn picks<'u>(
    here: &Here<'_, 'u>,
    second: &'u CoreExpr,
    third: &'u CoreExpr,
    given: &Given,
) -> Result<Option<Change<'u>>, NoMemory>
    ensures { IfOk result (λ c. after c (local_of here.now) ≡ spec.picks second.now third.now (given_of given.now) (local_of here.now)) }
{
    match given {
        Given::Scalar(Value::Number(_, value)) => {
            if is_zero(*value) {
                joins(here, third)
            } else {
                joins(here, second)
            }
        }
        _ => Ok(None),
    }
}

/// An object is initialized by the second operand of `?:` where the condition is true, else by the third [expr.cond].
pub fn chooses<'u>(
    here: &Here<'_, 'u>,
    second: &'u Init,
    third: &'u Init,
    into: &Option<Place>,
    given: &Given,
) -> Result<Option<Change<'u>>, NoMemory>
    ensures { IfOk result (λ c. after c (local_of here.now) ≡ spec.chooses second.now third.now (place_if into.now) (given_of given.now) (local_of here.now)) }
{
    match given {
        Given::Scalar(Value::Number(_, value)) => {
            if is_zero(*value) {
                joins_init(here, third, into)
            } else {
                joins_init(here, second, into)
            }
        }
        _ => Ok(None),
    }
}

ghost use Rattle.std.specs.Prelude.{◌≡◌, Some, IfOk};
ghost use Rattle.co_core_tree.specs.declared.exprs.CoreExpr.{CoreExpr as Expression};
ghost use Rattle.co_core_tree.specs.declared.stmts.CoreStmt.{CoreStmt as Statement};
ghost use Rattle.co_eval_data.specs.Agents.{local_of};
ghost use Rattle.co_eval_data.specs.Changed.{after};
ghost use Rattle.co_eval_data.specs.Seen.{frame_with, given_of, going_of, with_loop};
ghost use Rattle.co_eval_data.specs.declared.frames.Step.TheVariants as step;
ghost use Rattle.co_meaning.specs.Statements as statements;
ghost use Rattle.co_meaning.specs.Step as meaning;
ghost use Rattle.co_meaning_data.specs.Frames as frames;
ghost use Rattle.co_meaning_data.specs.Turn as turn;

use crate::fulls::{dropped_under, full_under};
use co_base::NoMemory;
use co_eval_data::{Change, Given, Going, Here, Node, Step, Task};
use co_eval_nodes::{Loop, loop_in};
use co_eval_parts::copy_going;
use co_meaning_data::Value;

/// The body is done where the condition holds, and else the loop is done [stmt.while].
fn tested<'u>(
    here: &Here<'_, 'u>,
    x: Loop<'u>,
    given: &Given,
) -> Result<Option<Change<'u>>, NoMemory>
    requires { (f : Expression → Expression → Statement → frames.Frame) → with_loop f (Some x.whole.now) ≡ f x.condition.now x.step.now x.body.now }
    ensures { IfOk result (λ c. after c (local_of here.now) ≡ statements.loop_tested x.entry.condition.now x.entry.step.now x.entry.body.now (given_of given.now) (local_of here.now)) }
{
    match given {
        Given::Scalar(Value::Number(_, value)) => {
            if *value == 0 {
                return Ok(Some(here.passes()));
            }
            let task = Task::Execute(x.body);
            Ok(Some(here.under(Step::LoopBody, Node::Stmt(x.whole), task)?))
        }
        _ => Ok(None),
    }
}

/// The condition of a loop has been evaluated [stmt.while].
pub fn test_loop<'u>(
    here: &Here<'_, 'u>,
    node: &Node<'u>,
    given: &Given,
) -> Result<Option<Change<'u>>, NoMemory>
    ensures { IfOk result (λ c. after c (local_of here.now) ≡ meaning.receive (frame_with step.LoopTest node.now) (given_of given.now) (local_of here.now)) }
{
    match loop_in(node) {
        Some(x) => tested(here, x, given),
        None => Ok(None),
    }
}

/// The step of a loop follows its body [stmt.for].
fn steps<'u>(here: &Here<'_, 'u>, x: Loop<'u>) -> Result<Option<Change<'u>>, NoMemory>
    requires { (f : Expression → Expression → Statement → frames.Frame) → with_loop f (Some x.whole.now) ≡ f x.condition.now x.step.now x.body.now }
    ensures { IfOk result (λ c. after c (local_of here.now) ≡ statements.loop_body x.entry.condition.now x.entry.step.now x.entry.body.now (local_of here.now)) }
{
    Ok(Some(dropped_under(here, x.step, Step::LoopStep, Node::Stmt(x.whole))?))
}

/// The body of a loop is done [stmt.for].
pub fn pass_body<'u>(here: &Here<'_, 'u>, node: &Node<'u>) -> Result<Option<Change<'u>>, NoMemory>
    ensures { IfOk result (λ c. after c (local_of here.now) ≡ meaning.pass (frame_with step.LoopBody node.now) (local_of here.now)) }
{
    match loop_in(node) {
        Some(x) => steps(here, x),
        None => Ok(None),
    }
}

/// The condition of a loop is evaluated again after its step [stmt.for].
fn tests_again<'u>(here: &Here<'_, 'u>, x: Loop<'u>) -> Result<Option<Change<'u>>, NoMemory>
    requires { (f : Expression → Expression → Statement → frames.Frame) → with_loop f (Some x.whole.now) ≡ f x.condition.now x.step.now x.body.now }
    ensures { IfOk result (λ c. after c (local_of here.now) ≡ statements.loop_step x.entry.condition.now x.entry.step.now x.entry.body.now (local_of here.now)) }
{
    Ok(Some(full_under(here, x.condition, Step::LoopTest, Node::Stmt(x.whole))?))
}

/// The step of a loop is done [stmt.for].
pub fn pass_step<'u>(here: &Here<'_, 'u>, node: &Node<'u>) -> Result<Option<Change<'u>>, NoMemory>
    ensures { IfOk result (λ c. after c (local_of here.now) ≡ meaning.pass (frame_with step.LoopStep node.now) (local_of here.now)) }
{
    match loop_in(node) {
        Some(x) => tests_again(here, x),
        None => Ok(None),
    }
}

fn leaves<'u>(here: &Here<'_, 'u>, going: &Going) -> Result<Option<Change<'u>>, NoMemory>
    ensures { IfOk result (λ c. after c (local_of here.now) ≡ turn.leaves (going_of going.now) (local_of here.now)) }
{
    let going = copy_going(here.alloc, going)?;
    Ok(Some(here.leaves(going)))
}

/// A `break` ends a loop, a `continue` its body [stmt.break] [stmt.cont].
fn left<'u>(here: &Here<'_, 'u>, x: Loop<'u>, going: &Going) -> Result<Option<Change<'u>>, NoMemory>
    requires { (f : Expression → Expression → Statement → frames.Frame) → with_loop f (Some x.whole.now) ≡ f x.condition.now x.step.now x.body.now }
    ensures { IfOk result (λ c. after c (local_of here.now) ≡ statements.loop_left x.entry.condition.now x.entry.step.now x.entry.body.now (going_of going.now) (local_of here.now)) }
{
    match going {
        Going::Breaking => Ok(Some(here.passes())),
        Going::Continuing => steps(here, x),
        Going::Throwing(_) | Going::Returning(_) | Going::Leaving | Going::Destroying => leaves(
            here, going,
        ),
    }
}

/// The body of a loop is left.
pub fn leave_body<'u>(
    here: &Here<'_, 'u>,
    node: &Node<'u>,
    going: &Going,
) -> Result<Option<Change<'u>>, NoMemory>
    ensures { IfOk result (λ c. after c (local_of here.now) ≡ meaning.leave (frame_with step.LoopBody node.now) (going_of going.now) (local_of here.now)) }
{
    match loop_in(node) {
        Some(x) => left(here, x, going),
        None => leaves(here, going),
    }
}

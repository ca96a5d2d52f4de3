ghost use Rattle.std.specs.Prelude.{◌≡◌, [], Some, IfOk};
ghost use Rattle.co_core_tree.specs.Slots.{init_acts_of};
ghost use Rattle.co_eval_data.specs.Agents.{IsTabled, local_of, task_of};
ghost use Rattle.co_eval_data.specs.Changed.{after};
ghost use Rattle.co_eval_data.specs.Seen.{frame_with, going_of, place_if};
ghost use Rattle.co_meaning.specs.Statements as statements;
ghost use Rattle.co_meaning_calls.specs.Calls as calls;
ghost use Rattle.co_meaning_data.specs.Frames as frames;
ghost use Rattle.co_meaning_data.specs.Turn as turn;

use crate::fulls::full_under;
use crate::locals::declare;
use co_base::{NoMemory, Undef};
use co_core_tree::{CoreExpr, CoreStmt, Init};
use co_eval_data::{Change, Effect, Given, Going, Here, Node, Outcome, Place, Step, Task};
use co_eval_fulls::{Opening, open_init};
use co_eval_parts::copy_place_if;
use sqlite_items::Items;

/// The condition of a statement, or its expression, is evaluated first, under a frame that goes on with the statement.
fn first<'u>(
    here: &Here<'_, 'u>,
    s: &'u CoreStmt,
    e: &'u CoreExpr,
    step: Step,
    node: Node<'u>,
) -> Result<Option<Change<'u>>, NoMemory>
    requires { (l : turn.Local) → statements.execute s.now l ≡ statements.full e.now (turn.pushed (frame_with step node) l) }
    ensures { IfOk result (λ c. after c (local_of here.now) ≡ statements.execute s.now (local_of here.now)) }
{
    Ok(Some(full_under(here, e, step, node)?))
}

/// Something is done under a frame that goes on with the statement.
fn under<'u>(
    here: &Here<'_, 'u>,
    s: &'u CoreStmt,
    step: Step,
    node: Node<'u>,
    task: Task<'u>,
) -> Result<Option<Change<'u>>, NoMemory>
    requires { (l : turn.Local) → statements.execute s.now l ≡ turn.under (frame_with step node) (task_of task) l }
    ensures { IfOk result (λ c. after c (local_of here.now) ≡ statements.execute s.now (local_of here.now)) }
{
    Ok(Some(here.under(step, node, task)?))
}

/// Where the result of the call is made, if it is of a class.
#[tactic(auto, using(co_eval_reads::proofs::Parts::into_seen))]
fn result_place(here: &Here<'_, '_>) -> Result<Option<Place>, NoMemory>
    ensures { IfOk result (λ p. place_if p ≡ (local_of here.now).top.into) }
{
    copy_place_if(here.alloc, &here.top.into)
}

/// The value of a `return` is evaluated, and made at its place where it is of a class [stmt.return].
fn return_value<'u>(here: &Here<'_, 'u>, init: &'u Init) -> Result<Option<Change<'u>>, NoMemory>
    ensures { IfOk result (λ c. after c (local_of here.now) ≡ calls.opens (init_acts_of (turn.funcs (local_of here.now)) init.now) [] (frames.Initialize init.now (local_of here.now).top.into) (turn.pushed frames.Returns (local_of here.now))) }
{
    let into = result_place(here)?;
    let opening = Opening {
        effect: Effect::Nothing,
        outer: here.one(Step::Returns, Node::Nothing)?,
        inner: Items::new(here.alloc),
        task: Task::Initialize(init, into),
    };
    Ok(Some(open_init(here, init, opening)?))
}

fn leave<'u>(here: &Here<'_, 'u>, going: Going) -> Result<Option<Change<'u>>, NoMemory>
    ensures { IfOk result (λ c. after c (local_of here.now) ≡ turn.leaves (going_of going) (local_of here.now)) }
{
    Ok(Some(here.leaves(going)))
}

/// A statement is begun [stmt].
#[tactic(auto, using(crate::proofs::Forms::executed))]
pub fn execute<'u>(here: &Here<'_, 'u>, s: &'u CoreStmt) -> Result<Option<Change<'u>>, NoMemory>
    requires { IsTabled here.now.program.now }
    ensures { IfOk result (λ c. after c (local_of here.now) ≡ statements.execute s.now (local_of here.now)) }
{
    match s {
        CoreStmt::Scope(list, _) => under(
            here,
            s,
            Step::Scope(Items::new(here.alloc)),
            Node::Stmts(list, 0),
            Task::Comes(Outcome::Passes),
        ),
        CoreStmt::Full(e, _) => first(here, s, e, Step::Drops, Node::Nothing),
        CoreStmt::Local(slot, init, _) => declare(here, slot.0, init),
        CoreStmt::If(condition, _, _, _) => {
            first(here, s, condition, Step::BranchOn, Node::Stmt(s))
        }
        CoreStmt::Loop(condition, _, _, _) => {
            first(here, s, condition, Step::LoopTest, Node::Stmt(s))
        }
        CoreStmt::Break(_) => leave(here, Going::Breaking),
        CoreStmt::Continue(_) => leave(here, Going::Continuing),
        CoreStmt::Return(None, _) => leave(here, Going::Returning(Given::Nothing)),
        CoreStmt::Return(Some(init), _) => return_value(here, init),
        CoreStmt::Leave(_) => leave(here, Going::Leaving),
        CoreStmt::Try(body, _, _) => under(
            here,
            s,
            Step::Tries,
            Node::Stmt(s),
            Task::Execute(body.get()),
        ),
        CoreStmt::OffEnd(at) => Ok(Some(here.is_undefined(Undef::U6, *at))),
    }
}

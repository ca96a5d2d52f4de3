ghost use Rattle.std.specs.Prelude.{◌≡◌, ◌∷◌, [], map, Some, IfOk};
ghost use Rattle.co_eval_data.specs.Agents.{local_of};
ghost use Rattle.co_eval_data.specs.Changed.{after};
ghost use Rattle.co_eval_data.specs.Seen.{alive_of, frame_with, given_of, stmts_in};
ghost use Rattle.co_eval_data.specs.declared.frames.Step.TheVariants as step;
ghost use Rattle.co_meaning.specs.Statements as statements;
ghost use Rattle.co_meaning.specs.Step as meaning;

use co_base::NoMemory;
use co_core_tree::CoreStmt;
use co_eval_data::{Alive, Change, Given, Here, Node, Outcome, Step, Task};
use co_eval_nodes::{If, following, if_in, next_statement};
use co_eval_parts::{endings, ends};
use co_meaning_data::Value;
use sqlite_items::Items;

fn chosen<'u>(here: &Here<'_, 'u>, x: If<'u>, given: &Given) -> Result<Option<Change<'u>>, NoMemory>
    ensures { IfOk result (λ c. after c (local_of here.now) ≡ statements.branch x.entry.then.now x.entry.otherwise.now (given_of given.now) (local_of here.now)) }
{
    match given {
        Given::Scalar(Value::Number(_, value)) => {
            let branch = if *value == 0 { x.otherwise } else { x.then };
            let task = Task::Execute(branch);
            Ok(Some(here.under(Step::Joined, Node::Nothing, task)?))
        }
        _ => Ok(None),
    }
}

/// The condition of an `if` has been evaluated [stmt.if].
pub fn branch<'u>(
    here: &Here<'_, 'u>,
    node: &Node<'u>,
    given: &Given,
) -> Result<Option<Change<'u>>, NoMemory>
    ensures { IfOk result (λ c. after c (local_of here.now) ≡ meaning.receive (frame_with step.BranchOn node.now) (given_of given.now) (local_of here.now)) }
{
    match if_in(node) {
        Some(x) => chosen(here, x, given),
        None => Ok(None),
    }
}

fn goes_on<'u>(
    here: &Here<'_, 'u>,
    alive: &Items<Alive>,
    first: &'u CoreStmt,
    rest: Node<'u>,
) -> Result<Change<'u>, NoMemory>
    ensures { IfOk result (λ c. after (Some c) (local_of here.now) ≡ statements.next_statement (map alive_of alive.now) (first.now ∷ stmts_in rest.entry) (local_of here.now)) }
{
    let alive = Items::from_slice(here.alloc, alive.as_slice())?;
    here.under(Step::Scope(alive), rest, Task::Execute(first))
}

fn is_done<'u>(here: &Here<'_, 'u>, alive: &Items<Alive>) -> Result<Change<'u>, NoMemory>
    ensures { IfOk result (λ c. after (Some c) (local_of here.now) ≡ statements.next_statement (map alive_of alive.now) [] (local_of here.now)) }
{
    let list = endings(here.alloc, alive.as_slice())?;
    ends(here, list, Outcome::Passes)
}

/// The next statement of a block; at its end its locals die, the newest first [stmt.block].
#[tactic(auto, using(co_eval_nodes::proofs::Rests::first_and_rest))]
pub fn next_of_block<'u>(
    here: &Here<'_, 'u>,
    alive: &Items<Alive>,
    node: &Node<'u>,
) -> Result<Option<Change<'u>>, NoMemory>
    ensures { IfOk result (λ c. after c (local_of here.now) ≡ statements.next_statement (map alive_of alive.now) (stmts_in node.now) (local_of here.now)) }
{
    match next_statement(node) {
        Some(first) => Ok(Some(goes_on(here, alive, first, following(node))?)),
        None => Ok(Some(is_done(here, alive)?)),
    }
}

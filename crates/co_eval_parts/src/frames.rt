ghost use Rattle.std.specs.Prelude.{◌≡◌, true, [], ◌∷◌, Some, IfOk};
ghost use Rattle.co_eval_data.specs.Agents.{local_of, task_of};
ghost use Rattle.co_eval_data.specs.Changed.{effected, goes_on, turned_by};
ghost use Rattle.co_eval_data.specs.Seen.{frame_with};
ghost use Rattle.co_eval_data.specs.declared.frames.Node.TheVariants as node;
ghost use Rattle.co_meaning_data.specs.Frames as meaning;
ghost use Rattle.co_meaning_data.specs.Turn as turn;

use co_base::NoMemory;
use co_eval_data::{Change, Effect, Frame, Here, Node, Outcome, Step, Task, with};
use sqlite_items::Items;

/// The list of these frames, which have no node.
fn two<'u>(here: &Here<'_, 'u>, first: Step, second: Step) -> Result<Items<Frame<'u>>, NoMemory>
    ensures { IfOk result (λ frames. frames ≡ record { step = first; node = node.Nothing } ∷ record { step = second; node = node.Nothing } ∷ []) }
{
    let one = here.one(first, Node::Nothing)?;
    with(one, second, Node::Nothing)
}

/// The list of these frames, which have no node.
fn three<'u>(
    here: &Here<'_, 'u>,
    first: Step,
    second: Step,
    third: Step,
) -> Result<Items<Frame<'u>>, NoMemory>
    ensures { IfOk result (λ frames. frames ≡ record { step = first; node = node.Nothing } ∷ record { step = second; node = node.Nothing } ∷ record { step = third; node = node.Nothing } ∷ []) }
{
    let before = two(here, first, second)?;
    with(before, third, Node::Nothing)
}

/// A call whose arguments are there follows, and the two frames are left to be done after it, the second first.
pub(crate) fn calls_above<'u>(
    here: &Here<'_, 'u>,
    first: Step,
    second: Step,
    call: Step,
) -> Result<Change<'u>, NoMemory>
    ensures { IfOk result (λ c. Some (turned_by c (local_of here.now)) ≡ turn.under (frame_with call node.Nothing) (meaning.Comes meaning.Passes) (turn.pushed (frame_with second node.Nothing) (turn.pushed (frame_with first node.Nothing) (local_of here.now)))) }
{
    let frames = three(here, first, second, call)?;
    Ok(here.above(frames, Task::Comes(Outcome::Passes)))
}

/// This is done, and the agent goes on with the task.
pub(crate) fn does<'u>(here: &Here<'_, 'u>, effect: Effect<'u>, task: Task<'u>) -> Change<'u>
    requires { goes_on effect ≡ true }
    ensures { Some (turned_by result (local_of here.now)) ≡ turn.goes (task_of task.entry) (effected effect.entry (local_of here.now)) }
{
    here.makes(effect, Items::new(here.alloc), task)
}

ghost use Rattle.std.specs.Prelude.{◌≡◌, ◌∷◌, true, Some, IfOk};
ghost use Rattle.co_eval_data.specs.Agents.{local_of, task_of};
ghost use Rattle.co_eval_data.specs.Changed.{effected, goes_on, turned_by};
ghost use Rattle.co_eval_data.specs.Seen.{frame_with, frames_of};
ghost use Rattle.co_meaning_data.specs.Turn as turn;

use co_base::NoMemory;
use co_eval_data::{Change, Effect, Frame, Here, Node, Step, Task};
use sqlite_items::Items;

/// The frames with one more, above them.
#[tactic(auto, using(co_eval_calls::proofs::OnTop::one_more))]
pub(crate) fn above<'u>(
    mut frames: Vec<Frame<'u>>,
    step: Step,
    node: Node<'u>,
) -> Result<Vec<Frame<'u>>, NoMemory>
    ensures { IfOk result (λ more. frames_of more.items ≡ frame_with step node.entry ∷ frames_of frames.entry.items) }
{
    frames.push(Frame { step, node })?;
    Ok(frames)
}

/// This is done, and the agent goes on with the task.
pub(crate) fn does<'u>(here: &Here<'_, 'u>, effect: Effect<'u>, task: Task<'u>) -> Change<'u>
    requires { goes_on effect ≡ true }
    ensures { Some (turned_by result (local_of here.now)) ≡ turn.goes (task_of task.entry) (effected effect.entry (local_of here.now)) }
{
    here.makes(effect, Items::new(here.alloc), task)
}

ghost use Rattle.std.specs.Prelude.{◌≡◌, [], Some, IfOk};
ghost use Rattle.co_eval_data.specs.Agents.{local_of};
ghost use Rattle.co_eval_data.specs.Changed.{all_pushed, turned_by};
ghost use Rattle.co_eval_data.specs.Seen.{frame_with};
ghost use Rattle.co_meaning.specs.Statements as statements;
ghost use Rattle.co_meaning_data.specs.Frames as frames;
ghost use Rattle.co_meaning_data.specs.Turn as turn;

use co_base::NoMemory;
use co_core_tree::CoreExpr;
use co_eval_data::{Change, Effect, Frame, Here, Node, Step, Task, with};
use co_eval_fulls::{Opening, open_expr};
use sqlite_items::Items;

/// An expression that stands for itself, under these frames [intro.execution].
pub(crate) fn full<'u>(
    here: &Here<'_, 'u>,
    e: &'u CoreExpr,
    outer: Items<Frame<'u>>,
) -> Result<Change<'u>, NoMemory>
    ensures { IfOk result (λ c. Some (turned_by c (local_of here.now)) ≡ statements.full e.now (all_pushed outer.entry (local_of here.now))) }
{
    let opening = Opening {
        effect: Effect::Nothing,
        outer,
        inner: Items::new(here.alloc),
        task: Task::Evaluate(e, None),
    };
    open_expr(here, e, opening)
}

/// An expression that stands for itself, under one frame.
pub(crate) fn full_under<'u>(
    here: &Here<'_, 'u>,
    e: &'u CoreExpr,
    step: Step,
    node: Node<'u>,
) -> Result<Change<'u>, NoMemory>
    ensures { IfOk result (λ c. Some (turned_by c (local_of here.now)) ≡ statements.full e.now (turn.pushed (frame_with step node.entry) (local_of here.now))) }
{
    let outer = here.one(step, node)?;
    full(here, e, outer)
}

/// An expression whose value is dropped, under one frame.
pub(crate) fn dropped_under<'u>(
    here: &Here<'_, 'u>,
    e: &'u CoreExpr,
    step: Step,
    node: Node<'u>,
) -> Result<Change<'u>, NoMemory>
    ensures { IfOk result (λ c. Some (turned_by c (local_of here.now)) ≡ statements.full e.now (turn.pushed frames.Drops (turn.pushed (frame_with step node.entry) (local_of here.now)))) }
{
    let outer = with(here.one(step, node)?, Step::Drops, Node::Nothing)?;
    full(here, e, outer)
}

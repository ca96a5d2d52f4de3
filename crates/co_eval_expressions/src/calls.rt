ghost use Rattle.std.specs.Prelude.{◌≡◌, [], None, IfOk};
ghost use Rattle.co_meaning_data.specs.Frames as frames;
ghost use Rattle.co_meaning_data.specs.Turn as turn;
ghost use Rattle.co_eval_data.specs.Agents.{local_of};
ghost use Rattle.co_eval_data.specs.Changed.{after};
ghost use Rattle.co_eval_data.specs.Seen.{place_if};

use co_base::{FuncId, NoMemory, Span};
use co_core_tree::{AwaitPlan, Init};
use co_eval_data::{Call, Change, Here, Node, Outcome, Place, Step, Task};
use co_eval_parts::copy_place_if;
use sqlite_items::Items;

/// A call is begun: its arguments are evaluated first [expr.call].
pub(crate) fn enter_call<'u>(
    here: &Here<'_, 'u>,
    func: FuncId,
    args: &'u Items<Init>,
    into: &Option<Place>,
    at: Span,
) -> Result<Option<Change<'u>>, NoMemory>
    ensures { IfOk result (λ c. after c (local_of here.now) ≡ turn.under (frames.Calling (record { func = func; given = []; objects = []; rest = args.now; into = place_if into.now; at = at })) (frames.Comes frames.Passes) (local_of here.now)) }
{
    let call = Call {
        func,
        given: Items::new(here.alloc),
        objects: Items::new(here.alloc),
        into: copy_place_if(here.alloc, into)?,
        at,
    };
    let task = Task::Comes(Outcome::Passes);
    Ok(Some(here.under(Step::Calling(call), Node::Inits(args, 0), task)?))
}

/// An await is begun: its operand is evaluated first [expr.await].
pub(crate) fn enter_await<'u>(
    here: &Here<'_, 'u>,
    plan: &'u AwaitPlan,
    into: &Option<Place>,
) -> Result<Option<Change<'u>>, NoMemory>
    ensures { IfOk result (λ c. after c (local_of here.now) ≡ turn.under (frames.AwaitOperand plan.now (place_if into.now)) (frames.Evaluate plan.now.operand None) (local_of here.now)) }
{
    let into = copy_place_if(here.alloc, into)?;
    let task = Task::Evaluate(&plan.operand, None);
    Ok(Some(here.under(Step::AwaitOperand(into), Node::Await(plan), task)?))
}

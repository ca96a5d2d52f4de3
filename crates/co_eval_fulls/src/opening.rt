ghost use Rattle.std.specs.Prelude.{◌≡◌, true, ◌∷◌, [], ◌++◌, map, Some, IfOk};
ghost use Rattle.co_core_tree.specs.Slots.{acts_of, class_params, init_acts_of};
ghost use Rattle.co_eval_data.specs.Agents.{local_of};
ghost use Rattle.co_eval_data.specs.Changed.{goes_on, opens_above, turned_by};
ghost use Rattle.co_eval_data.specs.Seen.{temporal_of};
ghost use Rattle.co_eval_data.specs.declared.frames.Node.TheVariants as node;
ghost use Rattle.co_eval_data.specs.declared.frames.Step.TheVariants as step;
ghost use Rattle.co_eval_fulls.specs.FullActs.{acts_of_part};
ghost use Rattle.co_eval_fulls.specs.Fulls.{opens_after, unmade_here};
ghost use Rattle.co_meaning_calls.specs.Calls.{arguments_acts, without};
ghost use Rattle.co_meaning_calls.specs.Calls as calls;
ghost use Rattle.co_meaning_calls.specs.Coroutines.{await_acts};
ghost use Rattle.co_meaning_data.specs.Turn as turn;

use crate::parts::Part;
use crate::temporals::{mark_count, unmade_temporaries};
use co_base::{FuncId, NoMemory};
use co_core_tree::{AwaitPlan, CoreExpr, Init};
use co_eval_data::{Change, Effect, Frame, Here, Node, Step, Task, Temporal, with};
use sqlite_items::Items;

/// What a step does where it opens a full-expression: an effect before, the frames around it and those in it, the last of them
/// the first to be done, and what the agent does next in it.
#[derive(Drop)]
pub struct Opening<'u> {
    pub effect: Effect<'u>,
    pub outer: Items<Frame<'u>>,
    pub inner: Items<Frame<'u>>,
    pub task: Task<'u>,
}

/// The frames around a full-expression with these temporaries, its own, and those in it.
fn framed<'u>(
    outer: Items<Frame<'u>>,
    temporaries: Items<Temporal>,
    inner: Items<Frame<'u>>,
) -> Result<Items<Frame<'u>>, NoMemory>
    ensures { IfOk result (λ frames. frames ≡ (outer.entry ++ record { step = step.Full temporaries; node = node.Nothing } ∷ []) ++ inner.entry) }
{
    let mut frames = with(outer, Step::Full(temporaries), Node::Nothing)?;
    frames.append(inner)?;
    Ok(frames)
}

/// How many of the temporaries of a full-expression have a mark, and the temporaries.
fn marked_temporaries(
    here: &Here<'_, '_>,
    part: Part<'_>,
) -> Result<(u32, Items<Temporal>), NoMemory>
    ensures made { IfOk result (λ t. map temporal_of t.1 ≡ unmade_here (acts_of_part (turn.funcs (local_of here.now)) part.entry) (local_of here.now)) }
    ensures counted { IfOk result (λ t. t.0 ≡ calls.mark_count (map temporal_of t.1)) }
{
    let temporaries = unmade_temporaries(here, part)?;
    let marks = mark_count(temporaries.as_slice())?;
    Ok((marks, temporaries))
}

/// Opens a full-expression with these temporaries, of which so many have a mark.
fn open_with<'u>(
    here: &Here<'_, 'u>,
    marks: u32,
    temporaries: Items<Temporal>,
    opening: Opening<'u>,
) -> Result<Change<'u>, NoMemory>
    requires { goes_on opening.effect ≡ true }
    ensures { IfOk result (λ c. Some (turned_by c (local_of here.now)) ≡ opens_above marks opening.entry.effect ((opening.entry.outer ++ record { step = step.Full temporaries; node = node.Nothing } ∷ []) ++ opening.entry.inner) opening.entry.task (local_of here.now)) }
{
    let Opening {
        effect,
        outer,
        inner,
        task,
    } = opening;
    match framed(outer, temporaries, inner) {
        Ok(frames) => Ok(here.opens(marks, effect, frames, task)),
        Err(_) => Err(NoMemory),
    }
}

/// Opens the full-expression of a part of the program.
fn open<'u>(
    here: &Here<'_, 'u>,
    part: Part<'_>,
    opening: Opening<'u>,
) -> Result<Change<'u>, NoMemory>
    requires { goes_on opening.effect ≡ true }
    ensures { IfOk result (λ c. Some (turned_by c (local_of here.now)) ≡ opens_after (acts_of_part (turn.funcs (local_of here.now)) part.entry) opening.entry.effect opening.entry.outer opening.entry.inner opening.entry.task (local_of here.now)) }
{
    match marked_temporaries(here, part) {
        Ok((marks, temporaries)) => open_with(here, marks, temporaries, opening),
        Err(_) => Err(NoMemory),
    }
}

/// Opens the full-expression of an expression [intro.execution].
pub fn open_expr<'u>(
    here: &Here<'_, 'u>,
    e: &CoreExpr,
    opening: Opening<'u>,
) -> Result<Change<'u>, NoMemory>
    requires { goes_on opening.effect ≡ true }
    ensures { IfOk result (λ c. Some (turned_by c (local_of here.now)) ≡ opens_after (acts_of (turn.funcs (local_of here.now)) e.now) opening.entry.effect opening.entry.outer opening.entry.inner opening.entry.task (local_of here.now)) }
{
    open(here, Part::Expr(e), opening)
}

/// Opens the full-expression of an initializer [intro.execution].
pub fn open_init<'u>(
    here: &Here<'_, 'u>,
    init: &Init,
    opening: Opening<'u>,
) -> Result<Change<'u>, NoMemory>
    requires { goes_on opening.effect ≡ true }
    ensures { IfOk result (λ c. Some (turned_by c (local_of here.now)) ≡ opens_after (init_acts_of (turn.funcs (local_of here.now)) init.now) opening.entry.effect opening.entry.outer opening.entry.inner opening.entry.task (local_of here.now)) }
{
    open(here, Part::Init(init), opening)
}

/// Opens the full-expression of the call of a function, of whose arguments so many are there already.
pub fn open_call<'u>(
    here: &Here<'_, 'u>,
    func: FuncId,
    given: usize,
    rest: &[Init],
    opening: Opening<'u>,
) -> Result<Change<'u>, NoMemory>
    requires { goes_on opening.effect ≡ true }
    ensures { IfOk result (λ c. Some (turned_by c (local_of here.now)) ≡ opens_after (arguments_acts (turn.funcs (local_of here.now)) (without given (class_params (turn.funcs (local_of here.now)) func)) rest.now) opening.entry.effect opening.entry.outer opening.entry.inner opening.entry.task (local_of here.now)) }
{
    open(here, Part::Call(func, given, rest), opening)
}

/// Opens the full-expression of the initial or the final await of a coroutine.
pub fn open_await<'u>(
    here: &Here<'_, 'u>,
    plan: &AwaitPlan,
    opening: Opening<'u>,
) -> Result<Change<'u>, NoMemory>
    requires { goes_on opening.effect ≡ true }
    ensures { IfOk result (λ c. Some (turned_by c (local_of here.now)) ≡ opens_after (await_acts (local_of here.now) plan.now) opening.entry.effect opening.entry.outer opening.entry.inner opening.entry.task (local_of here.now)) }
{
    open(here, Part::Await(plan), opening)
}

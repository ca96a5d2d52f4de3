ghost use Rattle.std.specs.Prelude.{◌≡◌, ◌∷◌, [], IfOk};
ghost use Rattle.co_core_tree.specs.declared.kinds.Answer.TheVariants as answer_kind;
ghost use Rattle.co_eval_data.specs.Agents as seen;
ghost use Rattle.co_eval_data.specs.Agents.{local_of};
ghost use Rattle.co_eval_data.specs.Changed.{after};
ghost use Rattle.co_eval_data.specs.Seen.{frames_of, given_of, going_of, outcome_of};
ghost use Rattle.co_eval_parts.specs.Woken as woken;
ghost use Rattle.co_meaning_calls.specs.Calls as calls;
ghost use Rattle.co_meaning_calls.specs.Coroutines as coroutines;
ghost use Rattle.co_meaning_calls.specs.Objects as objects;
ghost use Rattle.co_meaning_data.specs.Frames as meaning;
ghost use Rattle.co_meaning_data.specs.Turn as turn;
ghost use Rattle.co_meaning_data.specs.Undefined as undefined;

use crate::frames::does;
use co_base::{NoMemory, Span, Undef};
use co_core_tree::Answer;
use co_eval_data::{
    Change, Condition, Effect, Frame, Given, Going, Here, Kind, Node, Outcome, Step, Task, Wake,
    with,
};
use co_eval_parts::{copy_given, copy_going, returns, transfer, unseen_endings};
use co_eval_reads::{coroutine_at, counted_alone, not_taken_back};
use co_meaning_data::Value;
use sqlite_items::Items;

fn is_suspended_condition(condition: &Condition<'_>) -> bool
    ensures { result ≡ woken.is_destroyable_condition (seen.condition_of condition.now) }
{
    match condition {
        Condition::Suspended(..) | Condition::Final(..) => true,
        Condition::Running(_) | Condition::Over => false,
    }
}

/// Whether the coroutine is suspended, maybe at its final suspend point.
fn is_suspended(here: &Here<'_, '_>, coroutine: u64) -> bool
    ensures { result ≡ woken.is_destroyable (undefined.numbered (coroutines.coroutines (local_of here.now)) coroutine) }
{
    match coroutine_at(here, coroutine) {
        Some(coroutine) => is_suspended_condition(&coroutine.condition),
        None => false,
    }
}

/// The coroutine runs again in place of the parked activation.
#[tactic(auto, using(crate::proofs::Resumed::taken_back, crate::proofs::Resumed::not_taken))]
fn runs_again<'u>(here: &Here<'_, 'u>, coroutine: u64, outcome: Outcome) -> Option<Change<'u>>
    ensures { after result (local_of here.now) ≡ coroutines.taken_in coroutine (outcome_of outcome) (local_of here.now) (undefined.numbered (coroutines.coroutines (local_of here.now)) coroutine) }
{
    if is_suspended(here, coroutine) {
        Some(does(
            here,
            Effect::Wakes(coroutine, Kind::OfBody, Wake::Instead),
            Task::Comes(outcome),
        ))
    } else {
        None
    }
}

/// The same, where the coroutine is still at this suspension [expr.await].
fn take_back<'u>(
    here: &Here<'_, 'u>,
    coroutine: u64,
    serial: u64,
    outcome: Outcome,
    at: Span,
) -> Option<Change<'u>>
    ensures { after result (local_of here.now) ≡ coroutines.take_back coroutine serial (outcome_of outcome) at (local_of here.now) }
{
    match counted_alone(Undef::U1, not_taken_back(here, coroutine, serial)) {
        Some(kind) => Some(here.is_undefined(kind, at)),
        None => runs_again(here, coroutine, outcome),
    }
}

/// Whether an integer is 0, which as a `bool` is `false` [conv.bool].
#[tactic(auto, using(crate::proofs::Zero::other))]
fn is_zero(value: i64) -> bool
    ensures { result ≡ coroutines.is_zero value }
{
    value == 0
}

fn stays<'u>(here: &Here<'_, 'u>) -> Result<Option<Change<'u>>, NoMemory>
    ensures { IfOk result (λ c. after c (local_of here.now) ≡ calls.returns meaning.Nothing (local_of here.now)) }
{
    let change = returns(here, Given::Nothing)?;
    Ok(Some(change))
}

/// Where the answer is `false` the coroutine runs again [expr.await].
fn answer_bool<'u>(
    here: &Here<'_, 'u>,
    coroutine: u64,
    serial: u64,
    resumes: bool,
    at: Span,
) -> Result<Option<Change<'u>>, NoMemory>
    ensures { IfOk result (λ c. after c (local_of here.now) ≡ coroutines.answer_bool resumes coroutine serial at (local_of here.now)) }
{
    if resumes {
        Ok(take_back(here, coroutine, serial, Outcome::Passes, at))
    } else {
        stays(here)
    }
}

fn answered_bool<'u>(
    here: &Here<'_, 'u>,
    coroutine: u64,
    serial: u64,
    given: &Given,
    at: Span,
) -> Result<Option<Change<'u>>, NoMemory>
    ensures { IfOk result (λ c. after c (local_of here.now) ≡ coroutines.answered coroutine serial answer_kind.Bool (given_of given.now) at (local_of here.now)) }
{
    match given {
        Given::Scalar(Value::Number(_, number)) => {
            answer_bool(here, coroutine, serial, is_zero(*number), at)
        }
        _ => Ok(None),
    }
}

fn answered_handle<'u>(
    here: &Here<'_, 'u>,
    coroutine: u64,
    serial: u64,
    given: &Given,
    at: Span,
) -> Result<Option<Change<'u>>, NoMemory>
    ensures { IfOk result (λ c. after c (local_of here.now) ≡ coroutines.answered coroutine serial answer_kind.Handle (given_of given.now) at (local_of here.now)) }
{
    match given {
        Given::Scalar(value) => transfer(here, value, at),
        _ => Ok(None),
    }
}

/// What `await_suspend` has answered: nothing and true give control back, false resumes this coroutine, and a handle is resumed
/// in its place [expr.await].
fn answered<'u>(
    here: &Here<'_, 'u>,
    coroutine: u64,
    serial: u64,
    answer: Answer,
    given: &Given,
    at: Span,
) -> Result<Option<Change<'u>>, NoMemory>
    ensures { IfOk result (λ c. after c (local_of here.now) ≡ coroutines.answered coroutine serial answer (given_of given.now) at (local_of here.now)) }
{
    match answer {
        Answer::Void => stays(here),
        Answer::Bool => answered_bool(here, coroutine, serial, given, at),
        Answer::Handle => answered_handle(here, coroutine, serial, given, at),
    }
}

/// The ends of the temporaries of the agent's own, after which the outcome comes to the frame that awaits the answer.
fn own_frames<'u>(
    here: &Here<'_, 'u>,
    coroutine: u64,
    serial: u64,
    answer: Answer,
    own: &[u64],
    outcome: Outcome,
    at: Span,
) -> Result<Items<Frame<'u>>, NoMemory>
    ensures { IfOk result (λ fs. frames_of fs ≡ meaning.Ends (objects.unseen_endings own.now) (outcome_of outcome) ∷ meaning.Answers coroutine serial answer [] at ∷ []) }
{
    let step = Step::Answers(coroutine, serial, answer, Items::new(here.alloc), at);
    let frames = here.one(step, Node::Nothing)?;
    match unseen_endings(here.alloc, own) {
        Ok(list) => with(frames, Step::Ends(list, outcome), Node::Nothing),
        Err(_) => Err(NoMemory),
    }
}

fn own_end<'u>(
    here: &Here<'_, 'u>,
    coroutine: u64,
    serial: u64,
    answer: Answer,
    own: &[u64],
    outcome: Outcome,
    at: Span,
) -> Result<Option<Change<'u>>, NoMemory>
    ensures { IfOk result (λ c. after c (local_of here.now) ≡ objects.ends (objects.unseen_endings own.now) (outcome_of outcome) (turn.pushed (meaning.Answers coroutine serial answer [] at) (local_of here.now))) }
{
    let frames = own_frames(here, coroutine, serial, answer, own, outcome, at)?;
    Ok(Some(here.above(frames, Task::Comes(Outcome::Passes))))
}

fn own_given<'u>(
    here: &Here<'_, 'u>,
    coroutine: u64,
    serial: u64,
    answer: Answer,
    own: &[u64],
    given: &Given,
    at: Span,
) -> Result<Option<Change<'u>>, NoMemory>
    ensures { IfOk result (λ c. after c (local_of here.now) ≡ objects.ends (objects.unseen_endings own.now) (meaning.Gives (given_of given.now)) (turn.pushed (meaning.Answers coroutine serial answer [] at) (local_of here.now))) }
{
    let given = copy_given(here.alloc, given)?;
    own_end(
        here,
        coroutine,
        serial,
        answer,
        own,
        Outcome::Gives(given),
        at,
    )
}

/// What `await_suspend` has answered, before which the temporaries of the agent's own die [expr.await].
pub fn answers<'u>(
    here: &Here<'_, 'u>,
    coroutine: u64,
    serial: u64,
    answer: Answer,
    own: &[u64],
    given: &Given,
    at: Span,
) -> Result<Option<Change<'u>>, NoMemory>
    ensures { IfOk result (λ c. after c (local_of here.now) ≡ coroutines.answers coroutine serial answer own.now (given_of given.now) at (local_of here.now)) }
{
    match own {
        [] => answered(here, coroutine, serial, answer, given, at),
        [_, ..] => own_given(here, coroutine, serial, answer, own, given, at),
    }
}

fn own_left<'u>(
    here: &Here<'_, 'u>,
    coroutine: u64,
    serial: u64,
    answer: Answer,
    own: &[u64],
    going: &Going,
    at: Span,
) -> Result<Option<Change<'u>>, NoMemory>
    ensures { IfOk result (λ c. after c (local_of here.now) ≡ objects.ends (objects.unseen_endings own.now) (meaning.Goes (going_of going.now)) (turn.pushed (meaning.Answers coroutine serial answer [] at) (local_of here.now))) }
{
    let going = copy_going(here.alloc, going)?;
    own_end(
        here,
        coroutine,
        serial,
        answer,
        own,
        Outcome::Goes(going),
        at,
    )
}

fn left_alone<'u>(
    here: &Here<'_, 'u>,
    coroutine: u64,
    serial: u64,
    going: &Going,
    at: Span,
) -> Result<Option<Change<'u>>, NoMemory>
    ensures { IfOk result (λ c. after c (local_of here.now) ≡ coroutines.take_back coroutine serial (meaning.Goes (going_of going.now)) at (local_of here.now)) }
{
    let going = copy_going(here.alloc, going)?;
    Ok(take_back(here, coroutine, serial, Outcome::Goes(going), at))
}

/// An exception out of `await_suspend` is thrown in the coroutine, which runs again [expr.await].
pub fn answer_left<'u>(
    here: &Here<'_, 'u>,
    coroutine: u64,
    serial: u64,
    answer: Answer,
    own: &[u64],
    going: &Going,
    at: Span,
) -> Result<Option<Change<'u>>, NoMemory>
    ensures { IfOk result (λ c. after c (local_of here.now) ≡ coroutines.answer_left coroutine serial answer own.now (going_of going.now) at (local_of here.now)) }
{
    match own {
        [] => left_alone(here, coroutine, serial, going, at),
        [_, ..] => own_left(here, coroutine, serial, answer, own, going, at),
    }
}

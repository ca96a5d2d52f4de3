ghost use Rattle.std.specs.Prelude.{◌≡◌, Some, None, IfOk};
ghost use Rattle.co_eval_data.specs.Agents.{local_of};
ghost use Rattle.co_eval_data.specs.Agents as seen;
ghost use Rattle.co_eval_data.specs.Changed.{after, turned_by};
ghost use Rattle.co_eval_parts.specs.Woken as woken;
ghost use Rattle.co_meaning_calls.specs.Calls as calls;
ghost use Rattle.co_meaning_calls.specs.Coroutines as coroutines;
ghost use Rattle.co_meaning_data.specs.Frames as frames;
ghost use Rattle.co_meaning_data.specs.Undefined as undefined;
ghost use Rattle.co_meaning_data.specs.declared.values.Value.TheVariants as value;

use crate::frames::does;
use crate::returning::returns;
use co_base::{NoMemory, Span, Undef};
use co_eval_data::{Change, Condition, Effect, Given, Going, Here, Kind, Outcome, Task, Wake};
use co_eval_reads::{at_final, coroutine_at, counted_alone, counted_of_two, not_suspended};
use co_meaning_data::Value;

fn is_resumable_condition(condition: &Condition<'_>) -> bool
    ensures { result ≡ woken.is_resumable_condition (seen.condition_of condition.now) }
{
    match condition {
        Condition::Suspended(..) => true,
        Condition::Running(_) | Condition::Final(..) | Condition::Over => false,
    }
}

fn is_resumable(here: &Here<'_, '_>, number: u64) -> bool
    ensures { result ≡ woken.is_resumable (undefined.numbered (coroutines.coroutines (local_of here.now)) number) }
{
    match coroutine_at(here, number) {
        Some(coroutine) => is_resumable_condition(&coroutine.condition),
        None => false,
    }
}

fn is_destroyable_condition(condition: &Condition<'_>) -> bool
    ensures { result ≡ woken.is_destroyable_condition (seen.condition_of condition.now) }
{
    match condition {
        Condition::Suspended(..) | Condition::Final(..) => true,
        Condition::Running(_) | Condition::Over => false,
    }
}

fn is_destroyable(here: &Here<'_, '_>, number: u64) -> bool
    ensures { result ≡ woken.is_destroyable (undefined.numbered (coroutines.coroutines (local_of here.now)) number) }
{
    match coroutine_at(here, number) {
        Some(coroutine) => is_destroyable_condition(&coroutine.condition),
        None => false,
    }
}

/// The suspended coroutine goes on there, where it is suspended and not at its final suspend point.
#[tactic(auto, using(crate::proofs::Resumption::resumes, crate::proofs::Resumption::not_resumed))]
fn wakes<'u>(here: &Here<'_, 'u>, number: u64, place: Wake) -> Option<Change<'u>>
    ensures { after result (local_of here.now) ≡ woken.stands_there place (coroutines.wakes number (local_of here.now)) }
{
    if is_resumable(here, number) {
        Some(does(
            here,
            Effect::Wakes(number, Kind::OfBody, place),
            Task::Comes(Outcome::Passes),
        ))
    } else {
        None
    }
}

fn resume<'u>(here: &Here<'_, 'u>, number: u64, at: Span) -> Option<Change<'u>>
    ensures { after result (local_of here.now) ≡ coroutines.resume_handle (value.Handle number) at (local_of here.now) }
{
    let suspended = (Undef::U1, not_suspended(here, number));
    let ended = (Undef::U2, at_final(here, number));
    match counted_of_two(suspended, ended) {
        Some(kind) => Some(here.is_undefined(kind, at)),
        None => wakes(here, number, Wake::Above),
    }
}

/// `resume()` of a handle [coroutine.handle.resumption].
pub fn resume_handle<'u>(
    here: &Here<'_, 'u>,
    handle: &Value,
    at: Span,
) -> Result<Option<Change<'u>>, NoMemory>
    ensures { IfOk result (λ c. after c (local_of here.now) ≡ coroutines.resume_handle handle.now at (local_of here.now)) }
{
    match handle {
        Value::Handle(number) => Ok(resume(here, *number, at)),
        Value::Noop => Ok(Some(here.gives(Given::Nothing))),
        Value::Null => Ok(Some(here.is_undefined(Undef::U4, at))),
        Value::Number(..)
        | Value::Pointer(..)
        | Value::Block(_)
        | Value::Frame(_)
        | Value::NoopFrame
        | Value::Kind(_)
        | Value::Empty => Ok(None),
    }
}

fn transfer_to<'u>(here: &Here<'_, 'u>, number: u64, at: Span) -> Option<Change<'u>>
    ensures { after result (local_of here.now) ≡ coroutines.transfer (value.Handle number) at (local_of here.now) }
{
    let suspended = (Undef::U1, not_suspended(here, number));
    let ended = (Undef::U2, at_final(here, number));
    match counted_of_two(suspended, ended) {
        Some(kind) => Some(here.is_undefined(kind, at)),
        None => wakes(here, number, Wake::Instead),
    }
}

fn transfer_to_none<'u>(here: &Here<'_, 'u>) -> Result<Option<Change<'u>>, NoMemory>
    ensures { IfOk result (λ c. after c (local_of here.now) ≡ calls.returns frames.Nothing (local_of here.now)) }
{
    let change = returns(here, Given::Nothing)?;
    Ok(Some(change))
}

/// The handle that `await_suspend` gives is resumed in place of the parked activation [expr.await].
pub fn transfer<'u>(
    here: &Here<'_, 'u>,
    handle: &Value,
    at: Span,
) -> Result<Option<Change<'u>>, NoMemory>
    ensures { IfOk result (λ c. after c (local_of here.now) ≡ coroutines.transfer handle.now at (local_of here.now)) }
{
    match handle {
        Value::Handle(number) => Ok(transfer_to(here, *number, at)),
        Value::Noop => transfer_to_none(here),
        Value::Null => Ok(Some(here.is_undefined(Undef::U4, at))),
        Value::Number(..)
        | Value::Pointer(..)
        | Value::Block(_)
        | Value::Frame(_)
        | Value::NoopFrame
        | Value::Kind(_)
        | Value::Empty => Ok(None),
    }
}

/// The suspended coroutine is destroyed, where it is suspended.
#[tactic(auto, using(crate::proofs::Resumption::destroys, crate::proofs::Resumption::not_destroyed))]
fn destroyed<'u>(here: &Here<'_, 'u>, number: u64) -> Option<Change<'u>>
    ensures { after result (local_of here.now) ≡ coroutines.destroyed number (local_of here.now) (undefined.numbered (coroutines.coroutines (local_of here.now)) number) }
{
    if is_destroyable(here, number) {
        Some(does(
            here,
            Effect::Wakes(number, Kind::OfDestroy, Wake::Above),
            Task::Comes(Outcome::Goes(Going::Destroying)),
        ))
    } else {
        None
    }
}

fn destroy<'u>(here: &Here<'_, 'u>, number: u64, at: Span) -> Option<Change<'u>>
    ensures { after result (local_of here.now) ≡ coroutines.destroy_handle (value.Handle number) at (local_of here.now) }
{
    match counted_alone(Undef::U1, not_suspended(here, number)) {
        Some(kind) => Some(here.is_undefined(kind, at)),
        None => destroyed(here, number),
    }
}

/// `destroy()` of a handle [coroutine.handle.resumption].
pub fn destroy_handle<'u>(
    here: &Here<'_, 'u>,
    handle: &Value,
    at: Span,
) -> Result<Option<Change<'u>>, NoMemory>
    ensures { IfOk result (λ c. after c (local_of here.now) ≡ coroutines.destroy_handle handle.now at (local_of here.now)) }
{
    match handle {
        Value::Handle(number) => Ok(destroy(here, *number, at)),
        Value::Noop => Ok(Some(here.gives(Given::Nothing))),
        Value::Null => Ok(Some(here.is_undefined(Undef::U4, at))),
        Value::Number(..)
        | Value::Pointer(..)
        | Value::Block(_)
        | Value::Frame(_)
        | Value::NoopFrame
        | Value::Kind(_)
        | Value::Empty => Ok(None),
    }
}

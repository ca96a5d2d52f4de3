ghost use Rattle.std.specs.Prelude.{◌≡◌, map, Some, IfOk};
ghost use Rattle.co_core_tree.specs.declared.kinds.HandleOp.TheVariants as act;
ghost use Rattle.co_eval_data.specs.Agents.{local_of};
ghost use Rattle.co_eval_data.specs.Changed.{after};
ghost use Rattle.co_eval_data.specs.Seen.{given_of};
ghost use Rattle.co_meaning.specs.Library as library;
ghost use Rattle.co_meaning_data.specs.Turn as turn;
ghost use Rattle.co_meaning_data.specs.declared.values.Value.TheVariants as value;

use crate::addresses::{address_given, from_address};
use crate::operands::{one_place, one_scalar};
use crate::promises::{from_promise, promise_of};
use co_base::{ClassId, NoMemory, Num, Span, Undef};
use co_core_tree::HandleOp;
use co_eval_data::{Change, Given, Here};
use co_eval_parts::{destroy_handle, resume_handle};
use co_eval_reads::{at_final, counted_alone, not_suspended};
use co_meaning_data::Value;

fn truth(b: bool) -> Given
    ensures { given_of result ≡ turn.truth b }
{
    Given::Scalar(Value::Number(Num::Bool, i64::from(b)))
}

fn is_done_of<'u>(here: &Here<'_, 'u>, coroutine: u64, at: Span) -> Change<'u>
    ensures { after (Some result) (local_of here.now) ≡ library.is_done (value.Handle coroutine) at (local_of here.now) }
{
    match counted_alone(Undef::U3, not_suspended(here, coroutine)) {
        Some(kind) => here.is_undefined(kind, at),
        None => here.gives(truth(at_final(here, coroutine))),
    }
}

/// `done()` of a handle: whether the coroutine is suspended at its final suspend point [coroutine.handle.observers].
fn is_done<'u>(here: &Here<'_, 'u>, handle: &Value, at: Span) -> Option<Change<'u>>
    ensures { after result (local_of here.now) ≡ library.is_done handle.now at (local_of here.now) }
{
    match handle {
        Value::Handle(coroutine) => Some(is_done_of(here, *coroutine, at)),
        Value::Noop => Some(here.gives(truth(false))),
        Value::Null => Some(here.is_undefined(Undef::U4, at)),
        _ => None,
    }
}

#[tactic(auto, using(crate::proofs::OnHandles::not_resume))]
fn resume<'u>(
    here: &Here<'_, 'u>,
    operands: &[Given],
    at: Span,
) -> Result<Option<Change<'u>>, NoMemory>
    ensures { IfOk result (λ c. after c (local_of here.now) ≡ library.on_handle act.Resume (map given_of operands.now) at (local_of here.now)) }
{
    match one_scalar(operands) {
        Some(value) => resume_handle(here, value, at),
        None => Ok(None),
    }
}

#[tactic(auto, using(crate::proofs::OnHandles::not_destroy))]
fn destroy<'u>(
    here: &Here<'_, 'u>,
    operands: &[Given],
    at: Span,
) -> Result<Option<Change<'u>>, NoMemory>
    ensures { IfOk result (λ c. after c (local_of here.now) ≡ library.on_handle act.Destroy (map given_of operands.now) at (local_of here.now)) }
{
    match one_scalar(operands) {
        Some(value) => destroy_handle(here, value, at),
        None => Ok(None),
    }
}

#[tactic(auto, using(crate::proofs::OnHandles::not_done))]
fn done<'u>(
    here: &Here<'_, 'u>,
    operands: &[Given],
    at: Span,
) -> Result<Option<Change<'u>>, NoMemory>
    ensures { IfOk result (λ c. after c (local_of here.now) ≡ library.on_handle act.Done (map given_of operands.now) at (local_of here.now)) }
{
    match one_scalar(operands) {
        Some(value) => Ok(is_done(here, value, at)),
        None => Ok(None),
    }
}

#[tactic(auto, using(crate::proofs::OnHandles::not_promise))]
fn promise<'u>(
    here: &Here<'_, 'u>,
    operands: &[Given],
    at: Span,
) -> Result<Option<Change<'u>>, NoMemory>
    ensures { IfOk result (λ c. after c (local_of here.now) ≡ library.on_handle act.Promise (map given_of operands.now) at (local_of here.now)) }
{
    match one_scalar(operands) {
        Some(value) => Ok(promise_of(here, value, at)),
        None => Ok(None),
    }
}

#[tactic(auto, using(crate::proofs::OnHandles::not_from_promise))]
fn of_promise<'u>(
    here: &Here<'_, 'u>,
    operands: &[Given],
    at: Span,
) -> Result<Option<Change<'u>>, NoMemory>
    ensures { IfOk result (λ c. after c (local_of here.now) ≡ library.on_handle act.FromPromise (map given_of operands.now) at (local_of here.now)) }
{
    match one_place(operands) {
        Some(place) => Ok(Some(from_promise(here, place, at))),
        None => Ok(None),
    }
}

#[tactic(auto, using(crate::proofs::OnHandles::not_address))]
fn address<'u>(
    here: &Here<'_, 'u>,
    operands: &[Given],
    _at: Span,
) -> Result<Option<Change<'u>>, NoMemory>
    ensures { IfOk result (λ c. after c (local_of here.now) ≡ library.on_handle act.Address (map given_of operands.now) _at (local_of here.now)) }
{
    match one_scalar(operands) {
        Some(value) => Ok(address_given(here, value)),
        None => Ok(None),
    }
}

#[tactic(auto, using(crate::proofs::OnHandles::not_from_address))]
fn of_address<'u>(
    here: &Here<'_, 'u>,
    class: Option<ClassId>,
    operands: &[Given],
    at: Span,
) -> Result<Option<Change<'u>>, NoMemory>
    ensures { IfOk result (λ c. after c (local_of here.now) ≡ library.on_handle (act.FromAddress class) (map given_of operands.now) at (local_of here.now)) }
{
    match one_scalar(operands) {
        Some(value) => Ok(Some(from_address(here, class, value, at))),
        None => Ok(None),
    }
}

#[tactic(auto, using(crate::proofs::OnHandles::noop, crate::proofs::OnHandles::not_noop))]
fn no_operation<'u>(
    here: &Here<'_, 'u>,
    operands: &[Given],
    _at: Span,
) -> Result<Option<Change<'u>>, NoMemory>
    ensures { IfOk result (λ c. after c (local_of here.now) ≡ library.on_handle act.Noop (map given_of operands.now) _at (local_of here.now)) }
{
    match operands {
        [] => Ok(Some(here.gives(Given::Scalar(Value::Noop)))),
        [_, ..] => Ok(None),
    }
}

/// An act on a handle [coroutine.handle].
pub(crate) fn on_handle<'u>(
    here: &Here<'_, 'u>,
    op: HandleOp,
    operands: &[Given],
    at: Span,
) -> Result<Option<Change<'u>>, NoMemory>
    ensures { IfOk result (λ c. after c (local_of here.now) ≡ library.on_handle op (map given_of operands.now) at (local_of here.now)) }
{
    match op {
        HandleOp::Resume => resume(here, operands, at),
        HandleOp::Destroy => destroy(here, operands, at),
        HandleOp::Done => done(here, operands, at),
        HandleOp::Promise => promise(here, operands, at),
        HandleOp::FromPromise => of_promise(here, operands, at),
        HandleOp::Address => address(here, operands, at),
        HandleOp::FromAddress(class) => of_address(here, class, operands, at),
        HandleOp::Noop => no_operation(here, operands, at),
    }
}

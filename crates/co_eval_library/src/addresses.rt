ghost use Rattle.std.specs.Prelude.{◌≡◌, Some};
ghost use Rattle.std.specs.Option.{option_copied};
ghost use Rattle.co_eval_data.specs.Agents.{local_of};
ghost use Rattle.co_eval_data.specs.Changed.{after};
ghost use Rattle.co_meaning.specs.Library as library;
ghost use Rattle.co_meaning_calls.specs.Coroutines as coroutines;
ghost use Rattle.co_meaning_data.specs.Undefined as undefined;
ghost use Rattle.co_meaning_data.specs.declared.values.Value.TheVariants as value;

use crate::promises::wrong;
use co_base::{ClassId, Span};
use co_core_tree::{CoreFunc, PromisePlan};
use co_eval_data::{Change, Given, Here};
use co_eval_reads::{coroutine_at, func_at, wrong_object};
use co_meaning_data::Value;

fn gives<'u>(here: &Here<'_, 'u>, value: Value) -> Option<Change<'u>>
    ensures { after result (local_of here.now) ≡ library.given_or_none (Some value) (local_of here.now) }
{
    Some(here.gives(Given::Scalar(value)))
}

/// `address()` of a handle [coroutine.handle.export.import].
pub(crate) fn address_given<'u>(here: &Here<'_, 'u>, handle: &Value) -> Option<Change<'u>>
    ensures { after result (local_of here.now) ≡ library.given_or_none (library.address_given handle.now) (local_of here.now) }
{
    match handle {
        Value::Handle(number) => gives(here, Value::Frame(*number)),
        Value::Noop => gives(here, Value::NoopFrame),
        Value::Null => gives(here, Value::Null),
        _ => None,
    }
}

fn class_of_plan(plan: Option<&PromisePlan>, class: ClassId) -> bool
    ensures { result ≡ library.class_of_plan (option_copied plan.entry) class }
{
    match plan {
        Some(plan) => plan.promise.0 == class.0,
        None => false,
    }
}

fn class_of_func(func: Option<&CoreFunc>, class: ClassId) -> bool
    ensures { result ≡ library.class_of_func (option_copied func.entry) class }
{
    match func {
        Some(func) => class_of_plan(func.plan.as_ref(), class),
        None => false,
    }
}

/// Whether the promise of the coroutine of a number is of a class.
fn is_of_class(here: &Here<'_, '_>, class: ClassId, number: u64) -> bool
    ensures { result ≡ library.has_class (local_of here.now) (Some class) (undefined.numbered (coroutines.coroutines (local_of here.now)) number) }
{
    match coroutine_at(here, number) {
        Some(coroutine) => class_of_func(func_at(here, coroutine.func), class),
        None => false,
    }
}

fn has_class(here: &Here<'_, '_>, class: Option<ClassId>, number: u64) -> bool
    ensures { result ≡ library.has_class (local_of here.now) class (undefined.numbered (coroutines.coroutines (local_of here.now)) number) }
{
    match class {
        Some(class) => is_of_class(here, class, number),
        None => true,
    }
}

fn from_frame<'u>(here: &Here<'_, 'u>, class: Option<ClassId>, number: u64, at: Span) -> Change<'u>
    ensures { after (Some result) (local_of here.now) ≡ library.from_address class (value.Frame number) at (local_of here.now) }
{
    if wrong_object(here, number) || !has_class(here, class, number) {
        wrong(here, at)
    } else {
        here.gives(Given::Scalar(Value::Handle(number)))
    }
}

fn from_noop<'u>(here: &Here<'_, 'u>, class: Option<ClassId>, at: Span) -> Change<'u>
    ensures { after (Some result) (local_of here.now) ≡ library.from_address class value.NoopFrame at (local_of here.now) }
{
    match class {
        Some(_) => wrong(here, at),
        None => here.gives(Given::Scalar(Value::Noop)),
    }
}

/// `from_address` of what `address()` gave [coroutine.handle.export.import].
pub(crate) fn from_address<'u>(
    here: &Here<'_, 'u>,
    class: Option<ClassId>,
    address: &Value,
    at: Span,
) -> Change<'u>
    ensures { after (Some result) (local_of here.now) ≡ library.from_address class address.now at (local_of here.now) }
{
    match address {
        Value::Frame(number) => from_frame(here, class, *number, at),
        Value::NoopFrame => from_noop(here, class, at),
        Value::Null => here.gives(Given::Scalar(Value::Null)),
        _ => wrong(here, at),
    }
}

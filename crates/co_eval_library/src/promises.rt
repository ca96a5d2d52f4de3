ghost use Rattle.std.specs.Prelude.{◌≡◌, Some};
ghost use Rattle.co_eval_data.specs.Agents.{local_of};
ghost use Rattle.co_eval_data.specs.Changed.{after};
ghost use Rattle.co_eval_data.specs.Seen.{place_of};
ghost use Rattle.co_meaning.specs.Library as library;
ghost use Rattle.co_meaning_calls.specs.Coroutines as coroutines;
ghost use Rattle.co_meaning_data.specs.Store as store;
ghost use Rattle.co_meaning_data.specs.Turn as turn;
ghost use Rattle.co_meaning_data.specs.Undefined as undefined;

use co_base::{Span, Undef};
use co_eval_data::{Change, Given, Here, Place};
use co_eval_reads::{coroutine_at, coroutine_in, wrong_object};
use co_meaning_data::Value;

/// What is meant is no promise and no frame of a coroutine that has not ended [coroutine.handle.promise].
pub(crate) fn wrong<'u>(here: &Here<'_, 'u>, at: Span) -> Change<'u>
    ensures { after (Some result) (local_of here.now) ≡ library.wrong at (local_of here.now) }
{
    here.is_undefined(Undef::U3, at)
}

fn promise_given<'u>(
    here: &Here<'_, 'u>,
    is_over: bool,
    promise: Option<u64>,
    at: Span,
) -> Change<'u>
    ensures { after (Some result) (local_of here.now) ≡ library.promise_given is_over promise at (local_of here.now) }
{
    if is_over {
        return wrong(here, at);
    }
    match promise {
        Some(object) => here.gives(Given::At(Place::whole(here.alloc, object))),
        None => wrong(here, at),
    }
}

fn promise_by<'u>(here: &Here<'_, 'u>, number: u64, at: Span) -> Change<'u>
    ensures { after (Some result) (local_of here.now) ≡ library.promise_by number at (local_of here.now) (undefined.numbered (coroutines.coroutines (local_of here.now)) number) }
{
    match coroutine_at(here, number) {
        Some(coroutine) => promise_given(here, wrong_object(here, number), coroutine.promise, at),
        None => wrong(here, at),
    }
}

/// `promise()` of a handle: the place of the promise [coroutine.handle.promise].
pub(crate) fn promise_of<'u>(here: &Here<'_, 'u>, handle: &Value, at: Span) -> Option<Change<'u>>
    ensures { after result (local_of here.now) ≡ library.promise_of handle.now at (local_of here.now) }
{
    match handle {
        Value::Handle(number) => Some(promise_by(here, *number, at)),
        Value::Noop => Some(wrong(here, at)),
        Value::Null => Some(here.is_undefined(Undef::U4, at)),
        _ => None,
    }
}

fn has_promise(object: u64, promise: Option<u64>) -> bool
    ensures { result ≡ library.has_promise object promise }
{
    match promise {
        Some(other) => object == other,
        None => false,
    }
}

fn is_its_promise(here: &Here<'_, '_>, object: u64, number: u64) -> bool
    ensures { result ≡ library.is_its_promise object (undefined.numbered (coroutines.coroutines (local_of here.now)) number) }
{
    match coroutine_at(here, number) {
        Some(coroutine) => has_promise(object, coroutine.promise),
        None => false,
    }
}

fn handle_for<'u>(here: &Here<'_, 'u>, object: u64, number: u64, at: Span) -> Change<'u>
    ensures { after (Some result) (local_of here.now) ≡ library.handle_for object number at (local_of here.now) }
{
    if !is_its_promise(here, object, number) || wrong_object(here, number) {
        wrong(here, at)
    } else {
        here.gives(Given::Scalar(Value::Handle(number)))
    }
}

fn handle_in<'u>(here: &Here<'_, 'u>, object: u64, at: Span) -> Change<'u>
    ensures { after (Some result) (local_of here.now) ≡ library.handle_in object at (local_of here.now) (store.coroutine_in (store.object_at (turn.store (local_of here.now)) object)) }
{
    match coroutine_in(here, object) {
        Some(number) => handle_for(here, object, number, at),
        None => wrong(here, at),
    }
}

/// `from_promise` of a place: the coroutine whose promise stands there [coroutine.handle.export.import].
pub(crate) fn from_promise<'u>(here: &Here<'_, 'u>, place: &Place, at: Span) -> Change<'u>
    ensures { after (Some result) (local_of here.now) ≡ library.from_promise (place_of place.now) at (local_of here.now) }
{
    match place.path.as_slice() {
        [] => handle_in(here, place.object, at),
        [_, ..] => wrong(here, at),
    }
}

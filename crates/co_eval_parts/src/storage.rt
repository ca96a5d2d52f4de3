ghost use Rattle.std.specs.Prelude.{◌≡◌, ◌*◌, [], ◌∷◌, map, Some, None, IfOk};
ghost use Rattle.co_core_tree.specs.declared.kinds.GivePlan.TheVariants as give;
ghost use Rattle.co_eval_data.specs.Agents.{local_of};
ghost use Rattle.co_eval_data.specs.Changed.{after, turned_by};
ghost use Rattle.co_eval_data.specs.Seen.{frame_with, given_of, outcome_of, place_if};
ghost use Rattle.co_eval_data.specs.declared.frames.Node.TheVariants as node;
ghost use Rattle.co_meaning_calls.specs.Coroutines as coroutines;
ghost use Rattle.co_meaning_calls.specs.Objects as objects;
ghost use Rattle.co_meaning_data.specs.Frames as meaning;
ghost use Rattle.co_meaning_data.specs.Turn as turn;
ghost use Rattle.co_meaning_data.specs.declared.values.Value.TheVariants as value;

use crate::copies::copy_outcome;
use crate::frames::{calls_above, does};
use co_base::{FuncId, NoMemory, Num, Span, Undef};
use co_core_tree::GivePlan;
use co_eval_data::{Call, Change, Effect, Given, Here, Outcome, Place, Step, Task};
use co_eval_reads::{counted_alone, is_no_block, next_block};
use co_meaning_data::Value;
use sqlite_items::Items;

/// A call with these arguments, the last first, and no others. Its frame has no node.
pub fn call_with(
    here: &Here<'_, '_>,
    func: FuncId,
    given: Items<Given>,
    into: Option<Place>,
    at: Span,
) -> Step
    ensures { frame_with result node.Nothing ≡ objects.call_with func (map given_of given) (place_if into) at }
{
    Step::Calling(Call {
        func,
        given,
        objects: Items::new(here.alloc),
        into,
        at,
    })
}

/// A number of bytes, as `std::size_t`.
pub fn size_given(bytes: u64) -> Given
    ensures { given_of result ≡ coroutines.size_given bytes }
{
    Given::Scalar(Value::Number(Num::Size, bytes.cast_signed()))
}

/// The global `operator new` gives a new block of so many words [new.delete.single].
pub fn take_block<'u>(here: &Here<'_, 'u>, words: u64) -> Change<'u>
    ensures { Some (turned_by result (local_of here.now)) ≡ coroutines.take_block words (local_of here.now) }
{
    let block = Value::Block(next_block(here));
    does(
        here,
        Effect::AddsBlock(words),
        Task::Comes(Outcome::Gives(Given::Scalar(block))),
    )
}

/// A block is released by the global `operator delete` [new.delete.single].
pub fn release_value<'u>(
    here: &Here<'_, 'u>,
    value: &Value,
    outcome: Outcome,
    at: Span,
) -> Result<Option<Change<'u>>, NoMemory>
    ensures { IfOk result (λ c. after c (local_of here.now) ≡ coroutines.release_value value.now (outcome_of outcome) at (local_of here.now)) }
{
    match value {
        Value::Block(block) => Ok(Some(release_block(here, *block, outcome, at))),
        Value::Number(..)
        | Value::Pointer(..)
        | Value::Frame(_)
        | Value::NoopFrame
        | Value::Handle(_)
        | Value::Noop
        | Value::Null
        | Value::Kind(_)
        | Value::Empty => Ok(None),
    }
}

fn release_block<'u>(here: &Here<'_, 'u>, block: u64, outcome: Outcome, at: Span) -> Change<'u>
    ensures { Some (turned_by result (local_of here.now)) ≡ coroutines.release_value (value.Block block) (outcome_of outcome) at (local_of here.now) }
{
    does(here, Effect::Releases(block), Task::Comes(outcome))
}

/// Storage is released by the global `operator delete`, where it may be.
fn release_checked<'u>(
    here: &Here<'_, 'u>,
    block: u64,
    _words: u64,
    outcome: Outcome,
    at: Span,
) -> Change<'u>
    ensures { Some (turned_by result (local_of here.now)) ≡ coroutines.releases block _words give.Global (outcome_of outcome) at (local_of here.now) }
{
    match counted_alone(Undef::U11, is_no_block(here, &Value::Block(block))) {
        Some(kind) => here.is_undefined(kind, at),
        None => release_block(here, block, outcome, at),
    }
}

/// A function of the program releases the storage, and what it gives is dropped before the outcome comes.
fn release_by<'u>(
    here: &Here<'_, 'u>,
    func: FuncId,
    given: Items<Given>,
    outcome: &Outcome,
    at: Span,
) -> Result<Change<'u>, NoMemory>
    ensures { IfOk result (λ c. Some (turned_by c (local_of here.now)) ≡ turn.under (objects.call_with func (map given_of given) None at) (meaning.Comes meaning.Passes) (turn.pushed meaning.Drops (turn.pushed (meaning.Ends [] (outcome_of outcome.now)) (local_of here.now)))) }
{
    let outcome = copy_outcome(here.alloc, outcome)?;
    let ends = Step::Ends(Items::new(here.alloc), outcome);
    let call = call_with(here, func, given, None, at);
    calls_above(here, ends, Step::Drops, call)
}

/// The arguments of an `operator delete` that takes the address alone.
fn address_given(here: &Here<'_, '_>, block: u64) -> Result<Items<Given>, NoMemory>
    ensures { IfOk result (λ given. map given_of given ≡ meaning.Scalar (value.Block block) ∷ []) }
{
    let mut given = Items::new(here.alloc);
    given.push(Given::Scalar(Value::Block(block)))?;
    Ok(given)
}

/// The arguments of one that takes the address and the size, the last first.
fn size_and_address_given(
    here: &Here<'_, '_>,
    block: u64,
    words: u64,
) -> Result<Items<Given>, NoMemory>
    ensures { IfOk result (λ given. map given_of given ≡ coroutines.size_given (8 * words) ∷ meaning.Scalar (value.Block block) ∷ []) }
{
    let Some(bytes) = words.checked_mul(8) else {
        return Err(NoMemory);
    };
    let mut given = Items::new(here.alloc);
    given.push(size_given(bytes))?;
    given.push(Given::Scalar(Value::Block(block)))?;
    Ok(given)
}

/// Storage is released by the global `operator delete`.
fn release_global<'u>(
    here: &Here<'_, 'u>,
    block: u64,
    words: u64,
    outcome: &Outcome,
    at: Span,
) -> Result<Option<Change<'u>>, NoMemory>
    ensures { IfOk result (λ c. after c (local_of here.now) ≡ coroutines.releases block words give.Global (outcome_of outcome.now) at (local_of here.now)) }
{
    let outcome = copy_outcome(here.alloc, outcome)?;
    Ok(Some(release_checked(here, block, words, outcome, at)))
}

/// It is released by a function that takes the address alone.
fn release_own<'u>(
    here: &Here<'_, 'u>,
    block: u64,
    words: u64,
    func: FuncId,
    outcome: &Outcome,
    at: Span,
) -> Result<Option<Change<'u>>, NoMemory>
    ensures { IfOk result (λ c. after c (local_of here.now) ≡ coroutines.releases block words (give.Own func) (outcome_of outcome.now) at (local_of here.now)) }
{
    let given = address_given(here, block)?;
    Ok(Some(release_by(here, func, given, outcome, at)?))
}

/// It is released by a function that takes the address and the size.
fn release_own_sized<'u>(
    here: &Here<'_, 'u>,
    block: u64,
    words: u64,
    func: FuncId,
    outcome: &Outcome,
    at: Span,
) -> Result<Option<Change<'u>>, NoMemory>
    ensures { IfOk result (λ c. after c (local_of here.now) ≡ coroutines.releases block words (give.OwnSized func) (outcome_of outcome.now) at (local_of here.now)) }
{
    let given = size_and_address_given(here, block, words)?;
    Ok(Some(release_by(here, func, given, outcome, at)?))
}

/// Storage of so many words is released by the chosen `operator delete` [expr.delete].
pub fn releases<'u>(
    here: &Here<'_, 'u>,
    block: u64,
    words: u64,
    give: GivePlan,
    outcome: &Outcome,
    at: Span,
) -> Result<Option<Change<'u>>, NoMemory>
    ensures { IfOk result (λ c. after c (local_of here.now) ≡ coroutines.releases block words give (outcome_of outcome.now) at (local_of here.now)) }
{
    match give {
        GivePlan::Global => release_global(here, block, words, outcome, at),
        GivePlan::Own(func) => release_own(here, block, words, func, outcome, at),
        GivePlan::OwnSized(func) => release_own_sized(here, block, words, func, outcome, at),
    }
}

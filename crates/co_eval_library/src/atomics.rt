ghost use Rattle.std.specs.Prelude.{◌≡◌, ◌∷◌, [], false, map, IfOk};
ghost use Rattle.co_core_tree.specs.declared.kinds.AtomicOp.TheVariants as atomic;
ghost use Rattle.co_eval_data.specs.Agents.{IsTabled, local_of};
ghost use Rattle.co_eval_data.specs.Changed.{after};
ghost use Rattle.co_eval_data.specs.Seen.{given_of, place_of};
ghost use Rattle.co_meaning.specs.Library as library;
ghost use Rattle.co_meaning_data.specs.Access as access;
ghost use Rattle.co_meaning_data.specs.Frames as frames;
ghost use Rattle.co_meaning_data.specs.Turn as turn;

use crate::operands::{both_in, one_place, place_in, scalar_and_place};
use co_base::{NoMemory, Span};
use co_core_tree::AtomicOp;
use co_eval_accesses::{Exchange, swap};
use co_eval_data::{Change, Given, Here, Node, Outcome, Place, Step, Task, copy_value};
use co_meaning_data::Value;
use sqlite_items::Items;

/// The value of the atomic at a place is to be read.
fn reads<'u>(here: &Here<'_, 'u>, place: &Place, at: Span) -> Result<Option<Change<'u>>, NoMemory>
    ensures { IfOk result (λ c. after c (local_of here.now) ≡ turn.goes (frames.Reads (place_of place.now) 1 [] at) (local_of here.now)) }
{
    let place = place.copy(here.alloc)?;
    Ok(Some(here.goes(Task::Reads(place, 1, Items::new(here.alloc), at))))
}

#[tactic(auto, using(crate::proofs::OnAtomics::not_load))]
fn load<'u>(
    here: &Here<'_, 'u>,
    operands: &[Given],
    at: Span,
) -> Result<Option<Change<'u>>, NoMemory>
    ensures { IfOk result (λ c. after c (local_of here.now) ≡ library.on_atomic atomic.Load (map given_of operands.now) at (local_of here.now)) }
{
    match one_place(operands) {
        Some(place) => reads(here, place, at),
        None => Ok(None),
    }
}

/// A value is to be written to the atomic at a place.
fn writes<'u>(
    here: &Here<'_, 'u>,
    value: &Value,
    place: &Place,
    at: Span,
) -> Result<Option<Change<'u>>, NoMemory>
    ensures { IfOk result (λ c. after c (local_of here.now) ≡ turn.goes (frames.Writes false (place_of place.now) 0 (value.now ∷ []) (frames.Gives frames.Nothing) at) (local_of here.now)) }
{
    let mut values = Items::new(here.alloc);
    values.push(copy_value(here.alloc, value)?)?;
    let place = place.copy(here.alloc)?;
    let outcome = Outcome::Gives(Given::Nothing);
    Ok(Some(here.goes(Task::Writes(false, place, 0, values, outcome, at))))
}

#[tactic(auto, using(crate::proofs::OnAtomics::not_store))]
fn store<'u>(
    here: &Here<'_, 'u>,
    operands: &[Given],
    at: Span,
) -> Result<Option<Change<'u>>, NoMemory>
    ensures { IfOk result (λ c. after c (local_of here.now) ≡ library.on_atomic atomic.Store (map given_of operands.now) at (local_of here.now)) }
{
    match scalar_and_place(operands) {
        Some((value, place)) => writes(here, value, place, at),
        None => Ok(None),
    }
}

fn exchanges<'u>(
    here: &Here<'_, 'u>,
    value: &Value,
    place: &Place,
    at: Span,
) -> Result<Option<Change<'u>>, NoMemory>
    requires { IsTabled here.now.program.now }
    ensures { IfOk result (λ c. after c (local_of here.now) ≡ access.swap (λ old. value.now) (place_of place.now) at (local_of here.now)) }
{
    let value = copy_value(here.alloc, value)?;
    swap(here, Exchange::For(value), place, at)
}

#[tactic(auto, using(crate::proofs::OnAtomics::not_swap))]
fn exchange<'u>(
    here: &Here<'_, 'u>,
    operands: &[Given],
    at: Span,
) -> Result<Option<Change<'u>>, NoMemory>
    requires { IsTabled here.now.program.now }
    ensures { IfOk result (λ c. after c (local_of here.now) ≡ library.on_atomic atomic.Swap (map given_of operands.now) at (local_of here.now)) }
{
    match scalar_and_place(operands) {
        Some((value, place)) => exchanges(here, value, place, at),
        None => Ok(None),
    }
}

fn adds<'u>(
    here: &Here<'_, 'u>,
    value: &Value,
    place: &Place,
    at: Span,
) -> Result<Option<Change<'u>>, NoMemory>
    requires { IsTabled here.now.program.now }
    ensures { IfOk result (λ c. after c (local_of here.now) ≡ library.on_atomic atomic.Add (frames.Scalar value.now ∷ frames.At (place_of place.now) ∷ []) at (local_of here.now)) }
{
    match value {
        Value::Number(_, more) => swap(here, Exchange::Plus(*more), place, at),
        Value::Pointer(..)
        | Value::Block(_)
        | Value::Frame(_)
        | Value::NoopFrame
        | Value::Handle(_)
        | Value::Noop
        | Value::Null
        | Value::Kind(_)
        | Value::Empty => Ok(None),
    }
}

fn add<'u>(
    here: &Here<'_, 'u>,
    operands: &[Given],
    at: Span,
) -> Result<Option<Change<'u>>, NoMemory>
    requires { IsTabled here.now.program.now }
    ensures { IfOk result (λ c. after c (local_of here.now) ≡ library.on_atomic atomic.Add (map given_of operands.now) at (local_of here.now)) }
{
    match scalar_and_place(operands) {
        Some((value, place)) => adds(here, value, place, at),
        None => Ok(None),
    }
}

fn subtracts<'u>(
    here: &Here<'_, 'u>,
    value: &Value,
    place: &Place,
    at: Span,
) -> Result<Option<Change<'u>>, NoMemory>
    requires { IsTabled here.now.program.now }
    ensures { IfOk result (λ c. after c (local_of here.now) ≡ library.on_atomic atomic.Sub (frames.Scalar value.now ∷ frames.At (place_of place.now) ∷ []) at (local_of here.now)) }
{
    match value {
        Value::Number(_, less) => swap(here, Exchange::Minus(*less), place, at),
        Value::Pointer(..)
        | Value::Block(_)
        | Value::Frame(_)
        | Value::NoopFrame
        | Value::Handle(_)
        | Value::Noop
        | Value::Null
        | Value::Kind(_)
        | Value::Empty => Ok(None),
    }
}

fn subtract<'u>(
    here: &Here<'_, 'u>,
    operands: &[Given],
    at: Span,
) -> Result<Option<Change<'u>>, NoMemory>
    requires { IsTabled here.now.program.now }
    ensures { IfOk result (λ c. after c (local_of here.now) ≡ library.on_atomic atomic.Sub (map given_of operands.now) at (local_of here.now)) }
{
    match scalar_and_place(operands) {
        Some((value, place)) => subtracts(here, value, place, at),
        None => Ok(None),
    }
}

/// The expected value is read first.
fn compares<'u>(
    here: &Here<'_, 'u>,
    desired: &Value,
    expected: &Place,
    place: &Place,
    at: Span,
) -> Result<Option<Change<'u>>, NoMemory>
    ensures { IfOk result (λ c. after c (local_of here.now) ≡ turn.under (frames.CompareAt (place_of place.now) (place_of expected.now) (frames.Scalar desired.now) at) (frames.Reads (place_of expected.now) 1 [] at) (local_of here.now)) }
{
    let desired = Given::Scalar(copy_value(here.alloc, desired)?);
    let place = place.copy(here.alloc)?;
    let awaited = Step::CompareAt(place, expected.copy(here.alloc)?, desired, at);
    let task = Task::Reads(expected.copy(here.alloc)?, 1, Items::new(here.alloc), at);
    Ok(Some(here.under(awaited, Node::Nothing, task)?))
}

/// The operands of a compare-and-exchange are these.
fn compares_given<'u>(
    here: &Here<'_, 'u>,
    desired: &Given,
    expected: &Given,
    place: &Given,
    at: Span,
) -> Result<Option<Change<'u>>, NoMemory>
    ensures { IfOk result (λ c. after c (local_of here.now) ≡ library.on_atomic atomic.Cas (given_of desired.now ∷ given_of expected.now ∷ given_of place.now ∷ []) at (local_of here.now)) }
{
    match place_in(place) {
        Some(place) => compares_at(here, desired, expected, place, at),
        None => Ok(None),
    }
}

fn compares_at<'u>(
    here: &Here<'_, 'u>,
    desired: &Given,
    expected: &Given,
    place: &Place,
    at: Span,
) -> Result<Option<Change<'u>>, NoMemory>
    ensures { IfOk result (λ c. after c (local_of here.now) ≡ library.on_atomic atomic.Cas (given_of desired.now ∷ given_of expected.now ∷ frames.At (place_of place.now) ∷ []) at (local_of here.now)) }
{
    match both_in(desired, expected) {
        Some((desired, expected)) => compares(here, desired, expected, place, at),
        None => Ok(None),
    }
}

fn compare<'u>(
    here: &Here<'_, 'u>,
    operands: &[Given],
    at: Span,
) -> Result<Option<Change<'u>>, NoMemory>
    ensures { IfOk result (λ c. after c (local_of here.now) ≡ library.on_atomic atomic.Cas (map given_of operands.now) at (local_of here.now)) }
{
    match operands {
        [desired, expected, place] => compares_given(here, desired, expected, place, at),
        _ => Ok(None),
    }
}

/// An act on an atomic [atomics.types.operations].
pub(crate) fn on_atomic<'u>(
    here: &Here<'_, 'u>,
    op: AtomicOp,
    operands: &[Given],
    at: Span,
) -> Result<Option<Change<'u>>, NoMemory>
    requires { IsTabled here.now.program.now }
    ensures { IfOk result (λ c. after c (local_of here.now) ≡ library.on_atomic op (map given_of operands.now) at (local_of here.now)) }
{
    match op {
        AtomicOp::Load => load(here, operands, at),
        AtomicOp::Store => store(here, operands, at),
        AtomicOp::Swap => exchange(here, operands, at),
        AtomicOp::Add => add(here, operands, at),
        AtomicOp::Sub => subtract(here, operands, at),
        AtomicOp::Cas => compare(here, operands, at),
    }
}

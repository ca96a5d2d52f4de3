ghost use Rattle.std.specs.Prelude.{◌≡◌, ◌∷◌, ◌++◌, [], map, Some, IfOk, length, pos};
ghost use Rattle.co_base.specs.declared.kinds.Print.TheVariants as print;
ghost use Rattle.co_core_tree.specs.Sizes as sizes;
ghost use Rattle.co_core_tree.specs.declared.kinds.LibOp.TheVariants as call;
ghost use Rattle.co_eval_data.specs.Agents.{local_of};
ghost use Rattle.co_eval_data.specs.Changed.{after};
ghost use Rattle.co_eval_data.specs.Seen.{given_of};
ghost use Rattle.co_meaning.specs.Library as library;
ghost use Rattle.co_meaning_calls.specs.Coroutines as coroutines;
ghost use Rattle.co_meaning_data.specs.Frames as frames;
ghost use Rattle.co_meaning_data.specs.Turn as turn;
ghost use Rattle.co_meaning_data.specs.Undefined as undefined;

use crate::operands::{given_back, one_number, one_scalar};
use co_base::{NoMemory, Num, Print, Span, Undef};
use co_core_tree::LibOp;
use co_eval_data::{Change, Effect, Given, Here, Outcome, Task, copy_value};
use co_eval_parts::{release_value, take_block};
use co_eval_reads::{block_addressed, counted_alone, is_no_block};
use co_meaning_data::{Event, Value};
use sqlite_items::Items;

/// A line is printed.
#[tactic(auto, using(co_eval_reads::proofs::Parts::worker_seen))]
fn prints<'u>(here: &Here<'_, 'u>, line: Print) -> Change<'u>
    ensures { after (Some result) (local_of here.now) ≡ library.prints line (local_of here.now) }
{
    here.makes(
        Effect::Happens(Event::Print(here.worker, line)),
        Items::new(here.alloc),
        Task::Comes(Outcome::Gives(Given::Nothing)),
    )
}

#[tactic(auto, using(crate::proofs::OfLibrary::not_print_number))]
fn print<'u>(
    here: &Here<'_, 'u>,
    operands: &[Given],
    _at: Span,
) -> Result<Option<Change<'u>>, NoMemory>
    ensures { IfOk result (λ c. after c (local_of here.now) ≡ library.of_library call.Print (map given_of operands.now) _at (local_of here.now)) }
{
    match one_number(operands) {
        Some(value) => Ok(Some(prints(here, Print::Num(value)))),
        None => Ok(None),
    }
}

fn text_number(value: i64) -> Result<u32, NoMemory>
    ensures { IfOk result (λ n. n ≡ library.text_number value) }
{
    if value < 0 {
        return Ok(0);
    }
    match u32::try_from(value) {
        Ok(number) => Ok(number),
        Err(_) => Err(NoMemory),
    }
}

fn prints_text<'u>(here: &Here<'_, 'u>, value: i64) -> Result<Option<Change<'u>>, NoMemory>
    ensures { IfOk result (λ c. after c (local_of here.now) ≡ library.prints (print.Lit (library.text_number value)) (local_of here.now)) }
{
    let number = text_number(value)?;
    Ok(Some(prints(here, Print::Lit(number))))
}

#[tactic(auto, using(crate::proofs::OfLibrary::not_print_text))]
fn lit<'u>(
    here: &Here<'_, 'u>,
    operands: &[Given],
    _at: Span,
) -> Result<Option<Change<'u>>, NoMemory>
    ensures { IfOk result (λ c. after c (local_of here.now) ≡ library.of_library call.Lit (map given_of operands.now) _at (local_of here.now)) }
{
    match one_number(operands) {
        Some(value) => prints_text(here, value),
        None => Ok(None),
    }
}

fn posts<'u>(here: &Here<'_, 'u>, handle: &Value) -> Result<Option<Change<'u>>, NoMemory>
    ensures { IfOk result (λ c. after c (local_of here.now) ≡ turn.gives frames.Nothing (record (local_of here.now) { shared = record (local_of here.now).shared { posted = (local_of here.now).shared.posted ++ handle.now ∷ [] } })) }
{
    let handle = copy_value(here.alloc, handle)?;
    let task = Task::Comes(Outcome::Gives(Given::Nothing));
    Ok(Some(here.makes(Effect::Posts(handle), Items::new(here.alloc), task)))
}

/// A handle is posted, and any agent may take it.
fn post_value<'u>(
    here: &Here<'_, 'u>,
    handle: &Value,
    at: Span,
) -> Result<Option<Change<'u>>, NoMemory>
    ensures { IfOk result (λ c. after c (local_of here.now) ≡ library.post handle.now at (local_of here.now)) }
{
    match handle {
        Value::Null => Ok(Some(here.is_undefined(Undef::U4, at))),
        _ => posts(here, handle),
    }
}

#[tactic(auto, using(crate::proofs::OfLibrary::not_post))]
fn post<'u>(
    here: &Here<'_, 'u>,
    operands: &[Given],
    at: Span,
) -> Result<Option<Change<'u>>, NoMemory>
    ensures { IfOk result (λ c. after c (local_of here.now) ≡ library.of_library call.Post (map given_of operands.now) at (local_of here.now)) }
{
    match one_scalar(operands) {
        Some(handle) => post_value(here, handle, at),
        None => Ok(None),
    }
}

fn long(value: i64) -> Given
    ensures { given_of result ≡ library.long_given value }
{
    Given::Scalar(Value::Number(Num::Long, value))
}

/// The input of a number, or 0.
fn input_at(inputs: &[i64], number: i64) -> i64
    ensures { result ≡ library.input inputs.now number }
{
    if number < 0 {
        return 0;
    }
    match inputs.get(number as usize) {
        Some(value) => *value,
        None => 0,
    }
}

/// The input of a number is given.
#[tactic(auto, using(co_eval_reads::proofs::Parts::inputs_seen))]
fn gives_input<'u>(here: &Here<'_, 'u>, number: i64) -> Change<'u>
    ensures { after (Some result) (local_of here.now) ≡ turn.gives (library.long_given (library.input (local_of here.now).program.inputs number)) (local_of here.now) }
{
    let value = input_at(here.program.inputs.as_slice(), number);
    here.gives(long(value))
}

#[tactic(auto, using(crate::proofs::OfLibrary::not_input))]
fn input<'u>(
    here: &Here<'_, 'u>,
    operands: &[Given],
    _at: Span,
) -> Result<Option<Change<'u>>, NoMemory>
    ensures { IfOk result (λ c. after c (local_of here.now) ≡ library.of_library call.Input (map given_of operands.now) _at (local_of here.now)) }
{
    match one_number(operands) {
        Some(number) => Ok(Some(gives_input(here, number))),
        None => Ok(None),
    }
}

/// A count as a number of 64 bits.
fn number_of(count: usize) -> Result<i64, NoMemory>
    ensures { IfOk result (λ n. n ≡ pos count) }
{
    match i64::try_from(count) {
        Ok(number) => Ok(number),
        Err(_) => Err(NoMemory),
    }
}

/// The number of inputs is given.
#[tactic(auto, using(co_eval_reads::proofs::Parts::inputs_seen))]
fn gives_count<'u>(here: &Here<'_, 'u>) -> Result<Option<Change<'u>>, NoMemory>
    ensures { IfOk result (λ c. after c (local_of here.now) ≡ turn.gives (library.long_given (pos (length (local_of here.now).program.inputs))) (local_of here.now)) }
{
    let count = number_of(here.program.inputs.len())?;
    Ok(Some(here.gives(long(count))))
}

#[tactic(auto, using(crate::proofs::OfLibrary::inputs, crate::proofs::OfLibrary::not_inputs))]
fn inputs<'u>(
    here: &Here<'_, 'u>,
    operands: &[Given],
    _at: Span,
) -> Result<Option<Change<'u>>, NoMemory>
    ensures { IfOk result (λ c. after c (local_of here.now) ≡ library.of_library call.Inputs (map given_of operands.now) _at (local_of here.now)) }
{
    match operands {
        [] => gives_count(here),
        [_, ..] => Ok(None),
    }
}

#[tactic(auto, using(crate::proofs::Numbers::more_than_none))]
fn at_least_one(words: u64) -> u64
    ensures { result ≡ sizes.at_least_one words }
{
    if words == 0 { 1 } else { words }
}

/// The words of so many bytes, rounded up, at least one.
fn words_for(bytes: i64) -> Result<u64, NoMemory>
    ensures { IfOk result (λ words. words ≡ library.words_for bytes) }
{
    match bytes.cast_unsigned().checked_add(7) {
        Some(more) => Ok(at_least_one(more / 8)),
        None => Err(NoMemory),
    }
}

fn takes<'u>(here: &Here<'_, 'u>, bytes: i64) -> Result<Option<Change<'u>>, NoMemory>
    ensures { IfOk result (λ c. after c (local_of here.now) ≡ coroutines.take_block (library.words_for bytes) (local_of here.now)) }
{
    let words = words_for(bytes)?;
    Ok(Some(take_block(here, words)))
}

#[tactic(auto, using(crate::proofs::OfLibrary::not_take))]
fn take<'u>(
    here: &Here<'_, 'u>,
    operands: &[Given],
    _at: Span,
) -> Result<Option<Change<'u>>, NoMemory>
    ensures { IfOk result (λ c. after c (local_of here.now) ≡ library.of_library call.Take (map given_of operands.now) _at (local_of here.now)) }
{
    match one_number(operands) {
        Some(bytes) => takes(here, bytes),
        None => Ok(None),
    }
}

#[tactic(auto, using(crate::proofs::Released::at_block, crate::proofs::Released::at_none))]
fn gives_back_value<'u>(
    here: &Here<'_, 'u>,
    value: &Value,
    at: Span,
) -> Result<Option<Change<'u>>, NoMemory>
    ensures { IfOk result (λ c. after c (local_of here.now) ≡ coroutines.release_value (undefined.address_of (turn.store (local_of here.now)) (coroutines.coroutines (local_of here.now)) value.now) (frames.Gives frames.Nothing) at (local_of here.now)) }
{
    match block_addressed(here, value) {
        Some(block) => release_value(
            here,
            &Value::Block(block),
            Outcome::Gives(Given::Nothing),
            at,
        ),
        None => Ok(None),
    }
}

fn gives_back_storage<'u>(
    here: &Here<'_, 'u>,
    value: &Value,
    at: Span,
) -> Result<Option<Change<'u>>, NoMemory>
    ensures { IfOk result (λ c. after c (local_of here.now) ≡ turn.unless_undefined (record { kind = Undef.U11; holds = undefined.is_no_block (turn.store (local_of here.now)) (coroutines.coroutines (local_of here.now)) value.now } ∷ []) at (local_of here.now) (coroutines.release_value (undefined.address_of (turn.store (local_of here.now)) (coroutines.coroutines (local_of here.now)) value.now) (frames.Gives frames.Nothing) at (local_of here.now))) }
{
    match counted_alone(Undef::U11, is_no_block(here, value)) {
        Some(kind) => Ok(Some(here.is_undefined(kind, at))),
        None => gives_back_value(here, value, at),
    }
}

/// A release of null does nothing [new.delete.single].
fn gives_back<'u>(
    here: &Here<'_, 'u>,
    value: &Value,
    at: Span,
) -> Result<Option<Change<'u>>, NoMemory>
    ensures { IfOk result (λ c. after c (local_of here.now) ≡ library.gives_back value.now at (local_of here.now)) }
{
    match value {
        Value::Null => Ok(Some(here.gives(Given::Nothing))),
        _ => gives_back_storage(here, value, at),
    }
}

#[tactic(auto, using(crate::proofs::OfLibrary::not_give))]
fn give<'u>(
    here: &Here<'_, 'u>,
    operands: &[Given],
    at: Span,
) -> Result<Option<Change<'u>>, NoMemory>
    ensures { IfOk result (λ c. after c (local_of here.now) ≡ library.of_library call.Give (map given_of operands.now) at (local_of here.now)) }
{
    match given_back(operands) {
        Some(value) => gives_back(here, value, at),
        None => Ok(None),
    }
}

/// A call of `corun`, of the global `operator new` or of the global `operator delete`.
pub(crate) fn of_library<'u>(
    here: &Here<'_, 'u>,
    op: LibOp,
    operands: &[Given],
    at: Span,
) -> Result<Option<Change<'u>>, NoMemory>
    ensures { IfOk result (λ c. after c (local_of here.now) ≡ library.of_library op (map given_of operands.now) at (local_of here.now)) }
{
    match op {
        LibOp::Print => print(here, operands, at),
        LibOp::Lit => lit(here, operands, at),
        LibOp::Post => post(here, operands, at),
        LibOp::Input => input(here, operands, at),
        LibOp::Inputs => inputs(here, operands, at),
        LibOp::Take => take(here, operands, at),
        LibOp::Give => give(here, operands, at),
    }
}

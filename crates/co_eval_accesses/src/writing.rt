ghost use Rattle.std.specs.Prelude.{◌≡◌, ◌+◌, suc, Some, IfOk};
ghost use Rattle.co_eval_data.specs.Agents.{IsTabled, local_of, task_of};
ghost use Rattle.co_eval_data.specs.Changed.{after};
ghost use Rattle.co_eval_data.specs.Seen.{given_of, outcome_of, place_of};
ghost use Rattle.co_meaning_data.specs.Access as access;
ghost use Rattle.co_eval_data.specs.declared.changes.Effect.TheVariants as effect;
ghost use Rattle.co_meaning_data.specs.Frames as frames;
ghost use Rattle.co_meaning_data.specs.Store as store;
ghost use Rattle.co_meaning_data.specs.Turn as turn;
ghost use Rattle.co_meaning_data.specs.Undefined as undefined;

use crate::scalars::parts_for;
use co_base::{NoMemory, Span, Undef};
use co_eval_data::{Change, Effect, Given, Here, Outcome, Place, Task, copy_value, copy_values};
use co_eval_parts::copy_outcome;
use co_eval_reads::{cell_at, counted_alone, is_ended, is_outside, offset_at, type_at};
use co_meaning_data::{Cell, Value};
use sqlite_items::Items;

/// The value is written to the cell of the word of a number of the scalar at a place.
pub(crate) fn written<'u>(
    here: &Here<'_, 'u>,
    place: &Place,
    word: u32,
    value: Value,
) -> Result<Effect<'u>, NoMemory>
    requires { IsTabled here.now.program.now }
    ensures { IfOk result (λ e. e ≡ effect.Writes place.now.object (store.offset_at (turn.classes (local_of here.now)) (turn.store (local_of here.now)) (place_of place.now) + word) value) }
{
    let offset = offset_at(here, place)?;
    match offset.checked_add(word as u64) {
        Some(cell) => Ok(Effect::Writes(place.object, cell as usize, value)),
        None => Err(NoMemory),
    }
}

/// What an agent does next once a word of a scalar is written, and these are left.
fn task_after<'u>(
    here: &Here<'_, 'u>,
    initial: bool,
    place: &Place,
    done: u32,
    left: Items<Value>,
    outcome: &Outcome,
    at: Span,
) -> Result<Task<'u>, NoMemory>
    ensures { IfOk result (λ t. (l : turn.Local) → turn.goes (task_of t) l ≡ access.write_on initial (place_of place.now) done left (outcome_of outcome.now) at l) }
{
    let outcome = copy_outcome(here.alloc, outcome)?;
    if left.is_empty() {
        return Ok(Task::Comes(outcome));
    }
    let place = place.copy(here.alloc)?;
    Ok(Task::Writes(initial, place, done, left, outcome, at))
}

/// Whether a scalar may not be written: it is outside its lifetime, or where it is initialized its object has ended [basic.life].
fn write_fault(here: &Here<'_, '_>, initial: bool, place: &Place, cell: &Cell) -> Option<Undef>
    ensures { result ≡ undefined.counts (access.write_faults initial (place_of place.now) cell.now (local_of here.now)) }
{
    if initial {
        counted_alone(Undef::U7, is_ended(here, place.object))
    } else {
        counted_alone(Undef::U7, is_outside(cell))
    }
}

/// A word of a scalar that is written: its number, the value that it gets, and those that are left after it.
#[derive(Drop)]
struct Word {
    number: u32,
    value: Value,
    left: Items<Value>,
}

fn write_on<'u>(
    here: &Here<'_, 'u>,
    initial: bool,
    place: &Place,
    word: Word,
    outcome: &Outcome,
    at: Span,
) -> Result<Change<'u>, NoMemory>
    requires { IsTabled here.now.program.now }
    ensures { IfOk result (λ c. after (Some c) (local_of here.now) ≡ access.write_on initial (place_of place.now) (suc word.number) word.left (outcome_of outcome.now) at (access.written (place_of place.now) word.number word.value (local_of here.now))) }
{
    let Word {
        number,
        value,
        left,
    } = word;
    let Some(next) = number.checked_add(1) else {
        return Err(NoMemory);
    };
    let effect = written(here, place, number, value)?;
    let task = task_after(here, initial, place, next, left, outcome, at)?;
    Ok(here.makes(effect, Items::new(here.alloc), task))
}

fn write_cell<'u>(
    here: &Here<'_, 'u>,
    initial: bool,
    place: &Place,
    word: Word,
    outcome: &Outcome,
    at: Span,
    cell: &Cell,
) -> Result<Change<'u>, NoMemory>
    requires { IsTabled here.now.program.now }
    ensures { IfOk result (λ c. after (Some c) (local_of here.now) ≡ access.write_cell initial (place_of place.now) word.number word.value word.left (outcome_of outcome.now) at (local_of here.now) (Some cell.now)) }
{
    match write_fault(here, initial, place, cell) {
        Some(kind) => Ok(here.is_undefined(kind, at)),
        None => write_on(here, initial, place, word, outcome, at),
    }
}

/// The first of these values is the next word of a scalar that is written, the others are those after it.
fn word_of<'u>(
    here: &Here<'_, 'u>,
    number: u32,
    value: &Value,
    left: &[Value],
) -> Result<Word, NoMemory>
    ensures { IfOk result (λ w. w ≡ record { number = number; value = value.now; left = left.now }) }
{
    let value = copy_value(here.alloc, value)?;
    let left = copy_values(here.alloc, left)?;
    Ok(Word {
        number,
        value,
        left,
    })
}

fn write_next<'u>(
    here: &Here<'_, 'u>,
    initial: bool,
    place: &Place,
    word: Word,
    outcome: &Outcome,
    at: Span,
) -> Result<Option<Change<'u>>, NoMemory>
    requires { IsTabled here.now.program.now }
    ensures { IfOk result (λ c. after c (local_of here.now) ≡ access.write_cell initial (place_of place.now) word.number word.value word.left (outcome_of outcome.now) at (local_of here.now) (store.cell_at (turn.classes (local_of here.now)) (turn.store (local_of here.now)) (place_of place.now) word.number)) }
{
    match cell_at(here, place, word.number as u64) {
        Some(cell) => Ok(Some(write_cell(here, initial, place, word, outcome, at, cell)?)),
        None => Ok(None),
    }
}

fn comes<'u>(here: &Here<'_, 'u>, outcome: &Outcome) -> Result<Option<Change<'u>>, NoMemory>
    ensures { IfOk result (λ c. after c (local_of here.now) ≡ turn.goes (frames.Comes (outcome_of outcome.now)) (local_of here.now)) }
{
    let outcome = copy_outcome(here.alloc, outcome)?;
    Ok(Some(here.goes(Task::Comes(outcome))))
}

/// The next word of a scalar is written, of which so many are written already, and then the outcome comes [expr.ass] [dcl.init].
pub fn writes<'u>(
    here: &Here<'_, 'u>,
    initial: bool,
    place: &Place,
    done: u32,
    left: &Items<Value>,
    outcome: &Outcome,
    at: Span,
) -> Result<Option<Change<'u>>, NoMemory>
    requires { IsTabled here.now.program.now }
    ensures { IfOk result (λ c. after c (local_of here.now) ≡ access.writes initial (place_of place.now) done left.now (outcome_of outcome.now) at (local_of here.now)) }
{
    match left.as_slice() {
        [] => comes(here, outcome),
        [value, rest @ ..] => {
            let word = word_of(here, done, value, rest)?;
            write_next(here, initial, place, word, outcome, at)
        }
    }
}

/// What was given is to be written to the scalar at a place, and then the outcome comes.
pub fn put<'u>(
    here: &Here<'_, 'u>,
    initial: bool,
    place: &Place,
    given: &Given,
    outcome: Outcome,
    at: Span,
) -> Result<Option<Change<'u>>, NoMemory>
    ensures { IfOk result (λ c. after c (local_of here.now) ≡ access.put initial (place_of place.now) (given_of given.now) (outcome_of outcome) at (local_of here.now)) }
{
    match parts_for(here.alloc, type_at(here, place), given)? {
        Some(values) => {
            let place = place.copy(here.alloc)?;
            Ok(Some(here.goes(Task::Writes(initial, place, 0, values, outcome, at))))
        }
        None => Ok(None),
    }
}

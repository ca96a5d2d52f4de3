ghost use Rattle.std.specs.Prelude.{◌≡◌, ◌++◌, [], Some, IfOk};
ghost use Rattle.co_eval_data.specs.Agents.{IsTabled, local_of, task_of};
ghost use Rattle.co_eval_data.specs.Changed.{after};
ghost use Rattle.co_eval_data.specs.Seen.{place_of};
ghost use Rattle.co_meaning_data.specs.Access as access;
ghost use Rattle.co_meaning_data.specs.Frames as frames;
ghost use Rattle.co_meaning_data.specs.Store as store;
ghost use Rattle.co_meaning_data.specs.Turn as turn;

use crate::scalars::given_by;
use co_base::{NoMemory, Span, Undef};
use co_eval_data::{Change, Here, Place, Task, copy_value, copy_values};
use co_eval_reads::{cell_at, counted_of_two, is_indeterminate, is_outside, type_at, words_of};
use co_meaning_data::{Cell, Value};
use sqlite_items::Items;
use std::alloc::Global;

/// A count of words as 32 bits.
fn small(words: u64) -> Result<u32, NoMemory>
    ensures { IfOk result (λ n. n ≡ words) }
{
    match u32::try_from(words) {
        Ok(words) => Ok(words),
        Err(_) => Err(NoMemory),
    }
}

/// What an agent does next that is to read the value of the scalar at a place [conv.lval].
pub fn read_of<'u>(here: &Here<'_, 'u>, place: &Place, at: Span) -> Result<Task<'u>, NoMemory>
    requires { IsTabled here.now.program.now }
    ensures { IfOk result (λ t. task_of t ≡ frames.Reads (place_of place.now) (store.words_of (turn.classes (local_of here.now)) (store.type_at (turn.classes (local_of here.now)) (turn.store (local_of here.now)) (place_of place.now))) [] at) }
{
    let words = small(words_of(here, type_at(here, place)))?;
    let place = place.copy(here.alloc)?;
    Ok(Task::Reads(place, words, Items::new(here.alloc), at))
}

/// The value of the scalar at a place is to be read [conv.lval].
pub fn load<'u>(
    here: &Here<'_, 'u>,
    place: &Place,
    at: Span,
) -> Result<Option<Change<'u>>, NoMemory>
    requires { IsTabled here.now.program.now }
    ensures { IfOk result (λ c. after c (local_of here.now) ≡ access.load (place_of place.now) at (local_of here.now)) }
{
    let task = read_of(here, place, at)?;
    Ok(Some(here.goes(task)))
}

/// The values with the value of a cell, if it has one, after them.
fn with_held(alloc: Global, done: &[Value], cell: &Cell) -> Result<Items<Value>, NoMemory>
    ensures { IfOk result (λ values. values ≡ done.now ++ access.held_in cell.now) }
{
    let mut values = copy_values(alloc, done)?;
    if let Cell::Holds(value) = cell {
        values.push(copy_value(alloc, value)?)?;
    }
    Ok(values)
}

/// So many words are left to be read after these.
fn read_on<'u>(
    here: &Here<'_, 'u>,
    place: &Place,
    left: u32,
    done: Items<Value>,
    at: Span,
) -> Result<Change<'u>, NoMemory>
    ensures { IfOk result (λ c. after (Some c) (local_of here.now) ≡ access.read_on (place_of place.now) left done at (local_of here.now)) }
{
    if left == 0 {
        return Ok(here.gives(given_by(done)));
    }
    let place = place.copy(here.alloc)?;
    Ok(here.goes(Task::Reads(place, left, done, at)))
}

fn read_cell<'u>(
    here: &Here<'_, 'u>,
    place: &Place,
    left: u32,
    done: &[Value],
    at: Span,
    cell: &Cell,
) -> Result<Change<'u>, NoMemory>
    ensures { IfOk result (λ c. after (Some c) (local_of here.now) ≡ access.read_cell (place_of place.now) left done.now at (local_of here.now) (Some cell.now)) }
{
    let outside = (Undef::U7, is_outside(cell));
    let indeterminate = (Undef::U8, is_indeterminate(cell));
    match counted_of_two(outside, indeterminate) {
        Some(kind) => Ok(here.is_undefined(kind, at)),
        None => {
            let done = with_held(here.alloc, done, cell)?;
            read_on(here, place, left, done, at)
        }
    }
}

/// The next word of a scalar is read, of which so many are left, after these.
pub fn reads<'u>(
    here: &Here<'_, 'u>,
    place: &Place,
    left: u32,
    done: &Items<Value>,
    at: Span,
) -> Result<Option<Change<'u>>, NoMemory>
    requires { IsTabled here.now.program.now }
    ensures { IfOk result (λ c. after c (local_of here.now) ≡ access.reads (place_of place.now) left done.now at (local_of here.now)) }
{
    if left == 0 {
        let done = copy_values(here.alloc, done.as_slice())?;
        return Ok(Some(here.gives(given_by(done))));
    }
    match cell_at(here, place, done.len() as u64) {
        Some(cell) => Ok(Some(read_cell(here, place, left - 1, done.as_slice(), at, cell)?)),
        None => Ok(None),
    }
}

ghost use Rattle.std.specs.Prelude.{◌≡◌, None, Some, IfOk};
ghost use Rattle.co_eval_accesses.specs.Swapped.{swapped_by};
ghost use Rattle.co_eval_data.specs.Agents.{IsTabled, local_of};
ghost use Rattle.co_eval_data.specs.Changed.{after};
ghost use Rattle.co_eval_data.specs.Seen.{place_of};
ghost use Rattle.co_meaning.specs.Library as library;
ghost use Rattle.co_meaning_data.specs.Access as access;
ghost use Rattle.co_meaning_data.specs.Frames as frames;
ghost use Rattle.co_meaning_data.specs.Turn as turn;
ghost use Rattle.co_meaning_data.specs.declared.values.Cell.TheVariants as cell;

use crate::writing::written;
use co_base::{NoMemory, Num, Span, Undef};
use co_eval_data::{Change, Given, Here, Outcome, Place, Task, copy_value};
use co_eval_numbers::{minus, plus};
use co_eval_reads::{
    cell_at, compares_dangling, counted_alone, counted_of_two, is_indeterminate, is_outside,
    is_same,
};
use co_meaning_data::{Cell, Value};
use sqlite_items::Items;

/// What an atomic gets in place of its value: another value, or its sum or difference with a number [atomics.types.operations].
#[derive(Drop)]
pub enum Exchange {
    For(Value),
    Plus(i64),
    Minus(i64),
}

fn added(here: &Here<'_, '_>, more: i64, old: &Value) -> Result<Value, NoMemory>
    ensures { IfOk result (λ v. v ≡ library.plus more old.now) }
{
    match old {
        Value::Number(num, value) => Ok(Value::Number(*num, plus(*num, *value, more))),
        _ => copy_value(here.alloc, old),
    }
}

fn subtracted(here: &Here<'_, '_>, less: i64, old: &Value) -> Result<Value, NoMemory>
    ensures { IfOk result (λ v. v ≡ library.minus less old.now) }
{
    match old {
        Value::Number(num, value) => Ok(Value::Number(*num, minus(*num, *value, less))),
        _ => copy_value(here.alloc, old),
    }
}

fn swapped(here: &Here<'_, '_>, by: Exchange, old: &Value) -> Result<Value, NoMemory>
    ensures { IfOk result (λ v. v ≡ swapped_by by old.now) }
{
    match by {
        Exchange::For(value) => Ok(value),
        Exchange::Plus(more) => added(here, more, old),
        Exchange::Minus(less) => subtracted(here, less, old),
    }
}

/// The value before is given, and the new one is written.
fn swap_value<'u>(
    here: &Here<'_, 'u>,
    by: Exchange,
    place: &Place,
    old: &Value,
) -> Result<Change<'u>, NoMemory>
    requires { IsTabled here.now.program.now }
    ensures { IfOk result (λ c. after (Some c) (local_of here.now) ≡ turn.gives (frames.Scalar old.now) (access.written (place_of place.now) 0 (swapped_by by old.now) (local_of here.now))) }
{
    let value = swapped(here, by, old)?;
    let old = copy_value(here.alloc, old)?;
    let effect = written(here, place, 0, value)?;
    let task = Task::Comes(Outcome::Gives(Given::Scalar(old)));
    Ok(here.makes(effect, Items::new(here.alloc), task))
}

/// An atomic that has no value may not be read.
fn not_read<'u>(here: &Here<'_, 'u>, at: Span, cell: &Cell) -> Option<Change<'u>>
    ensures { after result (local_of here.now) ≡ turn.unless_undefined (access.read_faults cell.now) at (local_of here.now) None }
{
    let outside = (Undef::U7, is_outside(cell));
    let indeterminate = (Undef::U8, is_indeterminate(cell));
    match counted_of_two(outside, indeterminate) {
        Some(kind) => Some(here.is_undefined(kind, at)),
        None => None,
    }
}

/// An atomic gives its value and gets another in one step [atomics.types.operations].
pub fn swap<'u>(
    here: &Here<'_, 'u>,
    by: Exchange,
    place: &Place,
    at: Span,
) -> Result<Option<Change<'u>>, NoMemory>
    requires { IsTabled here.now.program.now }
    ensures { IfOk result (λ c. after c (local_of here.now) ≡ access.swap (swapped_by by) (place_of place.now) at (local_of here.now)) }
{
    match cell_at(here, place, 0) {
        Some(Cell::Holds(old)) => Ok(Some(swap_value(here, by, place, old)?)),
        Some(cell) => Ok(not_read(here, at, cell)),
        None => Ok(None),
    }
}

/// Where the values are the same the atomic gets the desired one; else its value is to be written to the expected one's place.
fn compared<'u>(
    here: &Here<'_, 'u>,
    is_same: bool,
    place: &Place,
    expected: &Place,
    found: &Value,
    desired: &Value,
    at: Span,
) -> Result<Change<'u>, NoMemory>
    requires { IsTabled here.now.program.now }
    ensures { IfOk result (λ c. after (Some c) (local_of here.now) ≡ access.compared is_same (place_of place.now) (place_of expected.now) found.now desired.now at (local_of here.now)) }
{
    let truth = Outcome::Gives(Given::Scalar(Value::Number(Num::Bool, i64::from(is_same))));
    if is_same {
        let desired = copy_value(here.alloc, desired)?;
        let effect = written(here, place, 0, desired)?;
        return Ok(here.makes(effect, Items::new(here.alloc), Task::Comes(truth)));
    }
    let mut values = Items::new(here.alloc);
    values.push(copy_value(here.alloc, found)?)?;
    let expected = expected.copy(here.alloc)?;
    Ok(here.goes(Task::Writes(false, expected, 0, values, truth, at)))
}

fn compare_value<'u>(
    here: &Here<'_, 'u>,
    place: &Place,
    expected: &Place,
    wanted: &Value,
    desired: &Value,
    at: Span,
    found: &Value,
) -> Result<Change<'u>, NoMemory>
    requires { IsTabled here.now.program.now }
    ensures { IfOk result (λ c. after (Some c) (local_of here.now) ≡ access.compare_cell (place_of place.now) (place_of expected.now) wanted.now desired.now at (local_of here.now) (Some (cell.Holds found.now))) }
{
    match counted_alone(Undef::U9, compares_dangling(here, found, wanted)) {
        Some(kind) => Ok(here.is_undefined(kind, at)),
        None => compared(
            here,
            is_same(here, found, wanted),
            place,
            expected,
            found,
            desired,
            at,
        ),
    }
}

/// A compare-and-exchange of the atomic at a place, whose expected value is there [atomics.types.operations].
pub fn compare<'u>(
    here: &Here<'_, 'u>,
    place: &Place,
    expected: &Place,
    wanted: &Value,
    desired: &Value,
    at: Span,
) -> Result<Option<Change<'u>>, NoMemory>
    requires { IsTabled here.now.program.now }
    ensures { IfOk result (λ c. after c (local_of here.now) ≡ access.compare (place_of place.now) (place_of expected.now) wanted.now desired.now at (local_of here.now)) }
{
    match cell_at(here, place, 0) {
        Some(Cell::Holds(found)) => Ok(Some(compare_value(
            here, place, expected, wanted, desired, at, found,
        )?)),
        Some(cell) => Ok(not_read(here, at, cell)),
        None => Ok(None),
    }
}

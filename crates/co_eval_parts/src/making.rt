ghost use Rattle.std.specs.Prelude.{◌≡◌, None, Bool, if◌then◌else◌, replicate, IfOk};
ghost use Rattle.co_core_tree.specs.Sizes as sizes;
ghost use Rattle.co_eval_data.specs.Agents.{IsTabled, local_of, object_of};
ghost use Rattle.co_eval_data.specs.Seen.{place_of};
ghost use Rattle.co_eval_data.specs.declared.changes.Effect.TheVariants as effect;
ghost use Rattle.co_meaning_data.specs.Store as store;
ghost use Rattle.co_meaning_data.specs.Turn as turn;
ghost use Rattle.co_meaning_data.specs.declared.values.Cell.TheVariants as cell;

use co_base::NoMemory;
use co_eval_data::{Effect, Here, Place, StoredObject};
use co_eval_reads::{offset_at, type_at, words, words_of};
use co_meaning_data::{Cell, Lifetime};
use co_types::CoType;
use sqlite_items::Items;
use std::alloc::Global;

/// A cell that has no value: an indeterminate one, or one outside its lifetime.
fn valueless(indeterminate: bool) -> Cell
    ensures { result ≡ (if indeterminate then cell.Indeterminate else cell.Outside) }
{
    if indeterminate {
        Cell::Indeterminate
    } else {
        Cell::Outside
    }
}

fn valueless_cells(alloc: Global, count: u64, indeterminate: bool) -> Result<Items<Cell>, NoMemory>
    ensures { IfOk result (λ cells. cells ≡ replicate count (if indeterminate then cell.Indeterminate else cell.Outside)) }
{
    let mut cells = Items::new(alloc);
    for _i in 0..count {
        cells.push(valueless(indeterminate))?;
    }
    Ok(cells)
}

/// Storage for an object whose lifetime has not begun.
pub fn raw_object<'u>(
    here: &Here<'_, 'u>,
    of: &'u CoType,
    block: Option<u64>,
    coroutine: Option<u64>,
) -> Result<StoredObject<'u>, NoMemory>
    requires { IsTabled here.now.program.now }
    ensures { IfOk result (λ o. object_of o ≡ store.raw_object (turn.classes (local_of here.now)) of.now block coroutine) }
{
    let cells = valueless_cells(here.alloc, words(here, of), false)?;
    Ok(StoredObject {
        of,
        cells,
        lifetime: Lifetime::Raw,
        block,
        coroutine,
    })
}

/// Such an object all of whose scalars are indeterminate.
pub fn indeterminate_object<'u>(
    here: &Here<'_, 'u>,
    of: &'u CoType,
    coroutine: Option<u64>,
) -> Result<StoredObject<'u>, NoMemory>
    requires { IsTabled here.now.program.now }
    ensures { IfOk result (λ o. object_of o ≡ record (store.raw_object (turn.classes (local_of here.now)) of.now None coroutine) { cells = replicate (sizes.words (turn.classes (local_of here.now)) of.now) cell.Indeterminate }) }
{
    let cells = valueless_cells(here.alloc, words(here, of), true)?;
    Ok(StoredObject {
        of,
        cells,
        lifetime: Lifetime::Raw,
        block: None,
        coroutine,
    })
}

/// All scalars of the part at a place become so.
pub fn fills_part<'u>(
    here: &Here<'_, 'u>,
    place: &Place,
    cell: Cell,
) -> Result<Effect<'u>, NoMemory>
    requires { IsTabled here.now.program.now }
    ensures { IfOk result (λ e. e ≡ effect.Fills place.now.object (store.offset_at (turn.classes (local_of here.now)) (turn.store (local_of here.now)) (place_of place.now)) (store.words_of (turn.classes (local_of here.now)) (store.type_at (turn.classes (local_of here.now)) (turn.store (local_of here.now)) (place_of place.now))) cell) }
{
    let offset = offset_at(here, place)?;
    let count = words_of(here, type_at(here, place));
    Ok(Effect::Fills(place.object, offset as usize, count as usize, cell))
}

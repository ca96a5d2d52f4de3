ghost use Rattle.std.specs.Prelude.{◌≡◌, ◌+◌, ◌<◌, ◌≤◌, ◌∷◌, [], length, map, replicate, slice_set, IfOk, Some};
ghost use Rattle.std.specs.Vec.{vec_len, vec_capacity};
ghost use Rattle.co_eval_data.specs.Agents.{object_of, store_of};
ghost use Rattle.co_eval_data.specs.Changed.{all_added};
ghost use Rattle.co_meaning_data.specs.Store as stored;
ghost use Rattle.co_meaning_data.specs.declared.values.Cell.TheVariants as cell;

use crate::blocks::leave_block;
use co_base::NoMemory;
use co_eval_data::{Store, StoredObject, copy_value};
use co_meaning_data::{Cell, Lifetime, Value};
use sqlite_items::Items;
use std::alloc::Global;

/// A new object, which gets the next number. There is room for it.
pub fn add_object<'u>(store: &mut Store<'u>, object: StoredObject<'u>)
    requires { vec_len store.old.objects < vec_capacity store.old.objects }
    ensures { store_of store.new ≡ stored.add_object (object_of object.entry) (store_of store.old) }
{
    store.objects.push_reserved(object);
}

/// New objects, which get the next numbers, in their order. There is room for them.
pub fn add_objects<'u>(store: &mut Store<'u>, mut objects: Items<StoredObject<'u>>)
    requires { vec_len store.old.objects + length objects ≤ vec_capacity store.old.objects }
    ensures { store_of store.new ≡ all_added (map object_of objects.entry) (store_of store.old) }
{
    while !objects.is_empty() {
        store.objects.push_reserved(objects.remove(0));
    }
}

/// The lifetime of an object begins, where it is there [basic.life].
pub fn make_live(store: &mut Store<'_>, object: u64)
    ensures { store_of store.new ≡ stored.make_live object (store_of store.old) }
{
    if let Some(object) = store.objects.get_mut(object as usize) {
        object.lifetime = Lifetime::Live;
    }
}

/// The cell of an object gets a value, where the object and the cell are there.
pub fn write_cell(store: &mut Store<'_>, object: u64, at: usize, value: Value)
    ensures { store_of store.new ≡ stored.with_cell (store_of store.old) object at (cell.Holds value) (stored.object_at (store_of store.old) object) }
{
    if let Some(object) = store.objects.get_mut(object as usize) {
        set_cell(&mut object.cells, at, Cell::Holds(value));
    }
}

/// A cell is set, where it is there.
fn set_cell(cells: &mut Items<Cell>, at: usize, cell: Cell)
    ensures { cells.new ≡ slice_set cells.old at cell }
{
    if at < cells.len() {
        cells.set(at, cell);
    }
}

/// So many cells that are as this one.
pub fn copies_of(alloc: Global, cell: &Cell, count: usize) -> Result<Items<Cell>, NoMemory>
    ensures { IfOk result (λ copies. copies ≡ replicate count cell.now) }
{
    let mut copies = Items::new(alloc);
    for _ in 0..count {
        copies.push(copy_cell(alloc, cell)?)?;
    }
    Ok(copies)
}

/// The same cell.
fn copy_cell(alloc: Global, cell: &Cell) -> Result<Cell, NoMemory>
    ensures { IfOk result (λ copied. copied ≡ cell.now) }
{
    match cell {
        Cell::Outside => Ok(Cell::Outside),
        Cell::Indeterminate => Ok(Cell::Indeterminate),
        Cell::Holds(value) => Ok(Cell::Holds(copy_value(alloc, value)?)),
    }
}

/// The lifetime of an object is over, where it is there: all its scalars are outside theirs, and it stands in no block
/// [basic.life].
pub fn end_object(store: &mut Store<'_>, object: u64)
    ensures { store_of store.new ≡ stored.end_object object (store_of store.old) }
{
    let Some(ended) = store.objects.get_mut(object as usize) else {
        return;
    };
    ended.lifetime = Lifetime::Ended;
    all_outside(&mut ended.cells);
    if let Some(block) = ended.block {
        leave_block(store, object, block);
    }
}

/// All cells are outside their lifetimes.
pub fn all_outside(cells: &mut Items<Cell>)
    ensures { cells.new ≡ stored.all_outside cells.old }
{
    for at in 0..cells.len() {
        set_cell(cells, at, Cell::Outside);
    }
}

/// The cells from one on become as this cell is, of which these are copies, as far as there are cells.
fn fill_cells(cells: &mut Items<Cell>, from: usize, cell: &Cell, mut copies: Items<Cell>)
    requires { copies ≡ replicate (length copies) cell.now }
    ensures { cells.new ≡ stored.set_cells from (length copies) cell.now cells.old }
{
    let mut at = from;
    while at < cells.len() {
        let Some(copy) = copies.pop() else {
            break;
        };
        cells.set(at, copy);
        at += 1;
    }
}

/// So many cells of an object from one on become as this cell is, of which these are copies, where the object is there.
pub fn fill_object(
    store: &mut Store<'_>,
    object: u64,
    from: usize,
    cell: &Cell,
    copies: Items<Cell>,
)
    requires { copies ≡ replicate (length copies) cell.now }
    ensures { store_of store.new ≡ stored.with_cells (store_of store.old) object from (length copies) cell.now (stored.object_at (store_of store.old) object) }
{
    if let Some(object) = store.objects.get_mut(object as usize) {
        fill_cells(&mut object.cells, from, cell, copies);
    }
}

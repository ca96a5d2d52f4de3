ghost use Rattle.std.specs.Prelude.{◌≡◌, [], ◌∷◌, map, reverse, Some, IfOk, MatchOption};
ghost use Rattle.std.specs.Option.{option_copied, option_map};
ghost use Rattle.co_eval_calls.specs.Bound.{bound_of, bound_with};
ghost use Rattle.co_eval_data.specs.Agents.{local_of};
ghost use Rattle.co_eval_data.specs.Seen.{given_of};
ghost use Rattle.co_meaning_calls.specs.Calls as calls;
ghost use Rattle.co_meaning_data.specs.Store as store;
ghost use Rattle.co_meaning_data.specs.Turn as turn;

use crate::lists::{in_front, no_objects, set_slot};
use co_base::{NoMemory, Num, SlotId};
use co_core_tree::CoreFunc;
use co_eval_data::{Given, Here, StoredObject, copy_value};
use co_eval_reads::{is_class, next_object};
use co_meaning_data::{Cell, Lifetime, Value};
use co_types::{CoType, Head};
use sqlite_items::Items;
use std::alloc::Global;

/// The slots of an activation, the new objects of the parameters that are its own, and their numbers, the last first.
#[derive(Drop)]
pub(crate) struct Binding<'u> {
    pub(crate) slots: Items<Option<u64>>,
    pub(crate) objects: Items<StoredObject<'u>>,
    pub(crate) own: Items<u64>,
}

/// Cells with these values.
#[tactic(auto, using(crate::proofs::Parameters::next_cell))]
fn cells_of(alloc: Global, values: &[Value]) -> Result<Items<Cell>, NoMemory>
    ensures { IfOk result (λ cells. cells ≡ calls.cells_of values.now) }
{
    let mut cells = Items::new(alloc);
    for value in values {
        cells.push(Cell::Holds(copy_value(alloc, value)?))?;
    }
    Ok(cells)
}

fn one_cell(alloc: Global, value: Value) -> Result<Items<Cell>, NoMemory>
    ensures { IfOk result (λ cells. cells ≡ calls.cells_of (value ∷ [])) }
{
    let mut cells = Items::new(alloc);
    cells.push(Cell::Holds(value))?;
    Ok(cells)
}

fn null_cells(alloc: Global) -> Result<Items<Cell>, NoMemory>
    ensures { IfOk result (λ cells. cells ≡ calls.cells_of turn.null_parts) }
{
    let mut cells = Items::new(alloc);
    cells.push(Cell::Holds(Value::Null))?;
    cells.push(Cell::Holds(Value::Number(Num::Long, 0)))?;
    cells.push(Cell::Holds(Value::Number(Num::Long, 0)))?;
    cells.push(Cell::Holds(Value::Number(Num::Long, 0)))?;
    Ok(cells)
}

/// The cells of a `std::exception_ptr` that is given this.
fn exception_cells(alloc: Global, given: &Given) -> Result<Option<Items<Cell>>, NoMemory>
    ensures { IfOk result (λ cells. cells ≡ option_map (λ vs. calls.cells_of vs) (turn.exception_parts (given_of given.now))) }
{
    match given {
        Given::Parts(values) => Ok(Some(cells_of(alloc, values.as_slice())?)),
        Given::Scalar(Value::Null) => Ok(Some(null_cells(alloc)?)),
        _ => Ok(None),
    }
}

/// The cell of another scalar, or of a reference, that is given this.
fn scalar_cells(alloc: Global, given: &Given) -> Result<Option<Items<Cell>>, NoMemory>
    ensures { IfOk result (λ cells. cells ≡ option_map (λ vs. calls.cells_of vs) (turn.scalar_parts (given_of given.now))) }
{
    match given {
        Given::Scalar(value) => {
            let value = copy_value(alloc, value)?;
            Ok(Some(one_cell(alloc, value)?))
        }
        Given::At(place) => {
            let place = place.copy(alloc)?;
            Ok(Some(one_cell(alloc, place.into_pointer())?))
        }
        _ => Ok(None),
    }
}

/// The cells of an object of the type that is given this [dcl.init] [dcl.init.ref].
fn cells_for(alloc: Global, of: &CoType, given: &Given) -> Result<Option<Items<Cell>>, NoMemory>
    ensures { IfOk result (λ cells. cells ≡ option_map (λ vs. calls.cells_of vs) (turn.parts_for (Some of.now) (given_of given.now))) }
{
    match of.head() {
        Head::ExceptionPtr => exception_cells(alloc, given),
        _ => scalar_cells(alloc, given),
    }
}

/// A parameter of a class is the object in the caller's slot.
fn bind_object<'u>(slot: u32, given: &Given, binding: Binding<'u>) -> Option<Binding<'u>>
    ensures { (s : store.Store) → option_map (bound_of s) result ≡ calls.bind_object slot (given_of given.now) (bound_of s binding.entry) }
{
    match given {
        Given::At(place) => {
            let Binding {
                slots,
                objects,
                own,
            } = binding;
            Some(Binding {
                slots: set_slot(slots, slot, place.object),
                objects,
                own,
            })
        }
        _ => None,
    }
}

/// The number of the next new object.
#[tactic(auto, using(crate::proofs::Parameters::next_counted))]
fn next_own(here: &Here<'_, '_>, binding: &Binding<'_>) -> Result<u64, NoMemory>
    ensures { IfOk result (λ x. x ≡ store.next_object (bound_of (turn.store (local_of here.now)) binding.now).store) }
{
    let before = next_object(here);
    match before.checked_add(binding.objects.len() as u64) {
        Some(object) => Ok(object),
        None => Err(NoMemory),
    }
}

/// Another is a new object with these cells.
#[tactic(auto, using(crate::proofs::Parameters::added_last))]
fn bind_cells<'u>(
    here: &Here<'_, 'u>,
    slot: u32,
    of: &'u CoType,
    cells: Items<Cell>,
    binding: Binding<'u>,
) -> Result<Binding<'u>, NoMemory>
    ensures { IfOk result (λ b. bound_of (turn.store (local_of here.now)) b ≡ bound_with slot of.now cells (bound_of (turn.store (local_of here.now)) binding.entry)) }
{
    let object = next_own(here, &binding)?;
    let Binding {
        slots,
        mut objects,
        own,
    } = binding;
    objects.push(StoredObject {
        of,
        cells,
        lifetime: Lifetime::Live,
        block: None,
        coroutine: None,
    })?;
    let own = in_front(here.alloc, object, own)?;
    Ok(Binding {
        slots: set_slot(slots, slot, object),
        objects,
        own,
    })
}

#[tactic(auto, using(crate::proofs::Parameters::some_parts, crate::proofs::Parameters::no_parts))]
fn bind_value<'u>(
    here: &Here<'_, 'u>,
    slot: u32,
    of: &'u CoType,
    given: &Given,
    binding: Binding<'u>,
) -> Result<Option<Binding<'u>>, NoMemory>
    ensures { IfOk result (λ b. option_map (bound_of (turn.store (local_of here.now))) b ≡ calls.bind_parts slot of.now (bound_of (turn.store (local_of here.now)) binding.entry) (turn.parts_for (Some of.now) (given_of given.now))) }
{
    match cells_for(here.alloc, of, given)? {
        Some(cells) => {
            let binding = bind_cells(here, slot, of, cells, binding)?;
            Ok(Some(binding))
        }
        None => Ok(None),
    }
}

fn bind_type<'u>(
    here: &Here<'_, 'u>,
    slot: u32,
    of: &'u CoType,
    given: &Given,
    binding: Binding<'u>,
) -> Result<Option<Binding<'u>>, NoMemory>
    ensures { IfOk result (λ b. option_map (bound_of (turn.store (local_of here.now))) b ≡ calls.bind_type slot of.now (given_of given.now) (bound_of (turn.store (local_of here.now)) binding.entry)) }
{
    if is_class(of) {
        Ok(bind_object(slot, given, binding))
    } else {
        bind_value(here, slot, of, given, binding)
    }
}

fn slot_type(func: &CoreFunc, slot: u32) -> Option<&CoType>
    ensures { option_copied result ≡ calls.slot_type func.now slot }
{
    match func.slots.get(slot as usize) {
        Some(info) => Some(&info.of),
        None => None,
    }
}

/// The parameter in a slot of the function gets its argument.
fn bind_slot<'u>(
    here: &Here<'_, 'u>,
    func: &'u CoreFunc,
    slot: u32,
    given: &Given,
    binding: Binding<'u>,
) -> Result<Option<Binding<'u>>, NoMemory>
    ensures { IfOk result (λ b. option_map (bound_of (turn.store (local_of here.now))) b ≡ calls.bind_slot slot (calls.slot_type func.now slot) (given_of given.now) (bound_of (turn.store (local_of here.now)) binding.entry)) }
{
    match slot_type(func, slot) {
        Some(of) => bind_type(here, slot, of, given, binding),
        None => Ok(None),
    }
}

/// The first parameter, and those after it.
#[tactic(auto, using(crate::proofs::Parameters::first_apart))]
fn first_slot(slots: &[SlotId]) -> Option<(SlotId, &[SlotId])>
    ensures { MatchOption result (slots.now ≡ []) (λ t. slots.now ≡ t.0 ∷ t.1.now) }
{
    match slots {
        [slot, rest @ ..] => Some((*slot, rest)),
        [] => None,
    }
}

/// The first argument, which is the last of a list that has the newest first, and those after it.
#[tactic(auto, using(crate::proofs::Parameters::first_is_last))]
pub(crate) fn first_given(given: &[Given]) -> Option<(&Given, &[Given])>
    ensures { MatchOption result (reverse (map given_of given.now) ≡ []) (λ t. reverse (map given_of given.now) ≡ given_of t.0.now ∷ reverse (map given_of t.1.now)) }
{
    match given {
        [rest @ .., first] => Some((first, rest)),
        [] => None,
    }
}

/// These parameters get these arguments, of which the newest stands first.
#[tactic(auto, using(crate::proofs::Parameters::none_bound, crate::proofs::Parameters::next_bound, crate::proofs::Parameters::past_bound))]
fn bind_rest<'u>(
    here: &Here<'_, 'u>,
    func: &'u CoreFunc,
    slots: &[SlotId],
    given: &[Given],
    binding: Binding<'u>,
) -> Result<Option<Binding<'u>>, NoMemory>
    ensures { IfOk result (λ b. option_map (bound_of (turn.store (local_of here.now))) b ≡ calls.bind_rest func.now slots.now (reverse (map given_of given.now)) (Some (bound_of (turn.store (local_of here.now)) binding.entry))) }
{
    match first_slot(slots) {
        Some((slot, slots)) => match first_given(given) {
            Some((first, given)) => match bind_slot(here, func, slot.0, first, binding)? {
                Some(binding) => bind_rest(here, func, slots, given, binding),
                None => Ok(None),
            },
            None => Ok(None),
        },
        None => match first_given(given) {
            Some(_) => Ok(None),
            None => Ok(Some(binding)),
        },
    }
}

/// Each parameter is initialized by its argument. One of a class is the object in the caller's slot, and another is an object of
/// the function's own [expr.call].
#[tactic(auto, using(crate::proofs::Parameters::nothing_added))]
pub(crate) fn bind<'u>(
    here: &Here<'_, 'u>,
    func: &'u CoreFunc,
    given: &[Given],
) -> Result<Option<Binding<'u>>, NoMemory>
    ensures { IfOk result (λ b. option_map (bound_of (turn.store (local_of here.now))) b ≡ calls.bind func.now (reverse (map given_of given.now)) (turn.store (local_of here.now))) }
{
    let slots = no_objects(here.alloc, func.slots.len())?;
    let binding = Binding {
        slots,
        objects: Items::new(here.alloc),
        own: Items::new(here.alloc),
    };
    bind_rest(here, func, func.params.as_slice(), given, binding)
}

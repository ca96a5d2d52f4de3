ghost use Rattle.std.specs.Prelude.{◌≡◌, ◌+◌, ◌∷◌, None, Some, replicate, slice_set, IfOk};

use co_base::NoMemory;
use co_eval_data::Call;
use co_eval_parts::{copy_given_list, copy_place_if};
use sqlite_items::Items;
use std::alloc::Global;

/// The list with one more number, before the others.
pub(crate) fn in_front(alloc: Global, number: u64, list: Items<u64>) -> Result<Items<u64>, NoMemory>
    ensures { IfOk result (λ more. more ≡ number ∷ list) }
{
    let mut more = Items::new(alloc);
    more.push(number)?;
    more.append(list)?;
    Ok(more)
}

/// The same call.
pub(crate) fn copy_call(alloc: Global, call: &Call) -> Result<Call, NoMemory>
    ensures { IfOk result (λ copied. copied ≡ call.now) }
{
    let given = copy_given_list(alloc, call.given.as_slice())?;
    let objects = Items::from_slice(alloc, call.objects.as_slice())?;
    let into = copy_place_if(alloc, &call.into)?;
    Ok(Call {
        func: call.func,
        given,
        objects,
        into,
        at: call.at,
    })
}

/// So many slots in which no object stands.
pub fn no_objects(alloc: Global, count: usize) -> Result<Items<Option<u64>>, NoMemory>
    ensures { IfOk result (λ slots. slots ≡ replicate count None) }
{
    let mut slots = Items::new(alloc);
    let mut made = 0;
    while made < count {
        slots.push(None)?;
        made += 1;
    }
    Ok(slots)
}

/// The slots, where the object stands in the one of this number.
#[tactic(auto, using(crate::proofs::Unset::unset_past))]
pub(crate) fn set_slot(mut slots: Items<Option<u64>>, slot: u32, object: u64) -> Items<Option<u64>>
    ensures { result ≡ slice_set slots slot (Some object) }
{
    if (slot as usize) < slots.len() {
        slots.set(slot as usize, Some(object));
        slots
    } else {
        slots
    }
}

/// The number of the next item.
pub(crate) fn number_after(number: usize) -> Result<usize, NoMemory>
    ensures { IfOk result (λ next. next ≡ number + 1) }
{
    match number.checked_add(1) {
        Some(next) => Ok(next),
        None => Err(NoMemory),
    }
}

ghost use Rattle.std.specs.Prelude.{◌≡◌, ◌<◌, ◌∷◌, length, map, slice_set, Some, IfOk, IfSome};
ghost use Rattle.co_eval_data.specs.Seen.{alive_of, temporal_of};
ghost use Rattle.co_meaning_calls.specs.Objects as objects;
ghost use Rattle.std.specs.Option.{option_map};
ghost use Rattle.co_eval_commit.specs.Temporaries.{IsFirst, made_once};

use co_base::NoMemory;
use co_eval_data::{Alive, Temporal};
use sqlite_items::Items;
use std::alloc::Global;

/// The number of the first temporary of a slot.
pub fn slot_at(temporaries: &[Temporal], slot: u32) -> Option<usize>
    ensures found { IsFirst slot temporaries.now result }
    ensures within { IfSome result (λ at. at < length temporaries.now) }
{
    for at in 0..temporaries.len() {
        if temporaries[at].slot == slot {
            return Some(at);
        }
    }
    None
}

/// The temporary of the slot is live.
pub fn mark_live(temporaries: &mut Items<Temporal>, slot: u32)
    ensures { map temporal_of temporaries.new ≡ objects.live_temporaries slot (map temporal_of temporaries.old) }
{
    if let Some(at) = slot_at(temporaries.as_slice(), slot) {
        if let Some(temporal) = temporaries.get(at) {
            let marked = Temporal {
                live: true,
                ..*temporal
            };
            temporaries.set(at, marked);
        }
    }
}

/// The temporaries where that of the slot gets its object, which is made once: none where there is no such temporary, or where
/// it has an object.
pub fn made_with(
    alloc: Global,
    temporaries: &Items<Temporal>,
    slot: u32,
    x: Alive,
) -> Result<Option<Items<Temporal>>, NoMemory>
    ensures { IfOk result (λ made. objects.made_temporaries slot (alive_of x) (map temporal_of temporaries.now) ≡ option_map (map temporal_of) made) }
{
    let Some(at) = slot_at(temporaries.as_slice(), slot) else {
        return Ok(None);
    };
    let Some(temporal) = temporaries.get(at) else {
        return Ok(None);
    };
    let made = with_object(alloc, temporaries, at, temporal, x)?;
    Ok(made)
}

/// The temporaries where this one of a number gets its object, if it has none.
fn with_object(
    alloc: Global,
    temporaries: &Items<Temporal>,
    at: usize,
    temporal: &Temporal,
    x: Alive,
) -> Result<Option<Items<Temporal>>, NoMemory>
    ensures { IfOk result (λ made. made ≡ made_once x temporaries.now at temporal.now temporal.now.object) }
{
    match temporal.object {
        Some(_) => Ok(None),
        None => {
            let with_object = Temporal {
                object: Some(x),
                ..*temporal
            };
            copy_with(alloc, temporaries, at, with_object)
        }
    }
}

/// The temporaries where that of a number is this one.
fn copy_with(
    alloc: Global,
    temporaries: &Items<Temporal>,
    at: usize,
    temporal: Temporal,
) -> Result<Option<Items<Temporal>>, NoMemory>
    ensures { IfOk result (λ made. made ≡ Some (slice_set temporaries.now at temporal)) }
{
    let mut made = Items::from_slice(alloc, temporaries.as_slice())?;
    set_temporal(&mut made, at, temporal);
    Ok(Some(made))
}

/// The temporary of a number is this one, where it is there.
fn set_temporal(temporaries: &mut Items<Temporal>, at: usize, temporal: Temporal)
    ensures { temporaries.new ≡ slice_set temporaries.old at temporal }
{
    if at < temporaries.len() {
        temporaries.set(at, temporal);
    }
}

/// A list with one more item, at its beginning.
pub fn with_first<T: Copy + Drop>(alloc: Global, item: T, items: &[T]) -> Result<Items<T>, NoMemory>
    ensures { IfOk result (λ list. list ≡ item ∷ items.now) }
{
    let mut list = Items::new(alloc);
    list.push(item)?;
    list.append(Items::from_slice(alloc, items)?)?;
    Ok(list)
}

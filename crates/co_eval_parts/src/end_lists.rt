ghost use Rattle.std.specs.Prelude.{◌≡◌, ◌++◌, map, IfOk, OnOk};
ghost use Rattle.co_eval_data.specs.Seen.{alive_of, ending_of, option_of, place_of, temporal_of};
ghost use Rattle.co_meaning_calls.specs.Objects as objects;

use co_base::NoMemory;
use co_eval_data::{Alive, Ending, Place, Temporal};
use sqlite_items::Items;
use std::alloc::Global;

/// The ends of these objects, in this order.
#[tactic(auto, using(crate::proofs::Listed::endings_on, crate::proofs::Listed::endings_all))]
pub fn endings(alloc: Global, alive: &[Alive]) -> Result<Items<Ending>, NoMemory>
    ensures { IfOk result (λ list. map ending_of list ≡ objects.endings (map alive_of alive.now)) }
{
    let mut list = Items::new(alloc);
    let mut rest = alive;
    while let [x, next @ ..] = rest {
        list.push(Ending::EndsObject(*x))?;
        rest = next;
    }
    Ok(list)
}

/// The ends of these objects, whose deaths are not seen, in this order.
#[tactic(auto, using(crate::proofs::Listed::unseen_on, crate::proofs::Listed::unseen_all))]
pub fn unseen_endings(alloc: Global, list: &[u64]) -> Result<Items<Ending>, NoMemory>
    ensures { IfOk result (λ endings. map ending_of endings ≡ objects.unseen_endings list.now) }
{
    let mut endings = Items::new(alloc);
    let mut rest = list;
    while let [object, next @ ..] = rest {
        endings.push(Ending::EndsObject(Alive {
            object: *object,
            coroutine: None,
        }))?;
        rest = next;
    }
    Ok(endings)
}

/// Adds the end of a temporary, where it has a mark or was made.
fn push_end(list: &mut Items<Ending>, temporary: &Temporal) -> Result<(), NoMemory>
    ensures { OnOk result (map ending_of list.new ≡ map ending_of list.old ++ objects.temporary_ends temporary.now.marked (option_of alive_of temporary.now.object)) }
{
    if temporary.marked {
        list.push(Ending::PassesMark(temporary.object))?;
        return Ok(());
    }
    match temporary.object {
        Some(x) => {
            list.push(Ending::EndsObject(x))?;
            Ok(())
        }
        None => Ok(()),
    }
}

/// The ends of the temporaries of a full-expression, of which the last stands first [class.temporary].
#[tactic(auto, using(crate::proofs::Listed::temporaries_on, crate::proofs::Listed::temporaries_all))]
pub fn temporaries_end(alloc: Global, temporaries: &[Temporal]) -> Result<Items<Ending>, NoMemory>
    ensures { IfOk result (λ list. map ending_of list ≡ objects.temporaries_end (map temporal_of temporaries.now)) }
{
    let mut list = Items::new(alloc);
    let mut rest = temporaries;
    while let [temporary, next @ ..] = rest {
        push_end(&mut list, temporary)?;
        rest = next;
    }
    Ok(list)
}

/// The ends of the fields below a number of the object at a place, the last first [class.base.init] [class.dtor].
#[tactic(auto, using(crate::proofs::Listed::fields_on, crate::proofs::Listed::fields_all))]
pub fn fields_end(alloc: Global, place: &Place, below: u32) -> Result<Items<Ending>, NoMemory>
    ensures { IfOk result (λ list. map ending_of list ≡ objects.fields_end (place_of place.now) below) }
{
    let mut list = Items::new(alloc);
    let mut field = below;
    while field > 0 {
        field -= 1;
        let part = place.copy(alloc)?.field(field)?;
        list.push(Ending::EndsPart(part))?;
    }
    Ok(list)
}

ghost use Rattle.std.specs.Prelude.{◌≡◌, Some, IfOk};
ghost use Rattle.co_eval_data.specs.Agents.{IsTabled, local_of};
ghost use Rattle.co_eval_data.specs.Changed.{after, turned_by};
ghost use Rattle.co_meaning.specs.Expressions as spec;
ghost use Rattle.co_meaning_calls.specs.Objects as objects;

use co_base::NoMemory;
use co_core_tree::Init;
use co_eval_data::{Alive, Change, Effect, Here, Node, Place, Step, Task};
use co_eval_parts::raw_object;
use co_eval_reads::{counted_in, next_object, type_of_slot};
use co_types::CoType;

fn temporary<'u>(
    here: &Here<'_, 'u>,
    slot: u32,
    init: &'u Init,
    of: &'u CoType,
) -> Result<Change<'u>, NoMemory>
    requires { IsTabled here.now.program.now }
    ensures { IfOk result (λ c. Some (turned_by c (local_of here.now)) ≡ spec.make_temporary slot init.now (local_of here.now) (Some of.now)) }
{
    let object = next_object(here);
    let coroutine = counted_in(here, of);
    let stored = raw_object(here, of, None, coroutine)?;
    let made = Step::TempMade(slot, Alive { object, coroutine });
    let frames = here.one(made, Node::Nothing)?;
    let task = Task::Initialize(init, Some(Place::whole(here.alloc, object)));
    Ok(here.makes(Effect::Adds(slot, stored), frames, task))
}

/// The object of a temporary's slot is added, and it is initialized first [class.temporary].
pub(crate) fn make_temporary<'u>(
    here: &Here<'_, 'u>,
    slot: u32,
    init: &'u Init,
) -> Result<Option<Change<'u>>, NoMemory>
    requires { IsTabled here.now.program.now }
    ensures { IfOk result (λ c. after c (local_of here.now) ≡ spec.make_temporary slot init.now (local_of here.now) (objects.type_of_slot (local_of here.now) slot)) }
{
    match type_of_slot(here, slot) {
        Some(of) => Ok(Some(temporary(here, slot, init, of)?)),
        None => Ok(None),
    }
}

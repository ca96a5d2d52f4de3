ghost use Rattle.std.specs.Prelude.{◌≡◌, Some, IfOk};
ghost use Rattle.std.specs.Option.{option_copied};
ghost use Rattle.co_eval_data.specs.Agents.{IsTabled, local_of};
ghost use Rattle.co_eval_data.specs.Changed.{after, turned_by};
ghost use Rattle.co_eval_data.specs.Seen.{alive_of};
ghost use Rattle.co_meaning.specs.Statements as statements;
ghost use Rattle.co_meaning_calls.specs.Objects as objects;

use co_base::NoMemory;
use co_core_tree::Init;
use co_eval_data::{Alive, Change, Effect, Here, Node, Outcome, Place, Spot, Step, Task};
use co_eval_fulls::{Opening, open_init};
use co_eval_parts::{lives, raw_object};
use co_eval_reads::{counted_in, next_object, type_of_slot};
use co_types::CoType;
use sqlite_items::Items;

/// A local of a type is made in its slot [stmt.dcl].
fn declare_of<'u>(
    here: &Here<'_, 'u>,
    slot: u32,
    init: &'u Init,
    of: &'u CoType,
) -> Result<Change<'u>, NoMemory>
    requires { IsTabled here.now.program.now }
    ensures { IfOk result (λ c. after (Some c) (local_of here.now) ≡ statements.declare_in slot init.now (local_of here.now) (Some of.now)) }
{
    let coroutine = counted_in(here, of);
    let object = next_object(here);
    let raw = raw_object(here, of, None, coroutine)?;
    let local = Alive { object, coroutine };
    let opening = Opening {
        effect: Effect::Adds(slot, raw),
        outer: Items::new(here.alloc),
        inner: here.one(Step::Declares(local), Node::Nothing)?,
        task: Task::Initialize(init, Some(Place::whole(here.alloc, object))),
    };
    open_init(here, init, opening)
}

/// A local is made in its slot [stmt.dcl].
pub(crate) fn declare<'u>(
    here: &Here<'_, 'u>,
    slot: u32,
    init: &'u Init,
) -> Result<Option<Change<'u>>, NoMemory>
    requires { IsTabled here.now.program.now }
    ensures { IfOk result (λ c. after c (local_of here.now) ≡ statements.declare_in slot init.now (local_of here.now) (objects.type_of_slot (local_of here.now) slot)) }
{
    match type_of_slot(here, slot) {
        Some(of) => Ok(Some(declare_of(here, slot, init, of)?)),
        None => Ok(None),
    }
}

/// A local is live, before the temporaries of its initializer die [stmt.dcl].
pub fn declared<'u>(here: &Here<'_, 'u>, x: Alive) -> Result<Option<Change<'u>>, NoMemory>
    ensures { IfOk result (λ c. after c (local_of here.now) ≡ statements.declares (alive_of x) (local_of here.now)) }
{
    lives(here, x, Spot::InScope, Outcome::Passes)
}

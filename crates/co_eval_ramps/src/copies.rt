ghost use Rattle.std.specs.Prelude.{◌≡◌, ◌+◌, [], ◌∷◌, drop, Some, IfOk};
ghost use Rattle.co_eval_data.specs.Agents.{IsTabled, local_of};
ghost use Rattle.co_eval_data.specs.Changed.{after, turned_by};
ghost use Rattle.co_eval_data.specs.Seen.{copies_in, frames_of};
ghost use Rattle.co_meaning_calls.specs.Coroutines as coroutines;
ghost use Rattle.co_meaning_data.specs.Frames as frames;

use crate::promises::make_promise;
use co_base::NoMemory;
use co_core_tree::{CopyPlan, Init};
use co_eval_data::{Alive, Change, Effect, Frame, Here, Node, Place, Step, Task};
use co_eval_fulls::{Opening, open_init};
use co_eval_parts::raw_object;
use co_eval_reads::{counted_in, next_object, type_of_slot};
use co_types::CoType;
use sqlite_items::Items;

/// The copies that are left after one.
fn left_frame<'u>(here: &Here<'_, 'u>, rest: Node<'u>) -> Result<Items<Frame<'u>>, NoMemory>
    ensures { IfOk result (λ fs. frames_of fs ≡ frames.RampCopies (copies_in rest.entry) ∷ []) }
{
    here.one(Step::RampCopies, rest)
}

/// The copy is awaited.
fn made_frame<'u>(
    here: &Here<'_, 'u>,
    object: u64,
    coroutine: Option<u64>,
) -> Result<Items<Frame<'u>>, NoMemory>
    ensures { IfOk result (λ fs. frames_of fs ≡ frames.RampMade (record { object = object; coroutine = coroutine }) ∷ []) }
{
    let copy = Alive { object, coroutine };
    here.one(Step::RampMade(copy), Node::Nothing)
}

/// The parameter is copied into an object of this type, in a full-expression of its own.
fn copies_into<'u>(
    here: &Here<'_, 'u>,
    copy: &CopyPlan,
    init: &'u Init,
    rest: Node<'u>,
    of: &'u CoType,
) -> Result<Change<'u>, NoMemory>
    requires tabled { IsTabled here.now.program.now }
    requires init { init.now ≡ copy.now.init }
    ensures { IfOk result (λ c. Some (turned_by c (local_of here.now)) ≡ coroutines.ramp_copy_of copy.now (copies_in rest.entry) (local_of here.now) (Some of.now)) }
{
    let coroutine = counted_in(here, of);
    let object = next_object(here);
    let raw = raw_object(here, of, None, coroutine)?;
    let outer = left_frame(here, rest)?;
    let inner = made_frame(here, object, coroutine)?;
    let place = Place::whole(here.alloc, object);
    let opening = Opening {
        effect: Effect::Adds(copy.to.0, raw),
        outer,
        inner,
        task: Task::Initialize(init, Some(place)),
    };
    open_init(here, init, opening)
}

/// The next parameter is copied, after which those of the node are left.
fn copies_next<'u>(
    here: &Here<'_, 'u>,
    copy: &'u CopyPlan,
    rest: Node<'u>,
) -> Result<Option<Change<'u>>, NoMemory>
    requires { IsTabled here.now.program.now }
    ensures { IfOk result (λ c. after c (local_of here.now) ≡ coroutines.ramp_copies (copy.now ∷ copies_in rest.entry) (local_of here.now)) }
{
    match type_of_slot(here, copy.to.0) {
        Some(of) => {
            let change = copies_into(here, copy, &copy.init, rest, of)?;
            Ok(Some(change))
        }
        None => Ok(None),
    }
}

/// The number of the next item.
fn number_after(number: usize) -> Result<usize, NoMemory>
    ensures { IfOk result (λ next. next ≡ number + 1) }
{
    match number.checked_add(1) {
        Some(next) => Ok(next),
        None => Err(NoMemory),
    }
}

#[tactic(auto, using(crate::proofs::Left::first_left, crate::proofs::Left::none_left))]
fn copies_of_list<'u>(
    here: &Here<'_, 'u>,
    list: &'u Items<CopyPlan>,
    from: usize,
) -> Result<Option<Change<'u>>, NoMemory>
    requires { IsTabled here.now.program.now }
    ensures { IfOk result (λ c. after c (local_of here.now) ≡ coroutines.ramp_copies (drop from list.now) (local_of here.now)) }
{
    match list.get(from) {
        Some(copy) => {
            let next = number_after(from)?;
            copies_next(here, copy, Node::Copies(list, next))
        }
        None => make_promise(here),
    }
}

/// The next parameter is copied, and after the last one the promise is made [dcl.fct.def.coroutine].
pub fn ramp_copies<'u>(here: &Here<'_, 'u>, node: Node<'u>) -> Result<Option<Change<'u>>, NoMemory>
    requires { IsTabled here.now.program.now }
    ensures { IfOk result (λ c. after c (local_of here.now) ≡ coroutines.ramp_copies (copies_in node.entry) (local_of here.now)) }
{
    match node {
        Node::Copies(list, from) => copies_of_list(here, list, from),
        _ => make_promise(here),
    }
}

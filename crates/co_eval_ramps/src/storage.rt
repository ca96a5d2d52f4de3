ghost use Rattle.std.specs.Prelude.{◌≡◌, ◌/◌, List, [], ◌∷◌, map, None, Some, IfOk};
ghost use Rattle.co_core_tree.specs.declared.exprs.Init.{Init};
ghost use Rattle.co_eval_data.specs.Agents.{local_of};
ghost use Rattle.co_eval_data.specs.Changed.{after};
ghost use Rattle.co_eval_data.specs.Seen.{call_of, frames_of, given_of, inits_in};
ghost use Rattle.co_meaning_calls.specs.Calls as calls;
ghost use Rattle.co_meaning_calls.specs.Coroutines as coroutines;
ghost use Rattle.co_meaning_calls.specs.Objects as objects;
ghost use Rattle.co_meaning_data.specs.Frames as frames;
ghost use Rattle.co_meaning_data.specs.Turn as turn;

use crate::calls::{result_place, two};
use co_base::{FuncId, NoMemory, Undef};
use co_core_tree::{Init, PromisePlan, TakePlan};
use co_eval_data::{Call, Change, Effect, Frame, Given, Here, Node, Outcome, Step, Task};
use co_eval_fulls::{Opening, open_call};
use co_eval_parts::{call_with, size_given};
use co_eval_reads::{counted_alone, frame_bytes, func_span, is_no_room, next_block, plan};
use co_meaning_data::Value;
use sqlite_items::Items;

/// The storage of the frame is awaited.
fn taken_frame<'u>(here: &Here<'_, 'u>) -> Result<Items<Frame<'u>>, NoMemory>
    ensures { IfOk result (λ fs. frames_of fs ≡ frames.RampTaken ∷ []) }
{
    here.one(Step::RampTaken, Node::Nothing)
}

/// The global `operator new` is called [new.delete.single].
fn takes_block<'u>(here: &Here<'_, 'u>) -> Result<Option<Change<'u>>, NoMemory>
    ensures { IfOk result (λ c. after c (local_of here.now) ≡ coroutines.take_block (turn.frame_bytes (local_of here.now) / 8) (turn.pushed frames.RampTaken (local_of here.now))) }
{
    let frames = taken_frame(here)?;
    let words = frame_bytes(here) / 8;
    let block = Value::Block(next_block(here));
    let task = Task::Comes(Outcome::Gives(Given::Scalar(block)));
    Ok(Some(here.makes(Effect::AddsBlock(words), frames, task)))
}

/// The bytes of the frame, as an argument.
fn size_argument(here: &Here<'_, '_>) -> Result<Items<Given>, NoMemory>
    ensures { IfOk result (λ given. map given_of given ≡ coroutines.size_given (turn.frame_bytes (local_of here.now)) ∷ []) }
{
    let mut given = Items::new(here.alloc);
    given.push(size_given(frame_bytes(here)))?;
    Ok(given)
}

/// The call of an `operator new` of the promise's class, which gets the bytes of the frame first.
fn taking_call(here: &Here<'_, '_>, func: FuncId) -> Result<Call, NoMemory>
    ensures { IfOk result (λ call. (rest : List Init) → call_of call rest ≡ coroutines.take_call func rest (local_of here.now)) }
{
    let given = size_argument(here)?;
    Ok(Call {
        func,
        given,
        objects: Items::new(here.alloc),
        into: None,
        at: func_span(here),
    })
}

/// The frame of that call, whose other arguments are still to be evaluated.
fn taking_frame<'u>(
    here: &Here<'_, 'u>,
    func: FuncId,
    rest: Node<'u>,
) -> Result<Items<Frame<'u>>, NoMemory>
    ensures { IfOk result (λ fs. frames_of fs ≡ frames.Calling (coroutines.take_call func (inits_in rest.entry) (local_of here.now)) ∷ []) }
{
    let call = taking_call(here, func)?;
    here.one(Step::Calling(call), rest)
}

/// The frame of that call where it has no other arguments, above the frame that awaits the storage.
fn taking_frames<'u>(here: &Here<'_, 'u>, func: FuncId) -> Result<Items<Frame<'u>>, NoMemory>
    ensures { IfOk result (λ fs. frames_of fs ≡ frames.Calling (coroutines.take_call func [] (local_of here.now)) ∷ frames.RampTaken ∷ []) }
{
    let call = taking_call(here, func)?;
    two(here, Step::RampTaken, Step::Calling(call))
}

/// An `operator new` of the promise's class that takes the size alone is called.
fn takes_by<'u>(here: &Here<'_, 'u>, func: FuncId) -> Result<Option<Change<'u>>, NoMemory>
    ensures { IfOk result (λ c. after c (local_of here.now) ≡ turn.under (frames.Calling (coroutines.take_call func [] (local_of here.now))) (frames.Comes frames.Passes) (turn.pushed frames.RampTaken (local_of here.now))) }
{
    let frames = taking_frames(here, func)?;
    Ok(Some(here.above(frames, Task::Comes(Outcome::Passes))))
}

/// One that takes the coroutine's parameters too is called, in a full-expression of its own.
fn takes_with<'u>(
    here: &Here<'_, 'u>,
    func: FuncId,
    args: &'u Items<Init>,
) -> Result<Change<'u>, NoMemory>
    ensures { IfOk result (λ c. after (Some c) (local_of here.now) ≡ calls.opens (calls.call_acts (local_of here.now) (coroutines.take_call func args.now (local_of here.now))) (frames.Calling (coroutines.take_call func args.now (local_of here.now)) ∷ []) (frames.Comes frames.Passes) (turn.pushed frames.RampTaken (local_of here.now))) }
{
    let outer = taken_frame(here)?;
    let inner = taking_frame(here, func, Node::Inits(args, 0))?;
    let rest = args.as_slice();
    let opening = Opening {
        effect: Effect::Nothing,
        outer,
        inner,
        task: Task::Comes(Outcome::Passes),
    };
    open_call(here, func, 1, rest, opening)
}

/// The storage is taken as the plan says.
fn takes_frame<'u>(
    here: &Here<'_, 'u>,
    plan: &'u PromisePlan,
) -> Result<Option<Change<'u>>, NoMemory>
    ensures { IfOk result (λ c. after c (local_of here.now) ≡ coroutines.takes_frame plan.now.take plan.now.take_args (turn.pushed frames.RampTaken (local_of here.now))) }
{
    match plan.take {
        TakePlan::Global => takes_block(here),
        TakePlan::Own(func) => takes_by(here, func),
        TakePlan::OwnWith(func) => {
            let change = takes_with(here, func, &plan.take_args)?;
            Ok(Some(change))
        }
    }
}

/// The call of a coroutine takes the storage of its frame first [dcl.fct.def.coroutine].
pub fn ramp_take<'u>(here: &Here<'_, 'u>) -> Result<Option<Change<'u>>, NoMemory>
    ensures { IfOk result (λ c. after c (local_of here.now) ≡ coroutines.ramp_take (local_of here.now)) }
{
    match plan(here) {
        Some(plan) => takes_frame(here, plan),
        None => Ok(None),
    }
}

/// The coroutine is made in its block.
fn frame_room<'u>(here: &Here<'_, 'u>, storage: &Value) -> Option<Change<'u>>
    ensures { after result (local_of here.now) ≡ coroutines.frame_room storage.now (local_of here.now) }
{
    match storage {
        Value::Block(block) => Some(here.goes(Task::Draws(*block))),
        _ => None,
    }
}

/// The coroutine is made in the storage, which is undefined where that has no room for it [basic.stc.dynamic].
fn makes_if_room<'u>(here: &Here<'_, 'u>, storage: &Value) -> Option<Change<'u>>
    ensures { after result (local_of here.now) ≡ coroutines.without_storage None storage.now (local_of here.now) }
{
    let words = frame_bytes(here) / 8;
    match counted_alone(Undef::U10, is_no_room(here, words, storage)) {
        Some(kind) => Some(here.is_undefined(kind, func_span(here))),
        None => frame_room(here, storage),
    }
}

/// The call of `get_return_object_on_allocation_failure`, above the frame that awaits what it gives.
fn null_frames<'u>(here: &Here<'_, 'u>, func: FuncId) -> Result<Items<Frame<'u>>, NoMemory>
    ensures { IfOk result (λ fs. frames_of fs ≡ objects.call_with func [] (local_of here.now).top.into (coroutines.func_span (local_of here.now)) ∷ frames.NullDone ∷ []) }
{
    let into = result_place(here)?;
    let call = call_with(here, func, Items::new(here.alloc), into, func_span(here));
    two(here, Step::NullDone, call)
}

/// There is no storage, and the call returns what that function gives.
fn has_no_storage<'u>(here: &Here<'_, 'u>, func: FuncId) -> Result<Option<Change<'u>>, NoMemory>
    ensures { IfOk result (λ c. after c (local_of here.now) ≡ turn.under (objects.call_with func [] (local_of here.now).top.into (coroutines.func_span (local_of here.now))) (frames.Comes frames.Passes) (turn.pushed frames.NullDone (local_of here.now))) }
{
    let frames = null_frames(here, func)?;
    Ok(Some(here.above(frames, Task::Comes(Outcome::Passes))))
}

/// The storage is there, where a null pointer means that there is none.
fn taken_or_null<'u>(
    here: &Here<'_, 'u>,
    func: FuncId,
    storage: &Value,
) -> Result<Option<Change<'u>>, NoMemory>
    ensures { IfOk result (λ c. after c (local_of here.now) ≡ coroutines.without_storage (Some func) storage.now (local_of here.now)) }
{
    match storage {
        Value::Null => has_no_storage(here, func),
        _ => Ok(makes_if_room(here, storage)),
    }
}

fn taken_by<'u>(
    here: &Here<'_, 'u>,
    on_null: Option<FuncId>,
    storage: &Value,
) -> Result<Option<Change<'u>>, NoMemory>
    ensures { IfOk result (λ c. after c (local_of here.now) ≡ coroutines.without_storage on_null storage.now (local_of here.now)) }
{
    match on_null {
        Some(func) => taken_or_null(here, func, storage),
        None => Ok(makes_if_room(here, storage)),
    }
}

/// The storage is there: a null pointer makes the call return what `get_return_object_on_allocation_failure` gives, where that is
/// there; else the pointer has to be that of room for the frame [dcl.fct.def.coroutine].
pub fn ramp_taken<'u>(here: &Here<'_, 'u>, storage: &Value) -> Result<Option<Change<'u>>, NoMemory>
    ensures { IfOk result (λ c. after c (local_of here.now) ≡ coroutines.ramp_taken storage.now (local_of here.now)) }
{
    match plan(here) {
        Some(plan) => taken_by(here, plan.on_null, storage),
        None => Ok(None),
    }
}

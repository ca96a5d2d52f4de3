ghost use Rattle.std.specs.Prelude.{◌≡◌, List, [], ◌∷◌, if◌then◌else◌, true, map, None, Some, IfOk};
ghost use Rattle.co_core_tree.specs.declared.exprs.Init.{Init};
ghost use Rattle.co_eval_data.specs.Agents.{IsTabled, local_of};
ghost use Rattle.co_eval_data.specs.Changed.{after, turned_by};
ghost use Rattle.co_eval_data.specs.Seen.{alive_of, call_of, frames_of, given_of, inits_in};
ghost use Rattle.co_meaning_calls.specs.Coroutines as coroutines;
ghost use Rattle.co_meaning_calls.specs.Objects as objects;
ghost use Rattle.co_meaning_data.specs.Frames as frames;
ghost use Rattle.co_meaning_data.specs.Store as store;
ghost use Rattle.co_meaning_data.specs.Turn as turn;

use crate::calls::two;
use co_base::{FuncId, NoMemory};
use co_core_tree::{Init, PromisePlan, SlotInfo, SlotKind};
use co_eval_data::{
    Alive, Call, Change, Effect, Frame, Given, Here, Node, Outcome, Place, Step, Task, with,
};
use co_eval_fulls::{Opening, open_call};
use co_eval_parts::{indeterminate_object, raw_object};
use co_eval_reads::{counted_in, func, func_span, next_object, plan, type_of_slot};
use co_types::CoType;
use sqlite_items::Items;

fn is_promise_kind(kind: SlotKind) -> bool
    ensures { result ≡ coroutines.is_promise_kind kind }
{
    matches!(kind, SlotKind::Promise)
}

/// The number of the first slot of a promise.
#[tactic(auto, using(crate::proofs::Slots::promise_found, crate::proofs::Slots::promise_after, crate::proofs::Slots::no_promise))]
fn promise_among(slots: &[SlotInfo]) -> Option<usize>
    ensures { result ≡ coroutines.promise_among 0 slots.now }
{
    let mut at = 0;
    let mut rest = slots;
    while let [slot, next @ ..] = rest {
        if is_promise_kind(slot.kind) {
            return Some(at);
        }
        at += 1;
        rest = next;
    }
    None
}

/// The slot of the promise in the function of the agent.
fn promise_place(here: &Here<'_, '_>) -> Option<usize>
    ensures { result ≡ coroutines.promise_in (turn.func_of (local_of here.now)) }
{
    match func(here) {
        Some(func) => promise_among(func.slots.as_slice()),
        None => None,
    }
}

/// The number of that slot.
fn promise_slot(here: &Here<'_, '_>) -> Result<Option<u32>, NoMemory>
    ensures { IfOk result (λ slot. slot ≡ coroutines.promise_in (turn.func_of (local_of here.now))) }
{
    match promise_place(here) {
        Some(at) => match u32::try_from(at) {
            Ok(slot) => Ok(Some(slot)),
            Err(_) => Err(NoMemory),
        },
        None => Ok(None),
    }
}

/// The promise is made, and then the result of the call.
fn made_frames<'u>(here: &Here<'_, 'u>, promise: Alive) -> Result<Items<Frame<'u>>, NoMemory>
    ensures { IfOk result (λ fs. frames_of fs ≡ frames.RampMade (alive_of promise) ∷ frames.RampResult ∷ []) }
{
    two(here, Step::RampResult, Step::RampMade(promise))
}

/// A promise whose class has no constructor is made: its scalars are indeterminate [dcl.init].
fn makes_plainly<'u>(
    here: &Here<'_, 'u>,
    plan: &'u PromisePlan,
    slot: u32,
    of: &'u CoType,
) -> Result<Change<'u>, NoMemory>
    requires tabled { IsTabled here.now.program.now }
    requires plain { plan.now.ctor ≡ None }
    ensures { IfOk result (λ c. Some (turned_by c (local_of here.now)) ≡ coroutines.make_promise_in plan.now slot (local_of here.now) (Some of.now)) }
{
    let coroutine = counted_in(here, of);
    let object = next_object(here);
    let stored = indeterminate_object(here, of, coroutine)?;
    let frames = made_frames(here, Alive { object, coroutine })?;
    Ok(here.makes(
        Effect::AddsPromise(slot, stored),
        frames,
        Task::Comes(Outcome::Passes),
    ))
}

/// The object that is made, as an argument.
fn object_argument(here: &Here<'_, '_>, object: u64) -> Result<Items<Given>, NoMemory>
    ensures { IfOk result (λ given. map given_of given ≡ frames.At (store.whole object) ∷ []) }
{
    let mut given = Items::new(here.alloc);
    given.push(Given::At(Place::whole(here.alloc, object)))?;
    Ok(given)
}

/// The call of the constructor of the promise.
fn making_call(here: &Here<'_, '_>, func: FuncId, object: u64) -> Result<Call, NoMemory>
    ensures { IfOk result (λ call. (rest : List Init) → call_of call rest ≡ coroutines.ctor_call func true rest object (local_of here.now)) }
{
    let given = object_argument(here, object)?;
    Ok(Call {
        func,
        given,
        objects: Items::new(here.alloc),
        into: None,
        at: func_span(here),
    })
}

/// The arguments of the constructor after its object.
fn making_arguments(plan: &PromisePlan) -> &[Init]
    ensures { result.now ≡ (if plan.now.with_params then plan.now.ctor_args else []) }
{
    if plan.with_params {
        plan.ctor_args.as_slice()
    } else {
        &[]
    }
}

/// The same, as those that are left of a call.
fn arguments_left(plan: &PromisePlan) -> Node<'_>
    ensures { inits_in result ≡ (if plan.now.with_params then plan.now.ctor_args else []) }
{
    if plan.with_params {
        Node::Inits(&plan.ctor_args, 0)
    } else {
        Node::Nothing
    }
}

/// The constructor of the promise is called, and what it gives is dropped.
fn constructor_frames<'u>(
    here: &Here<'_, 'u>,
    plan: &'u PromisePlan,
    func: FuncId,
    promise: Alive,
) -> Result<Items<Frame<'u>>, NoMemory>
    ensures { IfOk result (λ fs. frames_of fs ≡ frames.Calling (coroutines.ctor_call func plan.now.with_params plan.now.ctor_args promise.object (local_of here.now)) ∷ frames.Drops ∷ frames.RampMade (alive_of promise) ∷ []) }
{
    let call = making_call(here, func, promise.object)?;
    let one = two(here, Step::RampMade(promise), Step::Drops)?;
    with(one, Step::Calling(call), arguments_left(plan))
}

/// The promise is followed by the result of the call.
fn result_frame<'u>(here: &Here<'_, 'u>) -> Result<Items<Frame<'u>>, NoMemory>
    ensures { IfOk result (λ fs. frames_of fs ≡ frames.RampResult ∷ []) }
{
    here.one(Step::RampResult, Node::Nothing)
}

/// A promise is made by its constructor, in a full-expression of its own [class.init].
fn makes_by<'u>(
    here: &Here<'_, 'u>,
    plan: &'u PromisePlan,
    slot: u32,
    of: &'u CoType,
    func: FuncId,
) -> Result<Change<'u>, NoMemory>
    requires tabled { IsTabled here.now.program.now }
    requires constructor { plan.now.ctor ≡ Some func }
    ensures { IfOk result (λ c. Some (turned_by c (local_of here.now)) ≡ coroutines.make_promise_in plan.now slot (local_of here.now) (Some of.now)) }
{
    let coroutine = counted_in(here, of);
    let object = next_object(here);
    let raw = raw_object(here, of, None, coroutine)?;
    let inner = constructor_frames(here, plan, func, Alive { object, coroutine })?;
    let outer = result_frame(here)?;
    let args = making_arguments(plan);
    let opening = Opening {
        effect: Effect::AddsPromise(slot, raw),
        outer,
        inner,
        task: Task::Comes(Outcome::Passes),
    };
    open_call(here, func, 1, args, opening)
}

/// The promise is made in a slot of this type.
fn makes_promise<'u>(
    here: &Here<'_, 'u>,
    plan: &'u PromisePlan,
    slot: u32,
    of: &'u CoType,
) -> Result<Change<'u>, NoMemory>
    requires { IsTabled here.now.program.now }
    ensures { IfOk result (λ c. Some (turned_by c (local_of here.now)) ≡ coroutines.make_promise_in plan.now slot (local_of here.now) (Some of.now)) }
{
    match plan.ctor {
        Some(func) => makes_by(here, plan, slot, of, func),
        None => makes_plainly(here, plan, slot, of),
    }
}

fn makes_in_slot<'u>(
    here: &Here<'_, 'u>,
    plan: &'u PromisePlan,
    slot: u32,
) -> Result<Option<Change<'u>>, NoMemory>
    requires { IsTabled here.now.program.now }
    ensures { IfOk result (λ c. after c (local_of here.now) ≡ coroutines.make_promise_in plan.now slot (local_of here.now) (objects.type_of_slot (local_of here.now) slot)) }
{
    match type_of_slot(here, slot) {
        Some(of) => {
            let change = makes_promise(here, plan, slot, of)?;
            Ok(Some(change))
        }
        None => Ok(None),
    }
}

fn makes_by_plan<'u>(
    here: &Here<'_, 'u>,
    plan: &'u PromisePlan,
) -> Result<Option<Change<'u>>, NoMemory>
    requires { IsTabled here.now.program.now }
    ensures { IfOk result (λ c. after c (local_of here.now) ≡ coroutines.make_promise_at (local_of here.now) (Some plan.now) (coroutines.promise_in (turn.func_of (local_of here.now)))) }
{
    match promise_slot(here)? {
        Some(slot) => makes_in_slot(here, plan, slot),
        None => Ok(None),
    }
}

/// The parameters are copied, and the promise is made [dcl.fct.def.coroutine].
pub(crate) fn make_promise<'u>(here: &Here<'_, 'u>) -> Result<Option<Change<'u>>, NoMemory>
    requires { IsTabled here.now.program.now }
    ensures { IfOk result (λ c. after c (local_of here.now) ≡ coroutines.ramp_copies [] (local_of here.now)) }
{
    match plan(here) {
        Some(plan) => makes_by_plan(here, plan),
        None => Ok(None),
    }
}

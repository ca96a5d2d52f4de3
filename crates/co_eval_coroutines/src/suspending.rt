ghost use Rattle.std.specs.Prelude.{◌≡◌, ◌∷◌, ◌++◌, [], suc, None, Some, IfOk};
ghost use Rattle.std.specs.Option.{option_copied};
ghost use Rattle.co_eval_coroutines.specs.Calling.{load_frames, suspended_under, taken_with};
ghost use Rattle.co_eval_data.specs.Agents.{activation_of, local_of};
ghost use Rattle.co_eval_data.specs.Changed.{after, dropped, turned_by};
ghost use Rattle.co_eval_data.specs.Seen.{await_in, call_of, frame_of, frame_with, frames_of, outcome_of, place_if};
ghost use Rattle.co_eval_data.specs.declared.frames.Step.TheVariants as step;
ghost use Rattle.co_meaning.specs.Step as meaning_step;
ghost use Rattle.co_meaning_calls.specs.Coroutines as coroutines;
ghost use Rattle.co_meaning_data.specs.Frames as meaning;
ghost use Rattle.co_meaning_data.specs.Turn as turn;

use crate::frames::above;
use co_base::{NoMemory, Span};
use co_core_tree::AwaitPlan;
use co_eval_calls::enter;
use co_eval_data::{
    Activation, Call, Change, Doing, Effect, Frame, Given, Here, Kind, Node, Outcome, Place, Step,
    Task,
};
use co_eval_parts::{copy_given_list, copy_place_if};
use co_eval_reads::serial_now;
use sqlite_items::Items;
use std::alloc::Global;

/// The coroutine whose body the agent runs.
#[tactic(auto, using(co_eval_reads::proofs::Parts::coroutine_seen))]
fn coroutine_here(here: &Here<'_, '_>) -> Option<u64>
    ensures { result ≡ (local_of here.now).top.coroutine }
{
    here.top.coroutine
}

/// The number of the next suspension of a coroutine.
fn next_serial(here: &Here<'_, '_>, coroutine: u64) -> Result<u64, NoMemory>
    ensures { IfOk result (λ serial. serial ≡ suc (coroutines.serial_now coroutine (local_of here.now))) }
{
    match serial_now(here, coroutine).checked_add(1) {
        Some(serial) => Ok(serial),
        None => Err(NoMemory),
    }
}

/// The same call.
fn copy_call(alloc: Global, call: &Call) -> Result<Call, NoMemory>
    ensures { IfOk result (λ copied. copied ≡ call.now) }
{
    let given = copy_given_list(alloc, call.given.as_slice())?;
    let objects = Items::from_slice(alloc, call.objects.as_slice())?;
    let into = copy_place_if(alloc, &call.into)?;
    Ok(Call {
        func: call.func,
        given,
        objects,
        into,
        at: call.at,
    })
}

/// What is left to be done by a parked activation when `await_suspend` has answered.
fn answer_frames<'u>(
    here: &Here<'_, 'u>,
    coroutine: u64,
    serial: u64,
    plan: &AwaitPlan,
    own: &[u64],
) -> Result<Vec<Frame<'u>>, NoMemory>
    ensures { IfOk result (λ frames. frames_of frames.items ≡ meaning.Answers coroutine serial plan.now.answer own.now plan.now.span ∷ []) }
{
    let own = Items::from_slice(here.alloc, own)?;
    let step = Step::Answers(coroutine, serial, plan.answer, own, plan.span);
    above(Vec::new(here.alloc), step, Node::Nothing)
}

/// What the call gives is loaded, where it is a reference.
fn with_load<'u>(frames: Vec<Frame<'u>>, load: Option<Span>) -> Result<Vec<Frame<'u>>, NoMemory>
    ensures { IfOk result (λ more. frames_of more.items ≡ load_frames load ++ frames_of frames.entry.items) }
{
    match load {
        Some(at) => above(frames, Step::LoadFrom(at), Node::Nothing),
        None => Ok(frames),
    }
}

/// The call of `await_suspend` is the first to be done.
fn with_call<'u>(
    here: &Here<'_, 'u>,
    frames: Vec<Frame<'u>>,
    call: &Call,
) -> Result<Vec<Frame<'u>>, NoMemory>
    ensures { IfOk result (λ more. frames_of more.items ≡ meaning.Calling (call_of call.now []) ∷ frames_of frames.entry.items) }
{
    match copy_call(here.alloc, call) {
        Ok(call) => above(frames, Step::Calling(call), Node::Nothing),
        Err(_) => Err(NoMemory),
    }
}

/// The activation that stands in the place of that of a suspended coroutine.
#[tactic(auto, using(co_eval_reads::proofs::Parts::func_seen))]
fn parked<'u>(
    here: &Here<'_, 'u>,
    coroutine: u64,
    serial: u64,
    plan: &AwaitPlan,
    frames: Vec<Frame<'u>>,
) -> Activation<'u>
    ensures { activation_of result ≡ record { kind = meaning.OfParked coroutine serial plan.now.answer; func = (local_of here.now).top.func; slots = []; coroutine = None; into = None; frames = frames_of frames.entry.items } }
{
    Activation {
        kind: Kind::OfParked(coroutine, serial, plan.answer),
        func: here.top.func,
        slots: Items::new(here.alloc),
        coroutine: None,
        into: None,
        frames,
    }
}

/// The frame with which a suspended coroutine goes on.
fn resume_frames<'u>(
    here: &Here<'_, 'u>,
    plan: &'u AwaitPlan,
    into: &Option<Place>,
) -> Result<Items<Frame<'u>>, NoMemory>
    ensures { IfOk result (λ fs. frames_of fs ≡ meaning.AwaitResume plan.now (place_if into.now) ∷ []) }
{
    let into = copy_place_if(here.alloc, into)?;
    here.one(Step::AwaitResume(into), Node::Await(plan))
}

/// So many frames are taken away, and the coroutine is suspended at its await.
#[tactic(auto, using(crate::proofs::Suspension::is_suspended))]
fn suspends<'u>(
    here: &Here<'_, 'u>,
    taken: usize,
    coroutine: u64,
    plan: &'u AwaitPlan,
    into: &Option<Place>,
    parked: Activation<'u>,
    outcome: Outcome,
) -> Result<Change<'u>, NoMemory>
    ensures { IfOk result (λ c. Some (turned_by c (local_of here.now)) ≡ turn.goes (meaning.Comes (outcome_of outcome)) (suspended_under coroutine plan.now (place_if into.now) (activation_of parked.entry) (dropped taken (local_of here.now)))) }
{
    match resume_frames(here, plan, into) {
        Ok(frames) => Ok(Change {
            taken,
            effect: Effect::Suspends(coroutine, plan.point.0, frames, parked),
            frames: Items::new(here.alloc),
            doing: Doing {
                opens: None,
                task: Task::Comes(outcome),
            },
        }),
        Err(_) => Err(NoMemory),
    }
}

fn suspends_alone<'u>(
    here: &Here<'_, 'u>,
    coroutine: u64,
    plan: &'u AwaitPlan,
    into: &Option<Place>,
) -> Result<Change<'u>, NoMemory>
    ensures { IfOk result (λ c. Some (turned_by c (local_of here.now)) ≡ coroutines.suspend_as coroutine plan.now (place_if into.now) [] [] (meaning.Gives meaning.Nothing) (local_of here.now)) }
{
    let serial = next_serial(here, coroutine)?;
    let frames = answer_frames(here, coroutine, serial, plan, &[])?;
    let parked = parked(here, coroutine, serial, plan, frames);
    let outcome = Outcome::Gives(Given::Nothing);
    suspends(here, 0, coroutine, plan, into, parked, outcome)
}

/// The coroutine is suspended by one of the library's awaiters, whose `await_suspend` gives nothing [coroutine.trivial.awaitables].
pub(crate) fn suspends_without_call<'u>(
    here: &Here<'_, 'u>,
    plan: &'u AwaitPlan,
    into: &Option<Place>,
) -> Result<Option<Change<'u>>, NoMemory>
    ensures { IfOk result (λ c. after c (local_of here.now) ≡ coroutines.suspend (local_of here.now).top.coroutine plan.now (place_if into.now) [] [] (meaning.Gives meaning.Nothing) (local_of here.now)) }
{
    match coroutine_here(here) {
        Some(coroutine) => {
            let change = suspends_alone(here, coroutine, plan, into)?;
            Ok(Some(change))
        }
        None => Ok(None),
    }
}

/// The frames of a parked activation, under which `await_suspend` is entered.
fn parked_frames<'u>(
    here: &Here<'_, 'u>,
    coroutine: u64,
    serial: u64,
    plan: &AwaitPlan,
    own: &[u64],
    call: &Call,
    load: Option<Span>,
) -> Result<Vec<Frame<'u>>, NoMemory>
    ensures { IfOk result (λ frames. frames_of frames.items ≡ meaning.Calling (call_of call.now []) ∷ (load_frames load ++ meaning.Answers coroutine serial plan.now.answer own.now plan.now.span ∷ [])) }
{
    let frames = answer_frames(here, coroutine, serial, plan, own)?;
    let frames = with_load(frames, load)?;
    with_call(here, frames, call)
}

/// How many frames the call takes away.
fn taken_by_call(load: Option<Span>) -> usize
    ensures { result ≡ taken_with load }
{
    match load {
        None => 1,
        Some(_) => 2,
    }
}

fn suspends_under<'u>(
    here: &Here<'_, 'u>,
    coroutine: u64,
    plan: &'u AwaitPlan,
    into: &Option<Place>,
    own: &[u64],
    call: &Call,
    load: Option<Span>,
) -> Result<Change<'u>, NoMemory>
    ensures { IfOk result (λ c. Some (turned_by c (local_of here.now)) ≡ coroutines.suspend_as coroutine plan.now (place_if into.now) own.now (meaning.Calling (call_of call.now []) ∷ load_frames load) meaning.Passes (dropped (taken_with load) (local_of here.now))) }
{
    let serial = next_serial(here, coroutine)?;
    let frames = parked_frames(here, coroutine, serial, plan, own, call, load)?;
    let parked = parked(here, coroutine, serial, plan, frames);
    let taken = taken_by_call(load);
    suspends(here, taken, coroutine, plan, into, parked, Outcome::Passes)
}

/// The coroutine is suspended before the call of `await_suspend` [expr.await].
#[tactic(auto, using(crate::proofs::Entered::suspends_some, crate::proofs::Entered::suspends_none))]
fn suspends_by<'u>(
    here: &Here<'_, 'u>,
    call: &Call,
    plan: &'u AwaitPlan,
    into: &Option<Place>,
    own: &[u64],
    load: Option<Span>,
) -> Result<Option<Change<'u>>, NoMemory>
    requires { coroutines.suspends_before (call_of call.now []) (local_of here.now).top.frames (local_of here.now) ≡ Some (coroutines.suspend (local_of here.now).top.coroutine plan.now (place_if into.now) own.now (meaning.Calling (call_of call.now []) ∷ load_frames load) meaning.Passes (dropped (taken_with load) (local_of here.now))) }
    ensures { IfOk result (λ c. after c (local_of here.now) ≡ meaning_step.or_enter (call_of call.now []) (local_of here.now) (coroutines.suspends_before (call_of call.now []) (local_of here.now).top.frames (local_of here.now))) }
{
    match coroutine_here(here) {
        Some(coroutine) => {
            let change = suspends_under(here, coroutine, plan, into, own, call, load)?;
            Ok(Some(change))
        }
        None => Ok(None),
    }
}

/// The call of another function, which is entered.
fn enters<'u>(here: &Here<'_, 'u>, call: &Call) -> Result<Option<Change<'u>>, NoMemory>
    requires { coroutines.suspends_before (call_of call.now []) (local_of here.now).top.frames (local_of here.now) ≡ None }
    ensures { IfOk result (λ c. after c (local_of here.now) ≡ meaning_step.or_enter (call_of call.now []) (local_of here.now) (coroutines.suspends_before (call_of call.now []) (local_of here.now).top.frames (local_of here.now))) }
{
    enter(here, call)
}

/// The await of a frame.
fn await_of<'u>(node: Node<'u>) -> Option<&'u AwaitPlan>
    ensures { option_copied result ≡ await_in node.entry }
{
    match node {
        Node::Await(plan) => Some(plan),
        _ => None,
    }
}

/// The call stands above an `await_suspend`, with these frames below.
#[tactic(auto, using(crate::proofs::Entered::by_await, crate::proofs::Entered::no_await))]
fn given_above<'u>(
    here: &Here<'_, 'u>,
    call: &Call,
    node: Node<'u>,
    into: &Option<Place>,
    own: &Items<u64>,
    below: &[Frame<'u>],
) -> Result<Option<Change<'u>>, NoMemory>
    requires { (local_of here.now).top.frames ≡ frame_with (step.AwaitSuspend into.now own.now) node ∷ frames_of below.now }
    ensures { IfOk result (λ c. after c (local_of here.now) ≡ meaning_step.or_enter (call_of call.now []) (local_of here.now) (coroutines.suspends_before (call_of call.now []) (local_of here.now).top.frames (local_of here.now))) }
{
    match await_of(node) {
        Some(plan) => suspends_by(here, call, plan, into, own.as_slice(), None),
        None => enters(here, call),
    }
}

/// The same, where what the call gives is loaded.
#[tactic(auto, using(crate::proofs::Entered::by_loaded_await, crate::proofs::Entered::no_loaded_await))]
fn loaded_above<'u>(
    here: &Here<'_, 'u>,
    call: &Call,
    at: Span,
    node: Node<'u>,
    into: &Option<Place>,
    own: &Items<u64>,
    below: &[Frame<'u>],
) -> Result<Option<Change<'u>>, NoMemory>
    requires { (local_of here.now).top.frames ≡ meaning.LoadFrom at ∷ frame_with (step.AwaitSuspend into.now own.now) node ∷ frames_of below.now }
    ensures { IfOk result (λ c. after c (local_of here.now) ≡ meaning_step.or_enter (call_of call.now []) (local_of here.now) (coroutines.suspends_before (call_of call.now []) (local_of here.now).top.frames (local_of here.now))) }
{
    match await_of(node) {
        Some(plan) => suspends_by(here, call, plan, into, own.as_slice(), Some(at)),
        None => enters(here, call),
    }
}

#[tactic(auto, using(crate::proofs::Entered::other_beneath))]
fn loaded_at<'u>(
    here: &Here<'_, 'u>,
    call: &Call,
    at: Span,
    next: &Frame<'u>,
    below: &[Frame<'u>],
) -> Result<Option<Change<'u>>, NoMemory>
    requires { (local_of here.now).top.frames ≡ meaning.LoadFrom at ∷ frame_of next.now ∷ frames_of below.now }
    ensures { IfOk result (λ c. after c (local_of here.now) ≡ meaning_step.or_enter (call_of call.now []) (local_of here.now) (coroutines.suspends_before (call_of call.now []) (local_of here.now).top.frames (local_of here.now))) }
{
    match &next.step {
        Step::AwaitSuspend(into, own) => loaded_above(here, call, at, next.node, into, own, below),
        _ => enters(here, call),
    }
}

/// What the call gives is loaded, with these frames below.
#[tactic(auto, using(crate::proofs::Entered::next_beneath, crate::proofs::Entered::none_beneath))]
fn loaded<'u>(
    here: &Here<'_, 'u>,
    call: &Call,
    at: Span,
    below: &[Frame<'u>],
) -> Result<Option<Change<'u>>, NoMemory>
    requires { (local_of here.now).top.frames ≡ meaning.LoadFrom at ∷ frames_of below.now }
    ensures { IfOk result (λ c. after c (local_of here.now) ≡ meaning_step.or_enter (call_of call.now []) (local_of here.now) (coroutines.suspends_before (call_of call.now []) (local_of here.now).top.frames (local_of here.now))) }
{
    match below {
        [rest @ .., next] => loaded_at(here, call, at, next, rest),
        [] => enters(here, call),
    }
}

#[tactic(auto, using(crate::proofs::Entered::other_on_top))]
fn given_at<'u>(
    here: &Here<'_, 'u>,
    call: &Call,
    top: &Frame<'u>,
    below: &[Frame<'u>],
) -> Result<Option<Change<'u>>, NoMemory>
    requires { (local_of here.now).top.frames ≡ frame_of top.now ∷ frames_of below.now }
    ensures { IfOk result (λ c. after c (local_of here.now) ≡ meaning_step.or_enter (call_of call.now []) (local_of here.now) (coroutines.suspends_before (call_of call.now []) (local_of here.now).top.frames (local_of here.now))) }
{
    match &top.step {
        Step::AwaitSuspend(into, own) => given_above(here, call, top.node, into, own, below),
        Step::LoadFrom(at) => loaded(here, call, *at, below),
        _ => enters(here, call),
    }
}

/// A call whose arguments are there: that of `await_suspend` suspends the coroutine first, and another enters its function.
#[tactic(auto, using(co_eval_calls::proofs::OnTop::seen_on_top, crate::proofs::Entered::no_frames))]
pub fn call_given<'u>(here: &Here<'_, 'u>, call: &Call) -> Result<Option<Change<'u>>, NoMemory>
    ensures { IfOk result (λ c. after c (local_of here.now) ≡ meaning_step.or_enter (call_of call.now []) (local_of here.now) (coroutines.suspends_before (call_of call.now []) (local_of here.now).top.frames (local_of here.now))) }
{
    match here.frames {
        [below @ .., top] => given_at(here, call, top, below),
        [] => enters(here, call),
    }
}

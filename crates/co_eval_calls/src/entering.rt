ghost use Rattle.std.specs.Prelude.{◌≡◌, List, [], ◌∷◌, ◌++◌, map, reverse, slice_get, true, Some, IfOk};
ghost use Rattle.std.specs.Option.{option_copied, option_map};
ghost use Rattle.co_eval_calls.specs.Bound.{bound_of};
ghost use Rattle.co_eval_data.specs.Agents.{kind_of, local_of, task_of};
ghost use Rattle.co_eval_data.specs.Changed.{after, turned_by};
ghost use Rattle.co_eval_data.specs.Seen.{call_of, constructing, frame_with, frames_of, given_of, place_of};
ghost use Rattle.co_meaning_calls.specs.Calls as calls;
ghost use Rattle.co_meaning_data.specs.Frames as meaning;
ghost use Rattle.co_meaning_data.specs.Store as store;
ghost use Rattle.co_meaning_data.specs.Turn as turn;

use crate::binding::{Binding, bind, first_given};
use co_base::{ClassId, FuncId, NoMemory};
use co_core_tree::{CoreFunc, FuncRole};
use co_eval_data::{
    Activation, Call, Change, Effect, Frame, Given, Here, Kind, Node, Outcome, Place, Step, Task,
};
use co_eval_parts::copy_place_if;
use co_eval_reads::func_at;
use sqlite_items::Items;
use std::alloc::Global;

/// The frames with one more, above them.
#[tactic(auto, using(crate::proofs::OnTop::one_more))]
fn above<'u>(
    mut frames: Vec<Frame<'u>>,
    step: Step,
    node: Node<'u>,
) -> Result<Vec<Frame<'u>>, NoMemory>
    ensures { IfOk result (λ more. frames_of more.items ≡ frame_with step node.entry ∷ frames_of frames.entry.items) }
{
    frames.push(Frame { step, node })?;
    Ok(frames)
}

/// What stands around the body of a function.
pub fn around<'u>(
    alloc: Global,
    func: &CoreFunc,
    own: Items<u64>,
) -> Result<Vec<Frame<'u>>, NoMemory>
    ensures { IfOk result (λ frames. frames_of frames.items ≡ calls.around func.now own) }
{
    let frames = above(Vec::new(alloc), Step::Function(own), Node::Nothing)?;
    if func.noexcept {
        above(frames, Step::Border, Node::Nothing)
    } else {
        Ok(frames)
    }
}

fn place_in(given: &Given) -> Option<&Place>
    ensures { (rest : List meaning.Given) → option_map place_of (option_copied result) ≡ calls.this_of (given_of given.now ∷ rest) }
{
    match given {
        Given::At(place) => Some(place),
        _ => None,
    }
}

/// The object of a constructor or a destructor: the place that is the first argument, where it is one.
fn this_of(given: &[Given]) -> Option<&Place>
    ensures { option_map place_of (option_copied result) ≡ calls.this_of (reverse (map given_of given.now)) }
{
    match first_given(given) {
        Some((first, _)) => place_in(first),
        None => None,
    }
}

/// A constructor makes the members of this object, which is its own, before its body.
#[tactic(auto, using(crate::proofs::Left::constructed))]
fn constructs<'u>(
    here: &Here<'_, 'u>,
    func: &CoreFunc,
    id: FuncId,
    class: ClassId,
    this: &Place,
    frames: Vec<Frame<'u>>,
) -> Result<Vec<Frame<'u>>, NoMemory>
    requires found { slice_get (turn.funcs (local_of here.now)) id.0 ≡ Some func.now }
    requires role { (p : store.Place) → calls.member_frames (Some p) func.now.role func.now.body ≡ constructing p class 0 0 true (Some func.now) ∷ [] }
    ensures { IfOk result (λ more. frames_of more.items ≡ calls.member_frames (Some (place_of this.now)) func.now.role func.now.body ++ frames_of frames.entry.items) }
{
    let place = this.copy(here.alloc)?;
    let step = Step::Constructing(place, class, 0, 0, true);
    above(frames, step, Node::Func(here.program.unit, id))
}

/// A constructor makes the members of its object before its body, and a destructor ends them after it.
#[tactic(auto, using(crate::proofs::Left::members_first))]
fn with_members<'u>(
    here: &Here<'_, 'u>,
    func: &CoreFunc,
    id: FuncId,
    this: &Place,
    frames: Vec<Frame<'u>>,
) -> Result<Vec<Frame<'u>>, NoMemory>
    requires { slice_get (turn.funcs (local_of here.now)) id.0 ≡ Some func.now }
    ensures { IfOk result (λ more. frames_of more.items ≡ calls.member_frames (Some (place_of this.now)) func.now.role func.now.body ++ frames_of frames.entry.items) }
{
    match &func.role {
        FuncRole::Plain => Ok(frames),
        FuncRole::Ctor(class, _) => constructs(here, func, id, *class, this, frames),
        FuncRole::Dtor(class) => {
            let place = this.copy(here.alloc)?;
            above(frames, Step::FieldsEnd(place, *class), Node::Nothing)
        }
    }
}

fn with_this<'u>(
    here: &Here<'_, 'u>,
    func: &CoreFunc,
    id: FuncId,
    given: &[Given],
    frames: Vec<Frame<'u>>,
) -> Result<Vec<Frame<'u>>, NoMemory>
    requires { slice_get (turn.funcs (local_of here.now)) id.0 ≡ Some func.now }
    ensures { IfOk result (λ more. frames_of more.items ≡ calls.member_frames (calls.this_of (reverse (map given_of given.now))) func.now.role func.now.body ++ frames_of frames.entry.items) }
{
    match this_of(given) {
        Some(this) => with_members(here, func, id, this, frames),
        None => Ok(frames),
    }
}

/// What is left to be done in an activation of the function.
fn frames_for<'u>(
    here: &Here<'_, 'u>,
    func: &CoreFunc,
    id: FuncId,
    given: &[Given],
    own: Items<u64>,
) -> Result<Vec<Frame<'u>>, NoMemory>
    requires { slice_get (turn.funcs (local_of here.now)) id.0 ≡ Some func.now }
    ensures { IfOk result (λ frames. frames_of frames.items ≡ calls.frames_for func.now (reverse (map given_of given.now)) own) }
{
    let frames = around(here.alloc, func, own)?;
    if func.plan.is_some() {
        above(frames, Step::RampTake, Node::Nothing)
    } else {
        with_this(here, func, id, given, frames)
    }
}

fn first_of_body<'u>(func: &'u CoreFunc) -> Task<'u>
    ensures { task_of result ≡ calls.first_doing func.now.role func.now.body }
{
    match func.role {
        FuncRole::Ctor(..) => Task::Comes(Outcome::Passes),
        FuncRole::Plain | FuncRole::Dtor(_) => Task::Execute(&func.body),
    }
}

/// What is done first in an activation of the function.
fn first_task<'u>(func: &'u CoreFunc) -> Task<'u>
    ensures { task_of result ≡ calls.doing_for func.now }
{
    if func.plan.is_some() {
        Task::Comes(Outcome::Passes)
    } else {
        first_of_body(func)
    }
}

fn kind_for(func: &CoreFunc) -> Kind
    ensures { kind_of result ≡ calls.kind_for func.now.plan }
{
    match func.plan {
        None => Kind::OfFunction,
        Some(_) => Kind::OfRamp,
    }
}

fn enter_bound<'u>(
    here: &Here<'_, 'u>,
    func: &'u CoreFunc,
    call: &Call,
    binding: Binding<'u>,
) -> Result<Change<'u>, NoMemory>
    requires { slice_get (turn.funcs (local_of here.now)) call.now.func.0 ≡ Some func.now }
    ensures { IfOk result (λ c. Some (turned_by c (local_of here.now)) ≡ calls.entered func.now (call_of call.now []) (local_of here.now) (Some (bound_of (turn.store (local_of here.now)) binding.entry))) }
{
    let Binding {
        slots,
        objects,
        own,
    } = binding;
    let frames = frames_for(here, func, call.func, call.given.as_slice(), own)?;
    let into = copy_place_if(here.alloc, &call.into)?;
    let arguments = Items::from_slice(here.alloc, call.objects.as_slice())?;
    let left = here.one(Step::Called(arguments), Node::Nothing)?;
    let activation = Activation {
        kind: kind_for(func),
        func: call.func,
        slots,
        coroutine: None,
        into,
        frames,
    };
    Ok(here.makes(
        Effect::Enters(left, objects, activation),
        Items::new(here.alloc),
        first_task(func),
    ))
}

fn enter_in<'u>(
    here: &Here<'_, 'u>,
    func: &'u CoreFunc,
    call: &Call,
) -> Result<Option<Change<'u>>, NoMemory>
    requires { slice_get (turn.funcs (local_of here.now)) call.now.func.0 ≡ Some func.now }
    ensures { IfOk result (λ c. after c (local_of here.now) ≡ calls.entered func.now (call_of call.now []) (local_of here.now) (calls.bind func.now (reverse (map given_of call.now.given)) (turn.store (local_of here.now)))) }
{
    match bind(here, func, call.given.as_slice())? {
        Some(binding) => {
            let change = enter_bound(here, func, call, binding)?;
            Ok(Some(change))
        }
        None => Ok(None),
    }
}

/// All arguments of the call are there, and the function is entered [expr.call].
pub fn enter<'u>(here: &Here<'_, 'u>, call: &Call) -> Result<Option<Change<'u>>, NoMemory>
    ensures { IfOk result (λ c. after c (local_of here.now) ≡ calls.enter (call_of call.now []) (local_of here.now)) }
{
    match func_at(here, call.func) {
        Some(func) => enter_in(here, func, call),
        None => Ok(None),
    }
}

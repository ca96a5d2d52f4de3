ghost use Rattle.std.specs.Prelude.{◌≡◌, List, ◌∷◌, Some, None, length, map, slice_get, IfOk};
ghost use Rattle.co_core_tree.specs.Slots as slots;
ghost use Rattle.co_core_tree.specs.declared.exprs.Init.{Init};
ghost use Rattle.co_eval_data.specs.Agents.{IsTabled, local_of};
ghost use Rattle.co_eval_data.specs.Changed.{after, turned_by};
ghost use Rattle.co_eval_data.specs.Seen.{call_of, frame_of, frames_of, given_of, inits_in};
ghost use Rattle.co_meaning_calls.specs.Calls as calls;
ghost use Rattle.co_meaning_calls.specs.Objects as objects;
ghost use Rattle.co_meaning_data.specs.Frames as meaning;
ghost use Rattle.co_meaning_data.specs.Turn as turn;

use crate::lists::{copy_call, in_front};
use co_base::{FuncId, NoMemory, SlotId};
use co_core_tree::{CoreExpr, CoreFunc, Init};
use co_eval_data::{
    Call, Change, Doing, Effect, Frame, Given, Here, Node, Outcome, Place, Step, Task, with,
};
use co_eval_parts::raw_object;
use co_eval_reads::{func_at, is_class, next_object, type_of_slot};
use co_types::CoType;
use std::alloc::Global;

fn holds_class(func: &CoreFunc, slot: SlotId) -> bool
    ensures { result ≡ slots.holds_class (slots.slot_at func.now slot) }
{
    match func.slots.get(slot.0 as usize) {
        Some(info) => is_class(&info.of),
        None => false,
    }
}

#[tactic(auto, using(crate::proofs::Params::some_param, crate::proofs::Params::no_param))]
fn is_class_param_of(func: &CoreFunc, at: usize) -> Option<bool>
    ensures { result ≡ slice_get (slots.class_slots func.now func.now.params) at }
{
    match func.params.get(at) {
        Some(slot) => Some(holds_class(func, *slot)),
        None => None,
    }
}

/// Whether the parameter of this number is an object of a class, where the function has so many.
fn is_class_param(here: &Here<'_, '_>, func: FuncId, at: usize) -> Option<bool>
    ensures { result ≡ slice_get (slots.class_params (turn.funcs (local_of here.now)) func) at }
{
    match func_at(here, func) {
        Some(func) => is_class_param_of(func, at),
        None => None,
    }
}

/// Whether the next argument is for a parameter that is an object of a class.
#[tactic(auto, using(crate::proofs::Params::given_counted))]
fn next_is_object(here: &Here<'_, '_>, call: &Call) -> Option<bool>
    ensures { result ≡ slice_get (slots.class_params (turn.funcs (local_of here.now)) call.now.func) (length (map given_of call.now.given)) }
{
    is_class_param(here, call.func, call.given.len())
}

/// An argument that is no object of its own.
fn value_argument<'u>(
    here: &Here<'_, 'u>,
    call: &Call,
    init: &'u Init,
    rest: Node<'u>,
) -> Result<Change<'u>, NoMemory>
    ensures { IfOk result (λ c. Some (turned_by c (local_of here.now)) ≡ turn.under (meaning.Calling (call_of call.now (inits_in rest.entry))) (meaning.Initialize init.now None) (local_of here.now)) }
{
    let call = copy_call(here.alloc, call)?;
    here.under(Step::Calling(call), rest, Task::Initialize(init, None))
}

/// An argument that is an object of this type, in a slot of the caller.
fn argument_of<'u>(
    here: &Here<'_, 'u>,
    call: &Call,
    rest: Node<'u>,
    slot: u32,
    made: &'u Init,
    of: &'u CoType,
) -> Result<Change<'u>, NoMemory>
    requires { IsTabled here.now.program.now }
    ensures { IfOk result (λ c. Some (turned_by c (local_of here.now)) ≡ calls.argument_object slot made.now (call_of call.now (inits_in rest.entry)) (local_of here.now) (Some of.now)) }
{
    let object = next_object(here);
    let raw = raw_object(here, of, None, None)?;
    let call = copy_call(here.alloc, call)?;
    let frames = here.one(Step::Calling(call), rest)?;
    let frames = with(frames, Step::ArgumentMade(object), Node::Nothing)?;
    let place = Place::whole(here.alloc, object);
    Ok(here.makes(
        Effect::Adds(slot, raw),
        frames,
        Task::Initialize(made, Some(place)),
    ))
}

fn argument_object<'u>(
    here: &Here<'_, 'u>,
    call: &Call,
    rest: Node<'u>,
    slot: u32,
    made: &'u Init,
) -> Result<Option<Change<'u>>, NoMemory>
    requires { IsTabled here.now.program.now }
    ensures { IfOk result (λ c. after c (local_of here.now) ≡ calls.argument_object slot made.now (call_of call.now (inits_in rest.entry)) (local_of here.now) (objects.type_of_slot (local_of here.now) slot)) }
{
    match type_of_slot(here, slot) {
        Some(of) => {
            let change = argument_of(here, call, rest, slot, made, of)?;
            Ok(Some(change))
        }
        None => Ok(None),
    }
}

/// An argument for a class parameter, the value of an expression that makes this temporary.
fn object_argument<'u>(
    here: &Here<'_, 'u>,
    call: &Call,
    init: &'u Init,
    rest: Node<'u>,
    e: &CoreExpr,
    slot: u32,
    made: &'u Init,
) -> Result<Option<Change<'u>>, NoMemory>
    requires tabled { IsTabled here.now.program.now }
    requires temporary { calls.temp_of_expr e.now ≡ Some (slot, made.now) }
    ensures { IfOk result (λ c. after c (local_of here.now) ≡ calls.class_argument (call_of call.now (inits_in rest.entry)) init.now (local_of here.now) (calls.temp_of_expr e.now)) }
{
    argument_object(here, call, rest, slot, made)
}

/// An argument for a class parameter, the value of this expression.
#[tactic(auto, using(crate::proofs::Params::a_temporary))]
fn temporary_argument<'u>(
    here: &Here<'_, 'u>,
    call: &Call,
    init: &'u Init,
    rest: Node<'u>,
    e: &'u CoreExpr,
) -> Result<Option<Change<'u>>, NoMemory>
    requires { IsTabled here.now.program.now }
    ensures { IfOk result (λ c. after c (local_of here.now) ≡ calls.class_argument (call_of call.now (inits_in rest.entry)) init.now (local_of here.now) (calls.temp_of_expr e.now)) }
{
    match e {
        CoreExpr::Temp(slot, made, _) => {
            object_argument(here, call, init, rest, e, slot.0, made.get())
        }
        _ => {
            let change = value_argument(here, call, init, rest)?;
            Ok(Some(change))
        }
    }
}

fn class_argument<'u>(
    here: &Here<'_, 'u>,
    call: &Call,
    init: &'u Init,
    rest: Node<'u>,
) -> Result<Option<Change<'u>>, NoMemory>
    requires { IsTabled here.now.program.now }
    ensures { IfOk result (λ c. after c (local_of here.now) ≡ calls.class_argument (call_of call.now (inits_in rest.entry)) init.now (local_of here.now) (calls.temp_of init.now)) }
{
    match init {
        Init::Value(e) => temporary_argument(here, call, init, rest, e),
        _ => {
            let change = value_argument(here, call, init, rest)?;
            Ok(Some(change))
        }
    }
}

/// The next argument is evaluated, after which those of the node are left. That for a class parameter is an object in a slot of
/// the caller [expr.call].
pub fn argument<'u>(
    here: &Here<'_, 'u>,
    call: &Call,
    init: &'u Init,
    rest: Node<'u>,
) -> Result<Option<Change<'u>>, NoMemory>
    requires { IsTabled here.now.program.now }
    ensures { IfOk result (λ c. after c (local_of here.now) ≡ calls.argument (call_of call.now (inits_in rest.entry)) init.now (local_of here.now)) }
{
    match next_is_object(here, call) {
        Some(true) => class_argument(here, call, init, rest),
        _ => {
            let change = value_argument(here, call, init, rest)?;
            Ok(Some(change))
        }
    }
}

/// The call with one more object, the newest.
fn with_object(alloc: Global, object: u64, call: &Call) -> Result<Call, NoMemory>
    ensures { IfOk result (λ c. (rest : List Init) → call_of c rest ≡ record (call_of call.now rest) { objects = object ∷ call.now.objects }) }
{
    let Call {
        func,
        given,
        objects,
        into,
        at,
    } = copy_call(alloc, call)?;
    let objects = in_front(alloc, object, objects)?;
    Ok(Call {
        func,
        given,
        objects,
        into,
        at,
    })
}

/// The object is live and comes to the call, whose frame is on top, with these below it.
#[tactic(auto, using(crate::proofs::OnTop::argument_beneath))]
fn argument_lives_in<'u>(
    here: &Here<'_, 'u>,
    object: u64,
    call: &Call,
    rest: Node<'u>,
    below: &[Frame<'u>],
) -> Result<Change<'u>, NoMemory>
    requires { (local_of here.now).top.frames ≡ meaning.Calling (call_of call.now (inits_in rest)) ∷ frames_of below.now }
    ensures { IfOk result (λ c. Some (turned_by c (local_of here.now)) ≡ calls.argument_made object (call_of call.now (inits_in rest.entry)) (turn.with_frames (frames_of below.now) (local_of here.now))) }
{
    let call = with_object(here.alloc, object, call)?;
    let frames = here.one(Step::Calling(call), rest)?;
    let place = Place::whole(here.alloc, object);
    Ok(Change {
        taken: 1,
        effect: Effect::Lives(object),
        frames,
        doing: Doing {
            opens: None,
            task: Task::Comes(Outcome::Gives(Given::At(place))),
        },
    })
}

#[tactic(auto, using(crate::proofs::Tops::no_call_step))]
fn argument_lives_at<'u>(
    here: &Here<'_, 'u>,
    object: u64,
    top: &Frame<'u>,
    below: &[Frame<'u>],
) -> Result<Option<Change<'u>>, NoMemory>
    requires { (local_of here.now).top.frames ≡ frame_of top.now ∷ frames_of below.now }
    ensures { IfOk result (λ c. after c (local_of here.now) ≡ calls.argument_lives object (frame_of top.now ∷ frames_of below.now) (local_of here.now)) }
{
    match &top.step {
        Step::Calling(call) => {
            let change = argument_lives_in(here, object, call, top.node, below)?;
            Ok(Some(change))
        }
        _ => Ok(None),
    }
}

/// The object that an argument makes is live, and comes to the call on top [expr.call].
#[tactic(auto, using(crate::proofs::OnTop::seen_on_top, co_eval_reads::proofs::Parts::frames_seen))]
pub fn argument_lives<'u>(here: &Here<'_, 'u>, object: u64) -> Result<Option<Change<'u>>, NoMemory>
    ensures { IfOk result (λ c. after c (local_of here.now) ≡ calls.argument_lives object (local_of here.now).top.frames (local_of here.now)) }
{
    match here.frames {
        [below @ .., top] => argument_lives_at(here, object, top, below),
        [] => Ok(None),
    }
}

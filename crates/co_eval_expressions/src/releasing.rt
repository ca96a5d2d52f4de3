ghost use Rattle.std.specs.Prelude.{◌≡◌, [], ◌∷◌, map, None, Some, IfOk};
ghost use Rattle.co_base.specs.declared.kinds.Undef.TheVariants as undef;
ghost use Rattle.co_core_tree.specs.declared.exprs.CoreExpr.TheVariants as expr;
ghost use Rattle.co_eval_data.specs.Agents.{IsTabled, local_of};
ghost use Rattle.co_eval_data.specs.Changed.{after, turned_by};
ghost use Rattle.co_eval_data.specs.Seen.{frame_with, frames_of, given_of};
ghost use Rattle.co_eval_data.specs.declared.frames.Node.TheVariants as node;
ghost use Rattle.co_meaning.specs.Expressions as spec;
ghost use Rattle.co_meaning_calls.specs.Objects as objects;
ghost use Rattle.co_meaning_data.specs.Frames as frames;
ghost use Rattle.co_meaning_data.specs.Store as store;
ghost use Rattle.co_meaning_data.specs.Turn as turn;
ghost use Rattle.co_meaning_data.specs.Undefined as undefined;

use co_base::{FuncId, NoMemory, Undef};
use co_core_tree::{CoreExpr, DeletePlan};
use co_eval_data::{Change, Effect, Frame, Given, Here, Node, Outcome, Place, Step, Task, with};
use co_eval_parts::call_with;
use co_eval_reads::{counted_alone, is_not_new, object_at, words};
use co_meaning_data::Value;
use sqlite_items::Items;

/// The end of an object in a block is awaited.
#[tactic(auto, using(crate::proofs::Plans::delete_ended))]
fn ended_frame<'u>(
    here: &Here<'_, 'u>,
    e: &'u CoreExpr,
    plan: &DeletePlan,
    object: u64,
    block: u64,
) -> Result<Items<Frame<'u>>, NoMemory>
    requires { e.now ≡ expr.Delete plan.now }
    ensures { IfOk result (λ fs. frames_of fs ≡ frames.DeleteEnded object block plan.now ∷ []) }
{
    here.one(Step::DeleteEnded(object, block), Node::Expr(e))
}

/// The place of an object, as the only argument.
fn object_argument(here: &Here<'_, '_>, object: u64) -> Result<Items<Given>, NoMemory>
    ensures { IfOk result (λ given. map given_of given ≡ frames.At (store.whole object) ∷ []) }
{
    let mut given = Items::new(here.alloc);
    given.push(Given::At(Place::whole(here.alloc, object)))?;
    Ok(given)
}

/// The end of an object in a block is awaited, and what its destructor gives is dropped first.
#[tactic(auto, using(crate::proofs::Plans::delete_ended))]
fn dropping_frames<'u>(
    here: &Here<'_, 'u>,
    e: &'u CoreExpr,
    plan: &DeletePlan,
    object: u64,
    block: u64,
) -> Result<Items<Frame<'u>>, NoMemory>
    requires { e.now ≡ expr.Delete plan.now }
    ensures { IfOk result (λ fs. frames_of fs ≡ frames.Drops ∷ frames.DeleteEnded object block plan.now ∷ []) }
{
    let frames = here.one(Step::DeleteEnded(object, block), Node::Expr(e))?;
    with(frames, Step::Drops, Node::Nothing)
}

/// The frames with one more above them, which has no node.
#[tactic(auto, using(crate::proofs::Wholes::frames_apart))]
fn with_alone<'u>(frames: Items<Frame<'u>>, step: Step) -> Result<Items<Frame<'u>>, NoMemory>
    ensures { IfOk result (λ more. frames_of more ≡ frame_with step node.Nothing ∷ frames_of frames.entry) }
{
    with(frames, step, Node::Nothing)
}

/// The call of the destructor, above the frame that awaits the end of the object.
fn destroying_frames<'u>(
    here: &Here<'_, 'u>,
    e: &'u CoreExpr,
    plan: &DeletePlan,
    func: FuncId,
    object: u64,
    block: u64,
) -> Result<Items<Frame<'u>>, NoMemory>
    requires { e.now ≡ expr.Delete plan.now }
    ensures { IfOk result (λ fs. frames_of fs ≡ objects.call_with func (frames.At (store.whole object) ∷ []) None plan.now.span ∷ frames.Drops ∷ frames.DeleteEnded object block plan.now ∷ []) }
{
    let given = object_argument(here, object)?;
    let frames = dropping_frames(here, e, plan, object, block)?;
    with_alone(frames, call_with(here, func, given, None, plan.span))
}

fn destroys<'u>(
    here: &Here<'_, 'u>,
    e: &'u CoreExpr,
    plan: &DeletePlan,
    func: FuncId,
    object: u64,
    block: u64,
) -> Result<Option<Change<'u>>, NoMemory>
    requires { e.now ≡ expr.Delete plan.now }
    ensures { IfOk result (λ c. after c (local_of here.now) ≡ spec.delete_by object block plan.now (local_of here.now) (Some func)) }
{
    let frames = destroying_frames(here, e, plan, func, object, block)?;
    Ok(Some(here.above(frames, Task::Comes(Outcome::Passes))))
}

fn ends_alone<'u>(
    here: &Here<'_, 'u>,
    e: &'u CoreExpr,
    plan: &DeletePlan,
    object: u64,
    block: u64,
) -> Result<Option<Change<'u>>, NoMemory>
    requires { e.now ≡ expr.Delete plan.now }
    ensures { IfOk result (λ c. after c (local_of here.now) ≡ spec.delete_by object block plan.now (local_of here.now) None) }
{
    let frames = ended_frame(here, e, plan, object, block)?;
    Ok(Some(here.above(frames, Task::Comes(Outcome::Passes))))
}

fn ends_object<'u>(
    here: &Here<'_, 'u>,
    e: &'u CoreExpr,
    plan: &DeletePlan,
    object: u64,
    block: u64,
) -> Result<Option<Change<'u>>, NoMemory>
    requires { e.now ≡ expr.Delete plan.now }
    ensures { IfOk result (λ c. after c (local_of here.now) ≡ spec.delete_by object block plan.now (local_of here.now) plan.now.destroy) }
{
    match plan.destroy {
        Some(func) => destroys(here, e, plan, func, object, block),
        None => ends_alone(here, e, plan, object, block),
    }
}

/// The block that an object was made in.
fn block_of_object(here: &Here<'_, '_>, object: u64) -> Option<u64>
    ensures { result ≡ spec.block_of_object (store.object_at (turn.store (local_of here.now)) object) }
{
    match object_at(here, object) {
        Some(stored) => stored.block,
        None => None,
    }
}

fn deletes_object<'u>(
    here: &Here<'_, 'u>,
    e: &'u CoreExpr,
    plan: &DeletePlan,
    object: u64,
) -> Result<Option<Change<'u>>, NoMemory>
    requires { e.now ≡ expr.Delete plan.now }
    ensures { IfOk result (λ c. after c (local_of here.now) ≡ spec.delete_in object plan.now (local_of here.now) (spec.block_of_object (store.object_at (turn.store (local_of here.now)) object))) }
{
    match block_of_object(here, object) {
        Some(block) => ends_object(here, e, plan, object, block),
        None => Ok(None),
    }
}

fn deletes_at<'u>(
    here: &Here<'_, 'u>,
    e: &'u CoreExpr,
    plan: &DeletePlan,
    pointer: &Value,
) -> Result<Option<Change<'u>>, NoMemory>
    requires { e.now ≡ expr.Delete plan.now }
    ensures { IfOk result (λ c. after c (local_of here.now) ≡ spec.delete_at plan.now pointer.now (local_of here.now)) }
{
    match pointer {
        Value::Pointer(object, _) => deletes_object(here, e, plan, *object),
        _ => Ok(None),
    }
}

fn deletes<'u>(
    here: &Here<'_, 'u>,
    e: &'u CoreExpr,
    plan: &DeletePlan,
    pointer: &Value,
) -> Result<Option<Change<'u>>, NoMemory>
    requires { e.now ≡ expr.Delete plan.now }
    ensures { IfOk result (λ c. after c (local_of here.now) ≡ turn.unless_undefined (record { kind = undef.U11; holds = undefined.is_not_new (turn.store (local_of here.now)) plan.now.of pointer.now } ∷ []) plan.now.span (local_of here.now) (spec.delete_at plan.now pointer.now (local_of here.now))) }
{
    match counted_alone(Undef::U11, is_not_new(here, &plan.of, pointer)) {
        Some(kind) => Ok(Some(here.is_undefined(kind, plan.span))),
        None => deletes_at(here, e, plan, pointer),
    }
}

/// A `delete` of null does nothing. Of anything else but a whole object of this type, made by `new`, it is undefined, and such an
/// object is ended first, by its destructor if it has one [expr.delete].
pub fn delete_of<'u>(
    here: &Here<'_, 'u>,
    e: &'u CoreExpr,
    plan: &DeletePlan,
    pointer: &Value,
) -> Result<Option<Change<'u>>, NoMemory>
    requires { e.now ≡ expr.Delete plan.now }
    ensures { IfOk result (λ c. after c (local_of here.now) ≡ spec.delete_of plan.now pointer.now (local_of here.now)) }
{
    match pointer {
        Value::Null => Ok(Some(here.gives(Given::Nothing))),
        _ => deletes(here, e, plan, pointer),
    }
}

/// The object of a `delete` has ended, and its storage is released [expr.delete].
pub fn delete_ended<'u>(
    here: &Here<'_, 'u>,
    object: u64,
    block: u64,
    plan: &DeletePlan,
) -> Change<'u>
    requires { IsTabled here.now.program.now }
    ensures { Some (turned_by result (local_of here.now)) ≡ spec.delete_ended object block plan.now (local_of here.now) }
{
    let words = words(here, &plan.of);
    let outcome = Outcome::Gives(Given::Nothing);
    let task = Task::Releases(block, words, plan.give, outcome, plan.span);
    here.makes(Effect::Ends(object), Items::new(here.alloc), task)
}

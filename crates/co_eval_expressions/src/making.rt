ghost use Rattle.std.specs.Prelude.{◌≡◌, [], ◌∷◌, ◌*◌, map, None, Some, IfOk};
ghost use Rattle.co_core_tree.specs.Sizes as sizes;
ghost use Rattle.co_core_tree.specs.declared.exprs.CoreExpr.TheVariants as expr;
ghost use Rattle.co_eval_data.specs.Agents.{IsTabled, local_of};
ghost use Rattle.co_eval_data.specs.Changed.{after, turned_by};
ghost use Rattle.co_eval_data.specs.Seen.{frames_of, given_of, outcome_of};
ghost use Rattle.co_meaning.specs.Expressions as spec;
ghost use Rattle.co_meaning_calls.specs.Coroutines as coroutines;
ghost use Rattle.co_meaning_calls.specs.Objects as objects;
ghost use Rattle.co_meaning_data.specs.Frames as frames;
ghost use Rattle.co_meaning_data.specs.Turn as turn;
ghost use Rattle.co_meaning_data.specs.declared.values.Value.TheVariants as value;

use co_base::{FuncId, NoMemory, Undef};
use co_core_tree::{CoreExpr, NewPlan, TakePlan};
use co_eval_data::{Change, Effect, Frame, Given, Here, Node, Outcome, Place, Step, Task, with};
use co_eval_parts::{call_with, raw_object, size_given};
use co_eval_reads::{counted_alone, is_no_room, next_block, next_object, words};
use co_meaning_data::Value;
use sqlite_items::Items;

/// The storage of a `new` is awaited.
#[tactic(auto, using(crate::proofs::Plans::new_taken))]
fn taken_frame<'u>(
    here: &Here<'_, 'u>,
    e: &'u CoreExpr,
    plan: &NewPlan,
) -> Result<Items<Frame<'u>>, NoMemory>
    requires { e.now ≡ expr.New plan.now }
    ensures { IfOk result (λ fs. frames_of fs ≡ frames.NewTaken plan.now ∷ []) }
{
    here.one(Step::NewTaken, Node::Expr(e))
}

/// The global `operator new` is called [new.delete.single].
fn takes_block<'u>(
    here: &Here<'_, 'u>,
    e: &'u CoreExpr,
    plan: &NewPlan,
) -> Result<Option<Change<'u>>, NoMemory>
    requires is_new { e.now ≡ expr.New plan.now }
    requires tabled { IsTabled here.now.program.now }
    ensures { IfOk result (λ c. after c (local_of here.now) ≡ coroutines.take_block (sizes.words (turn.classes (local_of here.now)) plan.now.of) (turn.pushed (frames.NewTaken plan.now) (local_of here.now))) }
{
    let frames = taken_frame(here, e, plan)?;
    let words = words(here, &plan.of);
    let block = Value::Block(next_block(here));
    let task = Task::Comes(Outcome::Gives(Given::Scalar(block)));
    Ok(Some(here.makes(Effect::AddsBlock(words), frames, task)))
}

/// The bytes of so many words, as an argument.
fn size_argument(here: &Here<'_, '_>, words: u64) -> Result<Items<Given>, NoMemory>
    ensures { IfOk result (λ given. map given_of given ≡ coroutines.size_given (8 * words) ∷ []) }
{
    let Some(bytes) = words.checked_mul(8) else {
        return Err(NoMemory);
    };
    let mut given = Items::new(here.alloc);
    given.push(size_given(bytes))?;
    Ok(given)
}

/// The call of a class's `operator new`, above the frame that awaits the storage.
#[tactic(auto, using(crate::proofs::Plans::new_taken))]
fn taking_frames<'u>(
    here: &Here<'_, 'u>,
    e: &'u CoreExpr,
    plan: &NewPlan,
    func: FuncId,
    words: u64,
) -> Result<Items<Frame<'u>>, NoMemory>
    requires { e.now ≡ expr.New plan.now }
    ensures { IfOk result (λ fs. frames_of fs ≡ objects.call_with func (coroutines.size_given (8 * words) ∷ []) None plan.now.span ∷ frames.NewTaken plan.now ∷ []) }
{
    let given = size_argument(here, words)?;
    let frames = here.one(Step::NewTaken, Node::Expr(e))?;
    let call = call_with(here, func, given, None, plan.span);
    with(frames, call, Node::Nothing)
}

fn takes_by<'u>(
    here: &Here<'_, 'u>,
    e: &'u CoreExpr,
    plan: &NewPlan,
    func: FuncId,
) -> Result<Option<Change<'u>>, NoMemory>
    requires is_new { e.now ≡ expr.New plan.now }
    requires tabled { IsTabled here.now.program.now }
    ensures { IfOk result (λ c. after c (local_of here.now) ≡ turn.under (objects.call_with func (coroutines.size_given (8 * sizes.words (turn.classes (local_of here.now)) plan.now.of) ∷ []) None plan.now.span) (frames.Comes frames.Passes) (turn.pushed (frames.NewTaken plan.now) (local_of here.now))) }
{
    let words = words(here, &plan.of);
    let frames = taking_frames(here, e, plan, func, words)?;
    Ok(Some(here.above(frames, Task::Comes(Outcome::Passes))))
}

/// The storage of a `new` expression is taken first [expr.new].
pub(crate) fn enter_new<'u>(
    here: &Here<'_, 'u>,
    e: &'u CoreExpr,
    plan: &NewPlan,
) -> Result<Option<Change<'u>>, NoMemory>
    requires is_new { e.now ≡ expr.New plan.now }
    requires tabled { IsTabled here.now.program.now }
    ensures { IfOk result (λ c. after c (local_of here.now) ≡ spec.takes plan.now.take plan.now (turn.pushed (frames.NewTaken plan.now) (local_of here.now))) }
{
    match plan.take {
        TakePlan::Global => takes_block(here, e, plan),
        TakePlan::Own(func) => takes_by(here, e, plan, func),
        TakePlan::OwnWith(_) => Ok(None),
    }
}

/// The initialization of an object in a block is awaited.
#[tactic(auto, using(crate::proofs::Plans::new_made))]
fn made_frame<'u>(
    here: &Here<'_, 'u>,
    e: &'u CoreExpr,
    plan: &NewPlan,
    object: u64,
    block: u64,
) -> Result<Items<Frame<'u>>, NoMemory>
    requires { e.now ≡ expr.New plan.now }
    ensures { IfOk result (λ fs. frames_of fs ≡ frames.NewMade object block plan.now ∷ []) }
{
    here.one(Step::NewMade(object, block), Node::Expr(e))
}

fn makes_in<'u>(
    here: &Here<'_, 'u>,
    e: &'u CoreExpr,
    plan: &'u NewPlan,
    block: u64,
) -> Result<Option<Change<'u>>, NoMemory>
    requires is_new { e.now ≡ expr.New plan.now }
    requires tabled { IsTabled here.now.program.now }
    ensures { IfOk result (λ c. after c (local_of here.now) ≡ spec.new_at plan.now (value.Block block) (local_of here.now)) }
{
    let object = next_object(here);
    let stored = raw_object(here, &plan.of, Some(block), None)?;
    let frames = made_frame(here, e, plan, object, block)?;
    let place = Place::whole(here.alloc, object);
    let task = Task::Initialize(&plan.init, Some(place));
    Ok(Some(here.makes(Effect::AddsIn(block, stored), frames, task)))
}

fn makes_at<'u>(
    here: &Here<'_, 'u>,
    e: &'u CoreExpr,
    plan: &'u NewPlan,
    storage: &Value,
) -> Result<Option<Change<'u>>, NoMemory>
    requires is_new { e.now ≡ expr.New plan.now }
    requires tabled { IsTabled here.now.program.now }
    ensures { IfOk result (λ c. after c (local_of here.now) ≡ spec.new_at plan.now storage.now (local_of here.now)) }
{
    match storage {
        Value::Block(block) => makes_in(here, e, plan, *block),
        _ => Ok(None),
    }
}

/// The object is made in the storage, which is undefined where that has no room for it [basic.stc.dynamic].
fn makes_if_room<'u>(
    here: &Here<'_, 'u>,
    e: &'u CoreExpr,
    plan: &'u NewPlan,
    storage: &Value,
) -> Result<Option<Change<'u>>, NoMemory>
    requires is_new { e.now ≡ expr.New plan.now }
    requires tabled { IsTabled here.now.program.now }
    ensures { IfOk result (λ c. after c (local_of here.now) ≡ spec.new_in plan.now storage.now (local_of here.now)) }
{
    let words = words(here, &plan.of);
    match counted_alone(Undef::U10, is_no_room(here, words, storage)) {
        Some(kind) => Ok(Some(here.is_undefined(kind, plan.span))),
        None => makes_at(here, e, plan, storage),
    }
}

/// The object of a `new` is made in the storage that was taken; a null that the allocation may give ends the `new` [expr.new].
pub fn new_taken<'u>(
    here: &Here<'_, 'u>,
    e: &'u CoreExpr,
    plan: &'u NewPlan,
    storage: &Value,
) -> Result<Option<Change<'u>>, NoMemory>
    requires is_new { e.now ≡ expr.New plan.now }
    requires tabled { IsTabled here.now.program.now }
    ensures { IfOk result (λ c. after c (local_of here.now) ≡ spec.new_taken plan.now storage.now (local_of here.now)) }
{
    match storage {
        Value::Null => {
            if plan.may_be_null {
                Ok(Some(here.gives(Given::Scalar(Value::Null))))
            } else {
                makes_if_room(here, e, plan, storage)
            }
        }
        _ => makes_if_room(here, e, plan, storage),
    }
}

/// The object of a `new` is live, and a pointer to it is given [expr.new].
pub fn new_made<'u>(here: &Here<'_, 'u>, object: u64) -> Change<'u>
    ensures { Some (turned_by result (local_of here.now)) ≡ spec.new_made object (local_of here.now) }
{
    let pointer = Value::Pointer(object, Items::new(here.alloc));
    let task = Task::Comes(Outcome::Gives(Given::Scalar(pointer)));
    here.makes(Effect::Lives(object), Items::new(here.alloc), task)
}

/// An exception out of the initialization of the object of a `new` releases the storage and goes on [expr.new].
pub fn new_left<'u>(
    here: &Here<'_, 'u>,
    object: u64,
    block: u64,
    plan: &NewPlan,
    outcome: Outcome,
) -> Change<'u>
    requires { IsTabled here.now.program.now }
    ensures { Some (turned_by result (local_of here.now)) ≡ spec.new_left object block plan.now (outcome_of outcome) (local_of here.now) }
{
    let words = words(here, &plan.of);
    let task = Task::Releases(block, words, plan.give, outcome, plan.span);
    here.makes(Effect::Ends(object), Items::new(here.alloc), task)
}

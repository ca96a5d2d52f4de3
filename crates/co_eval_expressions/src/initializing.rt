ghost use Rattle.std.specs.Prelude.{◌≡◌, true, [], ◌∷◌, None, Some, IfOk};
ghost use Rattle.std.specs.Option.{option_copied};
ghost use Rattle.co_eval_data.specs.Agents.{IsTabled, local_of};
ghost use Rattle.co_eval_data.specs.Changed.{after};
ghost use Rattle.co_eval_data.specs.Seen.{choose_one, place_if, place_of};
ghost use Rattle.co_meaning.specs.Expressions as spec;
ghost use Rattle.co_meaning_data.specs.Frames as frames;
ghost use Rattle.co_meaning_data.specs.Store as store;
ghost use Rattle.co_meaning_data.specs.Turn as turn;
ghost use Rattle.co_meaning_data.specs.declared.values.Cell.TheVariants as cell;
ghost use Rattle.co_meaning_data.specs.declared.values.Value.TheVariants as value;

use crate::spans::span_of;
use co_base::{FuncId, NoMemory, Span};
use co_core_tree::{CoreExpr, Init};
use co_eval_data::{Call, Change, Given, Here, Node, Outcome, Place, Step, Task, with};
use co_eval_parts::fills_part;
use co_eval_reads::type_at;
use co_meaning_data::{Cell, Value};
use co_types::{CoType, Head};
use sqlite_items::Items;

/// Whether an object of this type has no members, and a value of its own: it is an awaiter of the library [coroutine.trivial.awaitables].
fn is_empty_type(of: Option<&CoType>) -> bool
    ensures { result ≡ spec.is_empty_type (option_copied of.entry) }
{
    match of {
        Some(of) => match of.head() {
            Head::SuspendAlways | Head::SuspendNever => true,
            _ => false,
        },
        None => false,
    }
}

/// An object is made by a constructor, the first of whose arguments is its place [class.init].
fn constructs<'u>(
    here: &Here<'_, 'u>,
    func: FuncId,
    args: &'u Items<Init>,
    place: &Place,
) -> Result<Option<Change<'u>>, NoMemory>
    ensures { IfOk result (λ c. after c (local_of here.now) ≡ turn.under (frames.Calling (record { func = func; given = frames.At (place_of place.now) ∷ []; objects = []; rest = args.now; into = None; at = turn.nowhere })) (frames.Comes frames.Passes) (turn.pushed frames.Drops (local_of here.now))) }
{
    let mut given = Items::new(here.alloc);
    given.push(Given::At(place.copy(here.alloc)?))?;
    let call = Call {
        func,
        given,
        objects: Items::new(here.alloc),
        into: None,
        at: Span { line: 0, col: 0 },
    };
    let drops = here.one(Step::Drops, Node::Nothing)?;
    let frames = with(drops, Step::Calling(call), Node::Inits(args, 0))?;
    Ok(Some(here.above(frames, Task::Comes(Outcome::Passes))))
}

/// An awaiter of the library gets its value.
fn makes_empty<'u>(here: &Here<'_, 'u>, place: &Place) -> Result<Option<Change<'u>>, NoMemory>
    ensures { IfOk result (λ c. after c (local_of here.now) ≡ turn.goes (frames.Writes true (place_of place.now) 0 (value.Empty ∷ []) frames.Passes turn.nowhere) (local_of here.now)) }
{
    let mut values = Items::new(here.alloc);
    values.push(Value::Empty)?;
    let at = Span { line: 0, col: 0 };
    let place = place.copy(here.alloc)?;
    let task = Task::Writes(true, place, 0, values, Outcome::Passes, at);
    Ok(Some(here.goes(task)))
}

/// An object is made member by member [dcl.init.aggr].
fn builds<'u>(
    here: &Here<'_, 'u>,
    members: &'u Items<Init>,
    place: &Place,
) -> Result<Option<Change<'u>>, NoMemory>
    ensures { IfOk result (λ c. after c (local_of here.now) ≡ turn.under (frames.Building (place_of place.now) 0 members.now) (frames.Comes frames.Passes) (local_of here.now)) }
{
    let building = Step::Building(place.copy(here.alloc)?, 0);
    let task = Task::Comes(Outcome::Passes);
    Ok(Some(here.under(building, Node::Inits(members, 0), task)?))
}

fn makes_members<'u>(
    here: &Here<'_, 'u>,
    members: &'u Items<Init>,
    place: &Place,
) -> Result<Option<Change<'u>>, NoMemory>
    ensures { IfOk result (λ c. after c (local_of here.now) ≡ spec.members (place_of place.now) members.now (local_of here.now)) }
{
    if is_empty_type(type_at(here, place)) {
        makes_empty(here, place)
    } else {
        builds(here, members, place)
    }
}

/// A scalar or a reference gets what an expression gives.
fn takes_value<'u>(
    here: &Here<'_, 'u>,
    e: &'u CoreExpr,
    place: &Place,
) -> Result<Option<Change<'u>>, NoMemory>
    ensures { IfOk result (λ c. after c (local_of here.now) ≡ turn.under (frames.ValueInto (place_of place.now) (spec.span_of e.now)) (frames.Evaluate e.now None) (local_of here.now)) }
{
    let step = Step::ValueInto(place.copy(here.alloc)?, span_of(e));
    let task = Task::Evaluate(e, None);
    Ok(Some(here.under(step, Node::Nothing, task)?))
}

/// The object is made by a call or an await, at its own place [class.copy.elision].
fn takes_result<'u>(
    here: &Here<'_, 'u>,
    e: &'u CoreExpr,
    place: &Place,
) -> Result<Option<Change<'u>>, NoMemory>
    ensures { IfOk result (λ c. after c (local_of here.now) ≡ turn.under frames.ResultInto (frames.Evaluate e.now (Some (place_of place.now))) (local_of here.now)) }
{
    let task = Task::Evaluate(e, Some(place.copy(here.alloc)?));
    Ok(Some(here.under(Step::ResultInto, Node::Nothing, task)?))
}

/// A scalar stays indeterminate [dcl.init].
fn stays_indeterminate<'u>(
    here: &Here<'_, 'u>,
    place: &Place,
) -> Result<Option<Change<'u>>, NoMemory>
    requires { IsTabled here.now.program.now }
    ensures { IfOk result (λ c. after c (local_of here.now) ≡ turn.passes (turn.with_store (store.set_part (turn.classes (local_of here.now)) (place_of place.now) cell.Indeterminate (turn.store (local_of here.now))) (local_of here.now))) }
{
    let effect = fills_part(here, place, Cell::Indeterminate)?;
    let task = Task::Comes(Outcome::Passes);
    Ok(Some(here.makes(effect, Items::new(here.alloc), task)))
}

/// The condition of a `?:` is evaluated first.
fn chooses_after<'u>(
    here: &Here<'_, 'u>,
    init: &'u Init,
    condition: &'u CoreExpr,
    into: Option<Place>,
) -> Result<Option<Change<'u>>, NoMemory>
    ensures { IfOk result (λ c. after c (local_of here.now) ≡ turn.under (choose_one (place_if into) (Some init.now)) (frames.Evaluate condition.now None) (local_of here.now)) }
{
    let task = Task::Evaluate(condition, None);
    Ok(Some(here.under(Step::ChooseOne(into), Node::Init(init), task)?))
}

fn chooses_at<'u>(
    here: &Here<'_, 'u>,
    init: &'u Init,
    condition: &'u CoreExpr,
    place: &Place,
) -> Result<Option<Change<'u>>, NoMemory>
    ensures { IfOk result (λ c. after c (local_of here.now) ≡ turn.under (choose_one (Some (place_of place.now)) (Some init.now)) (frames.Evaluate condition.now None) (local_of here.now)) }
{
    let step = Step::ChooseOne(Some(place.copy(here.alloc)?));
    let task = Task::Evaluate(condition, None);
    Ok(Some(here.under(step, Node::Init(init), task)?))
}

/// An object is made at a place.
#[tactic(auto, using(crate::proofs::Inits::initialized, co_eval_data::proofs::Opening::choose_one))]
fn initialize_at<'u>(
    here: &Here<'_, 'u>,
    init: &'u Init,
    place: &Place,
) -> Result<Option<Change<'u>>, NoMemory>
    requires { IsTabled here.now.program.now }
    ensures { IfOk result (λ c. after c (local_of here.now) ≡ spec.initialize init.now (Some (place_of place.now)) (local_of here.now)) }
{
    match init {
        Init::Ctor(func, args) => constructs(here, *func, args, place),
        Init::Members(members) => makes_members(here, members, place),
        Init::Value(e) => takes_value(here, e, place),
        Init::Result(e) => takes_result(here, e, place),
        Init::Raw => stays_indeterminate(here, place),
        Init::Choose(condition, _, _) => chooses_at(here, init, condition, place),
    }
}

/// A value is given.
#[tactic(auto, using(crate::proofs::Inits::initialized, co_eval_data::proofs::Opening::choose_one))]
fn initialize_value<'u>(here: &Here<'_, 'u>, init: &'u Init) -> Result<Option<Change<'u>>, NoMemory>
    ensures { IfOk result (λ c. after c (local_of here.now) ≡ spec.initialize init.now None (local_of here.now)) }
{
    match init {
        Init::Members(_) => Ok(Some(here.gives(Given::Scalar(Value::Empty)))),
        Init::Value(e) | Init::Result(e) => Ok(Some(here.goes(Task::Evaluate(e, None)))),
        Init::Choose(condition, _, _) => chooses_after(here, init, condition, None),
        Init::Ctor(..) | Init::Raw => Ok(None),
    }
}

/// An object at a place is made, or without a place a value is given [dcl.init].
pub fn initialize<'u>(
    here: &Here<'_, 'u>,
    init: &'u Init,
    into: &Option<Place>,
) -> Result<Option<Change<'u>>, NoMemory>
    requires { IsTabled here.now.program.now }
    ensures { IfOk result (λ c. after c (local_of here.now) ≡ spec.initialize init.now (place_if into.now) (local_of here.now)) }
{
    match into {
        Some(place) => initialize_at(here, init, place),
        None => initialize_value(here, init),
    }
}

ghost use Rattle.std.specs.Prelude.{◌≡◌, [], None, Some, IfOk};
ghost use Rattle.co_meaning.specs.Expressions as spec;
ghost use Rattle.co_meaning_data.specs.Frames as frames;
ghost use Rattle.co_meaning_data.specs.Turn as turn;
ghost use Rattle.co_eval_data.specs.Agents.{IsTabled, local_of};
ghost use Rattle.co_eval_data.specs.Changed.{after};
ghost use Rattle.co_eval_data.specs.Seen.{frame_with, operands, place_if};

use crate::calls::{enter_await, enter_call};
use crate::making::enter_new;
use crate::places::{enter_slot, enter_whole};
use crate::temporaries::make_temporary;
use crate::throwing::{parts_of_thrown, rethrow};
use co_base::NoMemory;
use co_core_tree::CoreExpr;
use co_eval_data::{Change, Given, Here, Node, Outcome, Place, Step, Task};
use co_eval_reads::newest;
use co_meaning_data::Value;
use sqlite_items::Items;

/// A part of an expression is evaluated first, under a frame that goes on with the expression.
fn first<'u>(
    here: &Here<'_, 'u>,
    e: &'u CoreExpr,
    into: &Option<Place>,
    step: Step,
    node: Node<'u>,
    part: &'u CoreExpr,
) -> Result<Option<Change<'u>>, NoMemory>
    requires { (l : turn.Local) → spec.evaluate e.now (place_if into.now) l ≡ turn.under (frame_with step node) (frames.Evaluate part.now None) l }
    ensures { IfOk result (λ c. after c (local_of here.now) ≡ spec.evaluate e.now (place_if into.now) (local_of here.now)) }
{
    let task = Task::Evaluate(part, None);
    let change = here.under(step, node, task)?;
    Ok(Some(change))
}

/// The operands are evaluated first, under a frame that goes on with them.
fn operands_first<'u>(
    here: &Here<'_, 'u>,
    e: &'u CoreExpr,
    into: &Option<Place>,
) -> Result<Option<Change<'u>>, NoMemory>
    requires { (l : turn.Local) → spec.evaluate e.now (place_if into.now) l ≡ turn.under (operands [] (Some e.now)) (frames.Comes frames.Passes) l }
    ensures { IfOk result (λ c. after c (local_of here.now) ≡ spec.evaluate e.now (place_if into.now) (local_of here.now)) }
{
    let step = Step::Operands(Items::new(here.alloc));
    let task = Task::Comes(Outcome::Passes);
    Ok(Some(here.under(step, Node::Expr(e), task)?))
}

/// The newest exception that is handled is given as a `std::exception_ptr` [propagation].
fn enter_current<'u>(here: &Here<'_, 'u>) -> Result<Option<Change<'u>>, NoMemory>
    ensures { IfOk result (λ c. after c (local_of here.now) ≡ turn.gives (frames.Parts (spec.parts_of_thrown (spec.newest (local_of here.now).handled))) (local_of here.now)) }
{
    let parts = parts_of_thrown(here.alloc, newest(here))?;
    Ok(Some(here.gives(Given::Parts(parts))))
}

/// What is done first with an expression: its first part is evaluated [expr].
#[tactic(auto, using(crate::proofs::Forms::entered, co_eval_data::proofs::Opening::opened))]
pub fn enter<'u>(
    here: &Here<'_, 'u>,
    e: &'u CoreExpr,
    into: &Option<Place>,
) -> Result<Option<Change<'u>>, NoMemory>
    requires { IsTabled here.now.program.now }
    ensures { IfOk result (λ c. after c (local_of here.now) ≡ spec.evaluate e.now (place_if into.now) (local_of here.now)) }
{
    match e {
        CoreExpr::Const(num, value, _) => {
            Ok(Some(here.gives(Given::Scalar(Value::Number(*num, *value)))))
        }
        CoreExpr::Null(_) => Ok(Some(here.gives(Given::Scalar(Value::Null)))),
        CoreExpr::Global(global, _) => {
            let place = Place::whole(here.alloc, *global as u64);
            Ok(Some(here.gives(Given::At(place))))
        }
        CoreExpr::Slot(slot, _) => Ok(enter_slot(here, slot.0)),
        CoreExpr::Whole(inner, _) => enter_whole(here, *inner),
        CoreExpr::Field(of, field, _) => first(
            here,
            e,
            into,
            Step::FieldOf(*field),
            Node::Nothing,
            of.get(),
        ),
        CoreExpr::Deref(of, at) => first(
            here,
            e,
            into,
            Step::Referent(*at),
            Node::Nothing,
            of.get(),
        ),
        CoreExpr::Address(of, _) => first(here, e, into, Step::AddressOf, Node::Nothing, of.get()),
        CoreExpr::Load(of, at) => first(
            here,
            e,
            into,
            Step::LoadFrom(*at),
            Node::Nothing,
            of.get(),
        ),
        CoreExpr::Store(_, value, _) => first(
            here,
            e,
            into,
            Step::StoreValue,
            Node::Expr(e),
            value.get(),
        ),
        CoreExpr::Exchange(place, _, _) => first(
            here,
            e,
            into,
            Step::ExchangePlace,
            Node::Expr(e),
            place.get(),
        ),
        CoreExpr::Update(_, _, _, value, _, _) => first(
            here,
            e,
            into,
            Step::UpdateValue,
            Node::Expr(e),
            value.get(),
        ),
        CoreExpr::Arith(_, _, left, _, _) => first(
            here,
            e,
            into,
            Step::ArithRight,
            Node::Expr(e),
            left.get(),
        ),
        CoreExpr::Convert(num, of, _) => first(
            here,
            e,
            into,
            Step::ConvertTo(*num),
            Node::Nothing,
            of.get(),
        ),
        CoreExpr::Test(of, _) => first(here, e, into, Step::TestOf, Node::Nothing, of.get()),
        CoreExpr::Same(left, _, _) => first(
            here,
            e,
            into,
            Step::SameRight,
            Node::Expr(e),
            left.get(),
        ),
        CoreExpr::Both(left, _, _) => first(
            here,
            e,
            into,
            Step::BothRight,
            Node::Expr(e),
            left.get(),
        ),
        CoreExpr::Either(left, _, _) => first(
            here,
            e,
            into,
            Step::EitherRight,
            Node::Expr(e),
            left.get(),
        ),
        CoreExpr::Pick(condition, _, _, _) => first(
            here,
            e,
            into,
            Step::PickOne,
            Node::Expr(e),
            condition.get(),
        ),
        CoreExpr::Throw(_, of, _) => first(here, e, into, Step::ThrowOf, Node::Expr(e), of.get()),
        CoreExpr::RethrowPtr(of, at) => first(
            here,
            e,
            into,
            Step::RethrowOf(*at),
            Node::Nothing,
            of.get(),
        ),
        CoreExpr::Call(func, args, at) => enter_call(here, *func, args, into, *at),
        CoreExpr::Await(plan) => enter_await(here, plan.get(), into),
        CoreExpr::Delete(plan) => first(
            here,
            e,
            into,
            Step::DeleteOf,
            Node::Expr(e),
            &plan.get().pointer,
        ),
        CoreExpr::Temp(slot, init, _) => make_temporary(here, slot.0, init.get()),
        CoreExpr::Rethrow(_) => Ok(Some(rethrow(here))),
        CoreExpr::Terminate(_) => Ok(Some(here.is_uncaught(newest(here)))),
        CoreExpr::Current(_) => enter_current(here),
        CoreExpr::Handle(..) => operands_first(here, e, into),
        CoreExpr::Atomic(..) => operands_first(here, e, into),
        CoreExpr::Lib(..) => operands_first(here, e, into),
        CoreExpr::New(plan) => enter_new(here, e, plan.get()),
    }
}

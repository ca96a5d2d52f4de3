ghost use Rattle.std.specs.Prelude.{◌≡◌, ◌∷◌, [], Some, None, MatchOption, IfOk, slice_get};
ghost use Rattle.co_eval_data.specs.Agents.{IsTabled, local_of};
ghost use Rattle.co_eval_data.specs.Changed.{after};
ghost use Rattle.co_eval_data.specs.Seen.{frame_with, going_of, outcome_of};
ghost use Rattle.co_eval_data.specs.declared.frames.Node.TheVariants as node;
ghost use Rattle.co_eval_data.specs.declared.frames.Step.TheVariants as step;
ghost use Rattle.co_meaning.specs.Statements as statements;
ghost use Rattle.co_meaning.specs.Step as meaning;
ghost use Rattle.co_meaning_calls.specs.Objects as objects;
ghost use Rattle.co_meaning_data.specs.Frames as frames;
ghost use Rattle.co_meaning_data.specs.Turn as turn;

use crate::caught::thrown_values;
use co_base::{CatchOf, NoMemory, Span, Thrown};
use co_core_tree::Handler;
use co_eval_data::{
    Alive, Change, Effect, Frame, Going, Here, Node, Outcome, Place, Step, Task, with,
};
use co_eval_nodes::handlers_in;
use co_eval_parts::{copy_going, copy_outcome, raw_object};
use co_eval_reads::{counted_in, next_object, type_of_slot};
use co_types::CoType;
use sqlite_items::Items;

/// Whether a handler catches a value: one of exactly its type, or each [except.handle].
fn is_caught(of: CatchOf, value: Thrown) -> bool
    ensures { result ≡ statements.catches of value }
{
    match (of, value) {
        (CatchOf::Any, _) => true,
        (CatchOf::Int, Thrown::Int(_)) => true,
        (CatchOf::Long, Thrown::Long(_)) => true,
        (CatchOf::Bool, Thrown::Bool(_)) => true,
        (CatchOf::Class(a), Thrown::Class(b, _, _, _)) => a.0 == b.0,
        _ => false,
    }
}

/// The number of the first handler that catches a value.
#[tactic(auto, using(crate::proofs::Found::none_caught, crate::proofs::Found::is_first, crate::proofs::Found::is_other))]
fn first_handler(value: Thrown, handlers: &[Handler]) -> Option<usize>
    ensures { MatchOption result (statements.first_handler value handlers.now ≡ None) (λ at. statements.first_handler value handlers.now ≡ slice_get handlers.now at) }
{
    let mut at = 0;
    while at < handlers.len() {
        if is_caught(handlers[at].of, value) {
            return Some(at);
        }
        at += 1;
    }
    None
}

fn leaves<'u>(here: &Here<'_, 'u>, going: &Going) -> Result<Option<Change<'u>>, NoMemory>
    ensures { IfOk result (λ c. after c (local_of here.now) ≡ turn.leaves (going_of going.now) (local_of here.now)) }
{
    let going = copy_going(here.alloc, going)?;
    Ok(Some(here.leaves(going)))
}

/// The frames of the handler of a number, whose exception is handled: its body is the last of them.
fn handling<'u>(
    here: &Here<'_, 'u>,
    handlers: &'u Items<Handler>,
    at: usize,
) -> Result<Items<Frame<'u>>, NoMemory>
    ensures { IfOk result (λ fs. fs ≡ record { step = step.Handled; node = node.Nothing } ∷ record { step = step.Scope []; node = node.Handler handlers.entry at } ∷ []) }
{
    let frames = here.one(Step::Handled, Node::Nothing)?;
    let scope = Step::Scope(Items::new(here.alloc));
    with(frames, scope, Node::Handler(handlers, at))
}

/// A handler that was found: the list that it stands in, its number there, and it itself.
#[derive(Clone, Copy)]
struct Found<'u> {
    handlers: &'u Items<Handler>,
    at: usize,
    handler: &'u Handler,
}

fn without_variable<'u>(
    here: &Here<'_, 'u>,
    found: Found<'u>,
    value: Thrown,
) -> Result<Change<'u>, NoMemory>
    requires { slice_get found.handlers.now found.at ≡ Some found.handler.now }
    ensures { IfOk result (λ c. after (Some c) (local_of here.now) ≡ turn.passes (turn.pushed (frames.Scope [] (found.entry.handler.now.body ∷ [])) (turn.pushed frames.Handled (record (local_of here.now) { handled = value ∷ (local_of here.now).handled })))) }
{
    let frames = handling(here, found.handlers, found.at)?;
    Ok(here.makes(Effect::Handles(value), frames, Task::Comes(Outcome::Passes)))
}

/// The variable of a handler is made of the value that it catches [except.handle].
fn with_variable<'u>(
    here: &Here<'_, 'u>,
    found: Found<'u>,
    value: Thrown,
    slot: u32,
    of: &'u CoType,
) -> Result<Change<'u>, NoMemory>
    requires table { IsTabled here.now.program.now }
    requires found { slice_get found.handlers.now found.at ≡ Some found.handler.now }
    ensures { IfOk result (λ c. after (Some c) (local_of here.now) ≡ statements.catch_into slot value (turn.pushed (frames.Scope [] (found.entry.handler.now.body ∷ [])) (turn.pushed frames.Handled (record (local_of here.now) { handled = value ∷ (local_of here.now).handled }))) (Some of.now)) }
{
    let coroutine = counted_in(here, of);
    let object = next_object(here);
    let raw = raw_object(here, of, None, coroutine)?;
    let values = thrown_values(here, of, value)?;
    let variable = Step::Declares(Alive { object, coroutine });
    let frames = with(
        handling(here, found.handlers, found.at)?,
        variable,
        Node::Nothing,
    )?;
    let place = Place::whole(here.alloc, object);
    let nowhere = Span { line: 0, col: 0 };
    let task = Task::Writes(true, place, 0, values, Outcome::Passes, nowhere);
    Ok(here.makes(Effect::Catches(value, slot, raw), frames, task))
}

fn with_slot<'u>(
    here: &Here<'_, 'u>,
    found: Found<'u>,
    value: Thrown,
    slot: u32,
) -> Result<Option<Change<'u>>, NoMemory>
    requires table { IsTabled here.now.program.now }
    requires found { slice_get found.handlers.now found.at ≡ Some found.handler.now }
    ensures { IfOk result (λ c. after c (local_of here.now) ≡ statements.catch_into slot value (turn.pushed (frames.Scope [] (found.entry.handler.now.body ∷ [])) (turn.pushed frames.Handled (record (local_of here.now) { handled = value ∷ (local_of here.now).handled }))) (objects.type_of_slot (local_of here.now) slot)) }
{
    match type_of_slot(here, slot) {
        Some(of) => Ok(Some(with_variable(here, found, value, slot, of)?)),
        None => Ok(None),
    }
}

/// A handler is entered; its exception is the newest handled one from now on [except.handle].
fn enter_handler<'u>(
    here: &Here<'_, 'u>,
    found: Found<'u>,
    value: Thrown,
) -> Result<Option<Change<'u>>, NoMemory>
    requires table { IsTabled here.now.program.now }
    requires found { slice_get found.handlers.now found.at ≡ Some found.handler.now }
    ensures { IfOk result (λ c. after c (local_of here.now) ≡ statements.enter_handler found.entry.handler.now value (local_of here.now)) }
{
    match found.handler.slot {
        Some(slot) => with_slot(here, found, value, slot.0),
        None => Ok(Some(without_variable(here, found, value)?)),
    }
}

/// An exception comes to handlers: the first that fits catches it [except.handle].
fn caught<'u>(
    here: &Here<'_, 'u>,
    handlers: &'u Items<Handler>,
    value: Thrown,
) -> Result<Option<Change<'u>>, NoMemory>
    requires { IsTabled here.now.program.now }
    ensures { IfOk result (λ c. after c (local_of here.now) ≡ statements.caught_by value (local_of here.now) (statements.first_handler value handlers.now)) }
{
    let Some(at) = first_handler(value, handlers.as_slice()) else {
        return Ok(Some(here.leaves(Going::Throwing(value))));
    };
    match handlers.get(at) {
        Some(handler) => enter_handler(
            here,
            Found {
                handlers,
                at,
                handler,
            },
            value,
        ),
        None => Ok(Some(here.leaves(Going::Throwing(value)))),
    }
}

fn left<'u>(
    here: &Here<'_, 'u>,
    handlers: &'u Items<Handler>,
    going: &Going,
) -> Result<Option<Change<'u>>, NoMemory>
    requires { IsTabled here.now.program.now }
    ensures { IfOk result (λ c. after c (local_of here.now) ≡ statements.try_left handlers.now (going_of going.now) (local_of here.now)) }
{
    match going {
        Going::Throwing(value) => caught(here, handlers, *value),
        Going::Breaking
        | Going::Continuing
        | Going::Returning(_)
        | Going::Leaving
        | Going::Destroying => leaves(here, going),
    }
}

/// What stands in a `try` is left [except.handle].
pub fn leave_try<'u>(
    here: &Here<'_, 'u>,
    node: &Node<'u>,
    going: &Going,
) -> Result<Option<Change<'u>>, NoMemory>
    requires { IsTabled here.now.program.now }
    ensures { IfOk result (λ c. after c (local_of here.now) ≡ meaning.leave (frame_with step.Tries node.now) (going_of going.now) (local_of here.now)) }
{
    match handlers_in(node) {
        Some(handlers) => left(here, handlers, going),
        None => leaves(here, going),
    }
}

/// A handler is left, and its exception is handled no more [except.handle].
pub fn handled<'u>(here: &Here<'_, 'u>, outcome: &Outcome) -> Result<Change<'u>, NoMemory>
    ensures { IfOk result (λ c. after (Some c) (local_of here.now) ≡ statements.handler_left (outcome_of outcome.now) (local_of here.now)) }
{
    let outcome = copy_outcome(here.alloc, outcome)?;
    Ok(here.makes(
        Effect::HandlesNoMore,
        Items::new(here.alloc),
        Task::Comes(outcome),
    ))
}

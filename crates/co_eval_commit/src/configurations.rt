ghost use Rattle.std.specs.Prelude.{◌≡◌, ◌+◌, ◌<◌, ◌∷◌, ◌++◌, [], List, if◌then◌else◌, slice_get, Some, MatchResult, OnOk};
ghost use Rattle.std.specs.Option.{option_to_list};
ghost use Rattle.std.specs.Vec.{vec_len, vec_capacity};
ghost use Rattle.co_eval_data.specs.Agents.{activations_of, agent_of, config_of, doing_of, program_of};
ghost use Rattle.co_eval_data.specs.Changed as changed;
ghost use Rattle.co_eval_data.specs.Seen.{frames_of};
ghost use Rattle.co_eval_data.specs.declared.agents.Agent.{Agent as SeenAgent};
ghost use Rattle.co_eval_data.specs.declared.here.Program.{Program as SeenProgram};
ghost use Rattle.co_meaning.specs.Runs as runs;
ghost use Rattle.co_meaning_data.specs.Frames as meaning;
ghost use Rattle.co_meaning_data.specs.Turn.{Local};
ghost use Rattle.co_eval_commit.specs.InPlace.{event_of, local_at, noted, rests_after, sees_all};
ghost use Rattle.co_eval_commit.specs.Turned.{IsLeft, IsSame, IsTurned, left_by};

use crate::effects::make;
use crate::frames::leave_on_top;
use co_base::{NoMemory, Thrown};
use co_eval_data::{Activation, Agent, Change, Configuration, Doing, Effect, Frame, Shared};
use co_meaning_data::Event;
use sqlite_items::Items;
use std::alloc::Global;

/// Makes the change of a step of the agent of a number, for which so many frames were taken away from its newest activation before
/// it was decided. Where memory runs out, nothing has changed. The agent is there and has an activation; of another nothing is
/// said.
pub fn commit<'u>(
    alloc: Global,
    config: &mut Configuration<'u>,
    worker: u32,
    popped: usize,
    change: Change<'u>,
) -> Result<(), NoMemory>
    ensures { (program : SeenProgram) (agent : SeenAgent) (top : meaning.Activation) (below : List meaning.Activation) → slice_get config.old.agents.items worker ≡ Some agent → activations_of agent.activations.items ≡ top ∷ below → MatchResult result (λ _. runs.after_turn worker (config_of config.old) (Some (changed.turned_by change.entry (changed.dropped popped (runs.local_of (program_of program) worker (config_of config.old) (agent_of agent) top below)))) ≡ Some (config_of config.new)) (λ _. config_of config.new ≡ config_of config.old) }
{
    let Some(agent) = config.agents.get_mut(worker as usize) else {
        return Ok(());
    };
    let made = commit_to(
        alloc,
        worker,
        &mut config.shared,
        agent,
        &mut config.events,
        popped,
        change,
    );
    match made {
        Ok(()) => Ok(()),
        Err(_) => Err(NoMemory),
    }
}

/// The same, on what all agents share, the agent and the events.
fn commit_to<'u>(
    alloc: Global,
    worker: u32,
    shared: &mut Shared<'u>,
    agent: &mut Agent<'u>,
    events: &mut Vec<Event>,
    popped: usize,
    change: Change<'u>,
) -> Result<(), NoMemory>
    ensures { (program : SeenProgram) (top : meaning.Activation) (below : List meaning.Activation) → activations_of agent.old.activations.items ≡ top ∷ below → MatchResult result (λ _. IsTurned (changed.turned_by change.entry (changed.dropped popped (local_at program worker shared.old agent.old top below))) shared.new agent.new events.old.items events.new.items) (λ _. IsSame shared.old shared.new agent.old agent.new events.old.items events.new.items) }
{
    reserve_turn(&mut agent.activations, events)?;
    let Change {
        taken,
        effect,
        frames,
        doing,
    } = change;
    let end = end_of(worker, &effect);
    make_on_newest(alloc, worker, shared, agent, popped, taken, effect, frames)?;
    finish(agent, events, end, doing);
    Ok(())
}

/// There is room for one more activation and one more event.
fn reserve_turn(
    activations: &mut Vec<Activation<'_>>,
    events: &mut Vec<Event>,
) -> Result<(), NoMemory>
    ensures events { events.new.items ≡ events.old.items }
    ensures activations { activations.new.items ≡ activations.old.items }
    ensures event { OnOk result (vec_len events.new < vec_capacity events.new) }
    ensures activation { OnOk result (vec_len activations.new < vec_capacity activations.new) }
{
    events.reserve(1)?;
    activations.reserve(1)?;
    Ok(())
}

/// The effect is made on the newest activation of the agent, of whose frames so many are taken away before, and then so many; then
/// these are left on top. There is room for one more activation. Where memory runs out nothing has changed.
fn make_on_newest<'u>(
    alloc: Global,
    worker: u32,
    shared: &mut Shared<'u>,
    agent: &mut Agent<'u>,
    popped: usize,
    taken: usize,
    effect: Effect<'u>,
    frames: Items<Frame<'u>>,
) -> Result<(), NoMemory>
    requires { vec_len agent.old.activations < vec_capacity agent.old.activations }
    ensures { (program : SeenProgram) (top : meaning.Activation) (below : List meaning.Activation) → activations_of agent.old.activations.items ≡ top ∷ below → MatchResult result (λ _. IsLeft (left_by taken effect.entry frames.entry (changed.dropped popped (local_at program worker shared.old agent.old top below))) shared.new agent.new (option_to_list (event_of worker effect.entry))) (λ _. IsSame shared.old shared.new agent.old agent.new [] []) }
{
    let Some(mut top) = agent.activations.pop() else {
        return Ok(());
    };
    let made = make_and_leave(
        alloc,
        worker,
        shared,
        &mut agent.handled,
        &mut top,
        &mut agent.activations,
        popped,
        taken,
        effect,
        frames,
    );
    agent.activations.push_reserved(top);
    match made {
        Ok(()) => Ok(()),
        Err(_) => Err(NoMemory),
    }
}

/// How a step leaves an agent: with an event that is seen, with nothing more to do, or halted.
#[derive(Clone, Copy)]
struct End {
    event: Option<Event>,
    rests: bool,
    halts: bool,
}

/// How a step with the effect leaves the agent of a number.
fn end_of(worker: u32, effect: &Effect<'_>) -> End
    ensures event { result.event ≡ event_of worker effect.now }
    ensures rests { result.rests ≡ rests_after effect.now }
    ensures halts { result.halts ≡ changed.is_halted_by effect.now }
{
    End {
        event: event_seen(worker, effect),
        rests: is_rest(effect),
        halts: is_halt(effect),
    }
}

/// A step leaves the agent and the events so. There is room for an event.
fn finish<'u>(agent: &mut Agent<'u>, events: &mut Vec<Event>, end: End, doing: Doing<'u>)
    requires { vec_len events.old < vec_capacity events.old }
    ensures agent { agent_of agent.new ≡ record (agent_of agent.old) { doing = doing_of doing.entry; activations = (if end.rests then [] else activations_of agent.old.activations.items); halted = end.halts } }
    ensures events { events.new.items ≡ events.old.items ++ option_to_list end.event }
{
    if let Some(event) = end.event {
        events.push_reserved(event);
    }
    if end.rests {
        agent.activations.clear();
    }
    agent.halted = end.halts;
    agent.doing = doing;
}

/// So many frames are taken away, and then so many for the effect, which is made; then these are left on top.
fn make_and_leave<'u>(
    alloc: Global,
    worker: u32,
    shared: &mut Shared<'u>,
    handled: &mut Vec<Thrown>,
    top: &mut Activation<'u>,
    below: &mut Vec<Activation<'u>>,
    popped: usize,
    taken: usize,
    effect: Effect<'u>,
    frames: Items<Frame<'u>>,
) -> Result<(), NoMemory>
    requires { vec_len below.old + 1 < vec_capacity below.old }
    ensures made { (l : Local) → MatchResult result (λ _. sees_all worker shared.new handled.new.items top.new (frames_of top.new.frames.items) below.new.items (noted (event_of worker effect.entry) l) ≡ left_by taken effect.entry frames.entry (sees_all worker shared.old handled.old.items top.old (changed.without_top popped (frames_of top.old.frames.items)) below.old.items l)) (λ _. sees_all worker shared.new handled.new.items top.new (frames_of top.new.frames.items) below.new.items l ≡ sees_all worker shared.old handled.old.items top.old (frames_of top.old.frames.items) below.old.items l) }
    ensures below { vec_len below.new < vec_capacity below.new }
{
    let more = frames.len();
    top.frames.reserve(more)?;
    let left = top
        .frames
        .len()
        .saturating_sub(popped)
        .saturating_sub(taken);
    match make(
        alloc, worker, shared, handled, top, below, left, more, effect,
    ) {
        Ok(()) => {
            leave_on_top(&mut top.frames, frames);
            Ok(())
        }
        Err(_) => Err(NoMemory),
    }
}

/// The event of an effect of the agent of a number.
fn event_seen(worker: u32, effect: &Effect<'_>) -> Option<Event>
    ensures { result ≡ event_of worker effect.now }
{
    match effect {
        Effect::Happens(event) => Some(*event),
        Effect::IsUndefined(kind, at) => Some(Event::Undefined(worker, *kind, *at)),
        Effect::IsUncaught(value) => Some(Event::Uncaught(worker, *value)),
        Effect::IsBorn(coroutine, x, _) => Some(Event::Born(*coroutine, x.object)),
        _ => None,
    }
}

/// The agent has nothing more to do after the effect.
fn is_rest(effect: &Effect<'_>) -> bool
    ensures { result ≡ rests_after effect.now }
{
    matches!(effect, Effect::Rests | Effect::RestsAfterMain(_))
}

/// The agent is halted by the effect.
fn is_halt(effect: &Effect<'_>) -> bool
    ensures { result ≡ changed.is_halted_by effect.now }
{
    matches!(effect, Effect::IsUncaught(_))
}

use crate::frames::{Alive, Frame, Spot};
use crate::outcomes::Outcome;
use crate::stored::Store;
use crate::values::Place;
use co_base::{FuncId, Span, Thrown};
use co_core_tree::{Answer, AwaitPlan, CoreExpr, CoreStmt, GivePlan, Init};
use co_meaning_data::{Event, Value};
use sqlite_items::Items;
use std::collections::VecDeque;

/// What an agent does next.
#[derive(Drop)]
pub enum Task<'u> {
    Idle,
    Evaluate(&'u CoreExpr, Option<Place>),
    Awaits(&'u AwaitPlan, Option<Place>),
    /// An object at a place, or a value.
    Initialize(&'u Init, Option<Place>),
    Execute(&'u CoreStmt),
    Reads(Place, u32, Items<Value>, Span),
    Writes(bool, Place, u32, Items<Value>, Outcome, Span),
    Comes(Outcome),
    /// The event of the birth of an object that is live.
    IsBorn(Alive, Spot, Outcome),
    /// The object ends, after its destructor.
    Dies(Alive),
    /// The event of the death of the second, an object of the first, a coroutine.
    HasDied(u64, u64),
    /// The next coroutine number.
    Draws(u64),
    /// The event of its making.
    IsMade(u64),
    /// The event of its end.
    HasEnded(u64, u64, Outcome),
    Releases(u64, u64, GivePlan, Outcome, Span),
}

/// What an agent is doing: the marks of a full-expression, so many, are still to be made unset before its task, where there is
/// a number.
#[derive(Drop)]
pub struct Doing<'u> {
    pub opens: Option<u32>,
    pub task: Task<'u>,
}

/// What an activation is of.
#[derive(Clone, Copy)]
pub enum Kind {
    OfFunction,
    /// The call of a coroutine.
    OfRamp,
    OfBody,
    OfDestroy,
    OfParked(u64, u64, Answer),
}

/// An activation: its function, the object of each slot, the coroutine whose slots these are, where a result of a class is
/// made, and what is left to be done, the innermost last. Control returns to the activation before it.
#[derive(Drop)]
pub struct Activation<'u> {
    pub kind: Kind,
    pub func: FuncId,
    pub slots: Items<Option<u64>>,
    pub coroutine: Option<u64>,
    pub into: Option<Place>,
    pub frames: Vec<Frame<'u>>,
}

/// What a worker does: its activations, the newest last, and the exceptions that it handles, the newest last.
#[derive(Drop)]
pub struct Agent<'u> {
    pub doing: Doing<'u>,
    pub activations: Vec<Activation<'u>>,
    pub handled: Vec<Thrown>,
    pub halted: bool,
}

/// What a suspended coroutine has left to be done.
#[derive(Drop)]
pub struct Continuation<'u> {
    pub slots: Items<Option<u64>>,
    pub frames: Vec<Frame<'u>>,
}

/// Whether a coroutine runs, is suspended, or has ended; the serial counts its suspensions.
#[derive(Drop)]
pub enum Condition<'u> {
    Running(u64),
    Suspended(u32, u64, Continuation<'u>),
    /// Suspended at its final suspend point.
    Final(u32, u64, Continuation<'u>),
    /// Ended.
    Over,
}

/// A coroutine: its function, the block of its frame, and its promise, once that has an object.
#[derive(Drop)]
pub struct Coroutine<'u> {
    pub func: FuncId,
    pub block: u64,
    pub promise: Option<u64>,
    pub condition: Condition<'u>,
}

/// What all agents share: the store, the coroutines by number from 1 on, the posted handles, the oldest first, the value of
/// `main` once it has returned, and whether the run ended in an undefined act.
#[derive(Drop)]
pub struct Shared<'u> {
    pub store: Store<'u>,
    pub coroutines: Vec<Coroutine<'u>>,
    pub posted: VecDeque<Value>,
    pub main: Option<i64>,
    pub undefined: bool,
}

/// A run: what all agents share, the agents by number, and the events, the oldest first.
#[derive(Drop)]
pub struct Configuration<'u> {
    pub shared: Shared<'u>,
    pub agents: Vec<Agent<'u>>,
    pub events: Vec<Event>,
}

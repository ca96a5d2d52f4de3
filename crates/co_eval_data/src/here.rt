ghost use Rattle.std.specs.Prelude.{◌≡◌, [], ◌∷◌, ◌++◌, true, Some, IfOk};
ghost use Rattle.co_meaning_data.specs.Turn as turn;
ghost use Rattle.co_eval_data.specs.Agents.{local_of, task_of};
ghost use Rattle.co_eval_data.specs.Changed as changed;
ghost use Rattle.co_eval_data.specs.Seen.{given_of, going_of, frame_with};
ghost use Rattle.co_eval_data.specs.declared.changes.Effect.TheVariants as effect;

use crate::agents::{Activation, Doing, Shared, Task};
use crate::changes::{Change, Effect};
use crate::frames::{Frame, Node, Step};
use crate::outcomes::{Given, Going, Outcome};
use co_base::{NoMemory, Span, Thrown, Undef};
use co_core_tree::UnitParts;
use sqlite_items::Items;
use std::alloc::Global;

/// A program, the inputs of its run, the number of bytes of each coroutine's frame, in the order of the functions, and the words
/// of each class.
#[derive(Drop)]
pub struct Program<'u> {
    pub unit: &'u UnitParts,
    pub inputs: Items<i64>,
    pub sizes: Items<u64>,
    pub words: Items<u64>,
}

/// What an agent sees in a step: the program, its number, what all agents share, the exceptions that it handles, its newest
/// activation with the frames that are left to it, and the activations below that one. Memory is taken from the allocator.
#[derive(Clone, Copy)]
pub struct Here<'a, 'u> {
    pub alloc: Global,
    pub program: &'a Program<'u>,
    pub worker: u32,
    pub shared: &'a Shared<'u>,
    pub handled: &'a [Thrown],
    pub top: &'a Activation<'u>,
    pub frames: &'a [Frame<'u>],
    pub below: &'a [Activation<'u>],
}

impl<'u> Here<'_, 'u> {
    /// The agent goes on with this.
    pub fn goes(&self, task: Task<'u>) -> Change<'u>
        ensures { Some (changed.turned_by result (local_of self.now)) ≡ turn.goes (task_of task.entry) (local_of self.now) }
    {
        Change {
            taken: 0,
            effect: Effect::Nothing,
            frames: Items::new(self.alloc),
            doing: Doing { opens: None, task },
        }
    }

    /// This comes to the frame on top.
    pub fn gives(&self, given: Given) -> Change<'u>
        ensures { Some (changed.turned_by result (local_of self.now)) ≡ turn.gives (given_of given) (local_of self.now) }
    {
        self.goes(Task::Comes(Outcome::Gives(given)))
    }

    /// What stands above the frame on top is done.
    pub fn passes(&self) -> Change<'u>
        ensures { Some (changed.turned_by result (local_of self.now)) ≡ turn.passes (local_of self.now) }
    {
        self.goes(Task::Comes(Outcome::Passes))
    }

    /// The frame on top is left.
    pub fn leaves(&self, going: Going) -> Change<'u>
        ensures { Some (changed.turned_by result (local_of self.now)) ≡ turn.leaves (going_of going) (local_of self.now) }
    {
        self.goes(Task::Comes(Outcome::Goes(going)))
    }

    /// The agent goes on with the task, and the frames are left to be done after it, the last of them first.
    pub fn above(&self, frames: Items<Frame<'u>>, task: Task<'u>) -> Change<'u>
        ensures { Some (changed.turned_by result (local_of self.now)) ≡ changed.goes_above frames.entry task.entry (local_of self.now) }
    {
        Change {
            taken: 0,
            effect: Effect::Nothing,
            frames,
            doing: Doing { opens: None, task },
        }
    }

    /// The agent goes on with the task, and the frame is left to be done after it.
    pub fn under(&self, step: Step, node: Node<'u>, task: Task<'u>) -> Result<Change<'u>, NoMemory>
        ensures { IfOk result (λ c. Some (changed.turned_by c (local_of self.now)) ≡ turn.under (frame_with step node.entry) (task_of task.entry) (local_of self.now)) }
    {
        let frames = self.one(step, node)?;
        Ok(self.above(frames, task))
    }

    /// This is done, the agent goes on with the task, and the frames are left to be done after it, the last of them first.
    pub fn makes(&self, effect: Effect<'u>, frames: Items<Frame<'u>>, task: Task<'u>) -> Change<'u>
        requires { changed.goes_on effect ≡ true }
        ensures { Some (changed.turned_by result (local_of self.now)) ≡ changed.goes_after effect.entry frames.entry task.entry (local_of self.now) }
    {
        Change {
            taken: 0,
            effect,
            frames,
            doing: Doing { opens: None, task },
        }
    }

    /// This is done, the frames are left to be done, the last of them first, and a full-expression with so many marks is opened
    /// before the task [intro.execution].
    pub fn opens(
        &self,
        marks: u32,
        effect: Effect<'u>,
        frames: Items<Frame<'u>>,
        task: Task<'u>,
    ) -> Change<'u>
        requires { changed.goes_on effect ≡ true }
        ensures { Some (changed.turned_by result (local_of self.now)) ≡ changed.opens_above marks effect.entry frames.entry task.entry (local_of self.now) }
    {
        Change {
            taken: 0,
            effect,
            frames,
            doing: Doing {
                opens: Some(marks),
                task,
            },
        }
    }

    /// The run ends in an undefined act.
    pub fn is_undefined(&self, kind: Undef, at: Span) -> Change<'u>
        ensures { Some (changed.turned_by result (local_of self.now)) ≡ turn.is_undefined kind at (local_of self.now) }
    {
        self.makes(
            Effect::IsUndefined(kind, at),
            Items::new(self.alloc),
            Task::Comes(Outcome::Passes),
        )
    }

    /// An exception may go no further: the agent is halted [except.terminate].
    pub fn is_uncaught(&self, value: Thrown) -> Change<'u>
        ensures { Some (changed.turned_by result (local_of self.now)) ≡ turn.is_uncaught value (local_of self.now) }
    {
        Change {
            taken: 0,
            effect: Effect::IsUncaught(value),
            frames: Items::new(self.alloc),
            doing: Doing {
                opens: None,
                task: Task::Comes(Outcome::Goes(Going::Throwing(value))),
            },
        }
    }

    /// The list of this frame alone.
    pub fn one(&self, step: Step, node: Node<'u>) -> Result<Items<Frame<'u>>, NoMemory>
        ensures { IfOk result (λ frames. frames ≡ record { step = step; node = node.entry } ∷ []) }
    {
        let mut frames = Items::new(self.alloc);
        frames.push(Frame { step, node })?;
        Ok(frames)
    }
}

/// The frames with one more, above them.
pub fn with<'u>(
    mut frames: Items<Frame<'u>>,
    step: Step,
    node: Node<'u>,
) -> Result<Items<Frame<'u>>, NoMemory>
    ensures { IfOk result (λ more. more ≡ frames.entry ++ record { step = step; node = node.entry } ∷ []) }
{
    frames.push(Frame { step, node })?;
    Ok(frames)
}

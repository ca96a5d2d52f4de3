use crate::agents::{Activation, Doing, Kind};
use crate::frames::{Alive, Frame, Spot};
use crate::stored::StoredObject;
use co_base::{Span, Thrown, Undef};
use co_meaning_data::{Cell, Event, Standing, Value};
use sqlite_items::Items;

/// Where the activation of a coroutine that goes on stands: above the newest one, or in its place.
#[derive(Clone, Copy)]
pub enum Wake {
    Above,
    Instead,
}

/// What a step does beside the frames that it leaves on top and what its agent does next.
#[derive(Drop)]
pub enum Effect<'u> {
    Nothing,
    Happens(Event),
    /// The run ends in an undefined act.
    IsUndefined(Undef, Span),
    /// The agent is halted by an exception that may go no further.
    IsUncaught(Thrown),
    /// A new object, the object of a slot.
    Adds(u32, StoredObject<'u>),
    /// The same, where the object is the promise of the coroutine whose slots these are.
    AddsPromise(u32, StoredObject<'u>),
    /// A new object that stands in a block.
    AddsIn(u64, StoredObject<'u>),
    /// The object is live.
    Lives(u64),
    /// The object is live and stands there in the frames.
    LivesAt(Alive, Spot),
    /// The temporary of a slot is live, and its mark is set; where its birth is not seen it stands in its full-expression.
    LivesInFull(u32, Alive),
    /// The object stands there in the frames.
    Stands(Alive, Spot),
    /// The event of its birth in a coroutine, and it stands there in the frames.
    IsBorn(u64, Alive, Spot),
    Ends(u64),
    /// The cell of an object gets a value.
    Writes(u64, usize, Value),
    /// So many cells of an object from one on become so.
    Fills(u64, usize, usize, Cell),
    AddsBlock(u64),
    Releases(u64),
    /// The coroutine of the activation is made, and its frame stands in the block.
    Draws(u64),
    /// The coroutine is over, and nothing stands in the block.
    Closes(u64, u64),
    Posts(Value),
    Handles(Thrown),
    /// The exception is handled, and a new object, the object of a slot, is the handler's variable.
    Catches(Thrown, u32, StoredObject<'u>),
    /// The newest handled exception is handled no more.
    HandlesNoMore,
    /// The frames are left on top, and an activation stands above the newest one. The objects of its parameters are new.
    Enters(Items<Frame<'u>>, Items<StoredObject<'u>>, Activation<'u>),
    /// Control returns to the activation below.
    Returns,
    /// The agent has nothing more to do.
    Rests,
    /// `main` has returned this, and its agent has nothing more to do.
    RestsAfterMain(Option<i64>),
    /// The suspended coroutine goes on.
    Wakes(u64, Kind, Wake),
    /// The coroutine is suspended at the point, with these frames on top of what it has left to do, and the activation stands in
    /// the place of its own.
    Suspends(u64, u32, Items<Frame<'u>>, Activation<'u>),
    /// The coroutine is left at its final suspend point by an exception: it keeps the slots and what is left to be done, in whose
    /// place these frames stand.
    Escapes(u64, Items<Option<u64>>, Vec<Frame<'u>>),
    /// One more field is made of the object that is made.
    FieldMade,
    /// The initial `await_resume` is reached.
    Reached,
}

/// What a step leaves: so many frames are taken away from the top, then its effect, then these frames, the innermost last,
/// and what its agent does next.
#[derive(Drop)]
pub struct Change<'u> {
    pub taken: usize,
    pub effect: Effect<'u>,
    pub frames: Items<Frame<'u>>,
    pub doing: Doing<'u>,
}

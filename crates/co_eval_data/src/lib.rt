//! What a plain runner of the core tree works on, beside the definitions of the meaning: frames that borrow the unit, agents,
//! coroutines, objects and blocks, and what a step changes of them.
#![tactic(auto)]

mod agents;
mod changes;
mod frames;
mod here;
mod outcomes;
mod stored;
mod values;

pub use agents::{
    Activation, Agent, Condition, Configuration, Continuation, Coroutine, Doing, Kind, Shared, Task,
};
pub use changes::{Change, Effect, Wake};
pub use frames::{Alive, Call, Ending, Frame, Hold, Node, Spot, Step, Temporal};
pub use here::{Here, Program, with};
pub use outcomes::{Given, Going, Outcome};
pub use stored::{Store, StoredBlock, StoredObject};
pub use values::{Place, copy_value, copy_values};

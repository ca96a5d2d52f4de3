//! What a step does with an expression or an initializer, and what a frame of one does with what was given to it.
#![tactic(auto)]

mod branching;
mod calls;
mod comparing;
mod entering;
mod initializing;
mod integers;
mod making;
mod places;
mod pointers;
mod releasing;
mod spans;
mod temporaries;
mod throwing;
mod truths;
mod values;

pub use branching::{both, chooses, either, picks};
pub use comparing::{compared_with, tested};
pub use entering::enter;
pub use initializing::initialize;
pub use integers::{arithmetic, converted, updated};
pub use making::{new_left, new_made, new_taken};
pub use pointers::dereferenced;
pub use releasing::{delete_ended, delete_of};
pub use throwing::{rethrow_parts, thrown_object, throws, values_given};

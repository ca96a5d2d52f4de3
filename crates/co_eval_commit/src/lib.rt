//! The change of a step, made in place on a configuration of the plain runner.
#![tactic(auto)]

mod activations;
mod blocks;
mod configurations;
mod coroutines;
mod effects;
mod fields;
mod framed;
mod frames;
mod handled;
mod looked;
mod marks;
mod objects;
mod quiet;
mod shares;
mod slotted;
mod stands;
mod temporaries;
mod waking;

pub use configurations::commit;

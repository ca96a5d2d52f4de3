//! What a step does with an act of the library whose operands are evaluated.
#![tactic(auto)]

mod addresses;
mod atomics;
mod calls;
mod handles;
mod operands;
mod operations;
mod promises;

pub use operations::operate;

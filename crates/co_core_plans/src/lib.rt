//! The rules of a valid unit on the functions that its plans name, and on `main`.
#![tactic(auto)]

mod callees;
mod calls;
mod ends;
mod rules;
mod storage;
#[cfg(test)]
mod tests;

pub use calls::plans_call;
pub use ends::{ends_noexcept, finals_noexcept, main_fits, storage_fits};

//! Arithmetic on every two integers of 64 bits, as the meaning has it: also where they are no values of the type.
#![tactic(auto)]

mod arithmetic;
mod bits;
mod sums;
#[cfg(test)]
mod tests;

pub use arithmetic::arith;
pub use sums::{minus, plus};

//! How a step opens a full-expression: its temporaries, none of which is made yet, and their marks.
#![tactic(auto)]

mod opening;
mod params;
mod parts;
mod temporals;

pub use opening::{Opening, open_await, open_call, open_expr, open_init};

//! In every run each object of a coroutine dies before the coroutine ends.
#![tactic(auto)]

mod laws;

pub use laws::runs_balance;

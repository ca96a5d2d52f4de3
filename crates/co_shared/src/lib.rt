//! The words of a run shared by threads: whatever they do at the same time, all their accesses stand in one history.
#![tactic(auto)]

mod held;
mod laws;
mod rule;
mod shared;
#[cfg(test)]
mod tests;
mod told;

pub use held::Held;
pub use laws::{ended_passes_stand_before, old_words_stand};
pub use shared::{Last, Pass, Shared};
pub use told::{Ended, Entry, Told, View};

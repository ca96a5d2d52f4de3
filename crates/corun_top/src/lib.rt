//! The top call: command words and files in, lines and a status out.
#![tactic(auto)]

mod answer;
mod end;
mod line;
mod report;
mod status;
#[cfg(test)]
mod tests;
mod texts;
mod top;
mod words;

pub use answer::BUDGET;
pub use end::End;
pub use status::{Refusal, Status, Which};
pub use top::corun;
pub use words::first_bad;

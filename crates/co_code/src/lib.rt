//! The code of a program: instructions, functions with their rows, suspension points, texts and globals.
#![tactic(auto)]

mod image;
mod instr;
pub mod laws;
mod listing;
mod listing_lines;
#[cfg(test)]
mod tests;

pub use image::{FuncCode, Image, PointCode, RowCode, RowKind};
pub use instr::{Instr, Register, ThrownKind};
pub use listing_lines::dump;

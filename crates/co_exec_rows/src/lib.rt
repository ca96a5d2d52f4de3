//! What one instruction does to a worker's state, without its access: values, rows, entries, storage and the board.
#![tactic(auto)]

pub mod board;
pub mod change;
pub mod entries;
pub mod integers;
pub mod rows;
pub mod storage;
pub mod values;

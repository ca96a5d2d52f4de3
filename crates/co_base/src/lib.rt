//! What every crate of `corun` speaks of: places in the source, texts, ids, the kinds of number, the
//! names of what ends a run, and the traits for what lies outside the program.
#![tactic(auto)]

mod fault;
mod gate;
mod ids;
mod integers;
mod kinds;
mod laws;
mod mem_files;
mod mem_sink;
mod outside;
mod span;
mod std_files;
mod std_sink;
#[cfg(test)]
mod tests;
mod text;
mod words;

pub use fault::{Failed, NoMemory};
pub use gate::{Gate, OpenGate};
pub use ids::{ClassId, CoroId, FuncId, SlotId, SuspendId};
pub use integers::{arith, is_value};
pub use kinds::{AtomicKind, CatchOf, Counts, Limit, Num, Op, Print, Thrown, Undef};
pub use laws::{
    bits_of_value, converts_by_value, converts_once, converts_to_itself, converts_to_values,
    gives_truth, gives_values, holds_its_value, is_congruent, is_held, value_of_bits,
};
pub use mem_files::MemFiles;
pub use mem_sink::MemSink;
pub use outside::{Files, ReadFault, Sink, offer_all, read_all};
pub use span::Span;
pub use std_files::StdFiles;
pub use std_sink::StdSink;
pub use text::Text;
pub use words::{bits, convert, value};

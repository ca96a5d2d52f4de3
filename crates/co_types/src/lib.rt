//! The types of a program, its classes with their members, and the choice among overloads.
#![tactic(auto)]

mod classes;
mod laws;
mod members;
mod names;
mod overloads;
mod specials;
mod table;
#[cfg(test)]
mod tests;
mod types;

pub use classes::{AliasInfo, ClassInfo, FieldInfo, FuncInfo};
pub use laws::{chooses_once, same_is_equal, special_recurs};
pub use members::{Found, find_member};
pub use overloads::{Arg, ArgKind, Choice, Rank, choose, conversion};
pub use specials::{Specials, special};
pub use table::ClassTable;
pub use types::{CoType, Head, has_same_head, is_same, is_same_num};

use crate::seen::Seen;
use co_first_tree::{Stmt, Sum};
use sqlite_items::Items;

/// An open `while`: its condition, the statements before it in the block around it, and what was seen there.
#[derive(Debug, Drop)]
pub struct Frame {
    pub sum: Sum,
    pub before: Items<Stmt>,
    pub visible: Seen,
}

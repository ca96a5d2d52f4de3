use co_meaning_data::{Cell, Lifetime, Standing};
use co_types::CoType;
use sqlite_items::Items;

/// An object that is no part of another: its type, a cell for each of its words, where it is in its life, the block that it
/// was made in by `new`, and the coroutine whose promise, parameter copy, local or temporary of a class it is.
#[derive(Drop)]
pub struct StoredObject<'u> {
    pub of: &'u CoType,
    pub cells: Items<Cell>,
    pub lifetime: Lifetime,
    pub block: Option<u64>,
    pub coroutine: Option<u64>,
}

/// A block of storage: its words, whether it was released, and what stands in it.
#[derive(Drop)]
pub struct StoredBlock {
    pub words: u64,
    pub released: bool,
    pub standing: Standing,
}

/// Objects and blocks by number; a number is never used again.
#[derive(Drop)]
pub struct Store<'u> {
    pub objects: Vec<StoredObject<'u>>,
    pub blocks: Vec<StoredBlock>,
}

//! What a pass has done, as contracts see it. No value of these types is made.
use co_words::Access;
use std::collections::LinkedList;

/// One access, and the word that it found: 0 for a store, which finds none.
pub struct Entry {
    pub access: Access,
    pub old: u64,
}

/// A pass that was joined into another one: its number, its accesses, and how many accesses the other had made before.
pub struct Ended {
    pub number: u64,
    pub list: LinkedList<Entry>,
    pub before: u64,
}

/// A pass's number, its accesses in their order, how many passes it split off, and those that were joined into it.
pub struct Told {
    pub number: u64,
    pub list: LinkedList<Entry>,
    pub splits: u64,
    pub ended: LinkedList<Ended>,
}

/// What the rule of the table keeps for each pass there ever was. One that was joined into another is spent.
pub struct View {
    pub spent: bool,
    pub told: Told,
}

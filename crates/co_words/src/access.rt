/// One access to one word: its place first, then the word that it writes. `Cas` is a compare_exchange: it has
/// the word that it wants to find, and then the word that it writes where it finds that one.
#[derive(Debug, Clone, Copy, PartialEq, Eq)]
pub enum Access {
    Load(u64),
    Store(u64, u64),
    Swap(u64, u64),
    Add(u64, u64),
    Cas(u64, u64, u64),
}

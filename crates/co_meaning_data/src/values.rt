use co_base::{CatchOf, Num};
use sqlite_items::Items;

/// The value of a scalar. Objects, blocks and coroutines are meant by their numbers; a pointer to a part of an object has the
/// numbers of the fields that lead to it, the outermost first.
#[derive(Drop)]
pub enum Value {
    /// An integer of a type.
    Number(Num, i64),
    /// A pointer to an object or a part of it, or what a reference refers to.
    Pointer(u64, Items<u32>),
    /// A pointer to a block of storage.
    Block(u64),
    /// A pointer to the frame of a coroutine, the address of its handle.
    Frame(u64),
    /// The address of the no-op handle.
    NoopFrame,
    /// The handle of a coroutine.
    Handle(u64),
    /// The no-op handle [coroutine.handle.noop].
    Noop,
    /// The null value of a pointer, of a handle, or of the first part of a `std::exception_ptr`.
    Null,
    /// The first part of a `std::exception_ptr` that is not null: the type of its value. The other parts are numbers.
    Kind(CatchOf),
    /// The value of a `std::suspend_always` or a `std::suspend_never`.
    Empty,
}

/// A scalar of an object: outside its lifetime, indeterminate, or with a value.
#[derive(Drop)]
pub enum Cell {
    Outside,
    Indeterminate,
    Holds(Value),
}

/// Where an object is in its life [basic.life]: before the end of its initialization, after it, and after its own end.
#[derive(Clone, Copy)]
pub enum Lifetime {
    Raw,
    Live,
    Ended,
}

/// What stands in a block of storage: nothing, the object of that number, or the frame of the coroutine of that number.
#[derive(Clone, Copy)]
pub enum Standing {
    Nothing,
    Object(u64),
    Frame(u64),
}

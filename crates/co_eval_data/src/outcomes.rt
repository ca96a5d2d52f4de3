use crate::values::Place;
use co_base::Thrown;
use co_meaning_data::Value;
use sqlite_items::Items;

/// What an expression has given: the value of a scalar, the parts of a `std::exception_ptr`, a place, or nothing. A call that
/// gives an object of a class has made it at its own place, and gives nothing.
#[derive(Drop)]
pub enum Given {
    Scalar(Value),
    Parts(Items<Value>),
    At(Place),
    Nothing,
}

/// Why frames are left before they are done [except.throw] [stmt.jump] [dcl.fct.def.coroutine].
#[derive(Drop)]
pub enum Going {
    Throwing(Thrown),
    Breaking,
    Continuing,
    /// Out of a function, with what it gives.
    Returning(Given),
    /// To the final suspend point.
    Leaving,
    /// By the destruction of a suspended coroutine.
    Destroying,
}

/// What comes to a frame: what the expression above it has given, the end of what stands above it, or the leaving of it.
#[derive(Drop)]
pub enum Outcome {
    Gives(Given),
    Passes,
    Goes(Going),
}

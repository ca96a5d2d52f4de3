use co_base::{Print, Span, Thrown, Undef};

/// What is seen of a run. The first number of the first four is that of the agent, and a coroutine and an object are meant by
/// their numbers.
#[derive(Clone, Copy)]
pub enum Event {
    Print(u32, Print),
    /// An exception has reached a border that none may pass, or `std::terminate` was called [except.terminate].
    Uncaught(u32, Thrown),
    /// The agent was halted from the outside.
    Cut(u32),
    Undefined(u32, Undef, Span),
    /// The coroutine has got its number.
    Made(u64),
    /// The coroutine has ended.
    Ended(u64),
    /// The lifetime of a promise, parameter copy, local or temporary of a class, an object of the coroutine, has begun.
    Born(u64, u64),
    /// It has ended, and its destructor has returned.
    Died(u64, u64),
}

/// One move of a run, of the agent of the first number: a step of what it does, the taking of the posted handle of the second
/// number, or its halt.
#[derive(Clone, Copy)]
pub enum Move {
    Go(u32),
    Take(u32, u64),
    Cut(u32),
}

use co_base::{Limit, Span, Thrown, Undef};

/// What stops a worker: an undefined act, an exception that nothing catches, its budget, a limit, or another's stop.
#[derive(Clone, Copy)]
pub enum StopKind {
    Undefined(Undef, Span),
    Uncaught(Thrown),
    Budget,
    Limit(Limit),
    Seen,
}

/// What a turn answers: it went on, it ended a look that found every cell empty, or the worker has stopped.
#[derive(Clone, Copy)]
pub enum Turn {
    Went,
    Idle,
    Stop(StopKind),
}

/// What one cell answers to a post: it took the handle, it was full and others are left, or it was the last full one.
#[derive(Clone, Copy)]
pub enum Posted {
    Done,
    Next,
    Full,
}

/// What one cell answers to a look: a handle, nothing while others are left, or nothing as the last one.
#[derive(Clone, Copy)]
pub enum Looked {
    Found(u64),
    Next,
    Empty,
}

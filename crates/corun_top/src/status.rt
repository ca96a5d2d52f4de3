ghost use Rattle.std.specs.Prelude.{◌≡◌};

use co_base::{Limit, Span, Thrown, Undef};

/// How a call of `corun` ended. The program exits with the number of its status, from 0 in the order of the variants.
#[derive(Clone, Copy, Debug, PartialEq, Eq)]
pub enum Status {
    /// The run ended with `main` returned: the value of `main`. 0 for a command that does not run the file.
    Finished(i32),
    /// The file is refused: why and where.
    Refused(Refusal, Span),
    /// The command words are not accepted: the index of the first bad word, or their number where only the end is missing.
    Words(u32),
    /// The run met an undefined act: its kind and its place.
    Undefined(Undef, Span),
    /// An exception left the run.
    Uncaught(Thrown),
    /// The worker of this number has made as many instructions as its budget allows, and has more to do.
    Budget(u32),
    /// The run met a limit.
    Limit(Limit),
    /// A read failed.
    FileFault,
    /// A write failed. What was written is the beginning of what was to be written.
    SinkFault,
    /// Memory ran out, and nothing was written.
    NoMemory,
    /// A file has more than 1,048,576 bytes.
    TooLarge(Which),
    /// The first line, counted from 1, that is not of its file's form.
    BadInput(Which, u32),
}

/// Which of the files that a command names.
#[derive(Clone, Copy, Debug, PartialEq, Eq)]
pub enum Which {
    Source,
    Input,
    Order,
}

/// Why a source file is refused. `docs/LANGUAGE.md` explains each code.
#[derive(Clone, Copy, Debug, PartialEq, Eq)]
pub enum Refusal {
    /// A byte that no token has there.
    L1,
    /// A number that is no literal.
    L2,
    /// A directive other than the known `#include` lines.
    L3,
    /// A comment or a text literal without an end.
    L4,
    /// A token that no file of the grammar has there.
    S1,
    /// Nesting deeper than 200.
    Q1,
    /// A name that is not declared there, or a file without `main`.
    N1,
    /// A second declaration of a name.
    N2,
    /// A type that does not fit.
    T1,
    /// No viable overload.
    T2,
    /// An ambiguous overload.
    T3,
    /// A coroutine whose return type has no promise class.
    C1,
    /// A promise with both `return_void` and `return_value`.
    C2,
    /// A promise without `unhandled_exception`.
    C3,
    /// A member that the coroutine needs is missing.
    C4,
    /// A final await that may throw.
    C5,
    /// A `co_await` or `co_yield` in a handler.
    C6,
    /// A coroutine word where no coroutine can be.
    C7,
    /// A `return` in a coroutine.
    C8,
    /// An await function of a wrong type.
    C9,
    /// `get_return_object` or the failure function has not the return type.
    C10,
    /// An `operator delete` of the promise with a wrong form.
    C11,
    /// An `operator new` of the promise that may throw beside a failure function.
    C12,
    /// A form of the language outside the profile.
    O1,
    /// Too many of something.
    Q2,
    /// A frame larger than 1,024 words.
    Q3,
    /// Code longer than 2^20 instructions.
    Q4,
}

impl Status {
    ghost use Rattle.corun_top.specs.Status.{number_of};

    /// The number that the program exits with.
    pub fn number(&self) -> u8
        ensures { result ≡ number_of self.now }
    {
        match self {
            Status::Finished(_) => 0,
            Status::Refused(_, _) => 1,
            Status::Words(_) => 2,
            Status::Undefined(_, _) => 3,
            Status::Uncaught(_) => 4,
            Status::Budget(_) => 5,
            Status::Limit(_) => 6,
            Status::FileFault => 7,
            Status::SinkFault => 8,
            Status::NoMemory => 9,
            Status::TooLarge(_) => 10,
            Status::BadInput(_, _) => 11,
        }
    }
}

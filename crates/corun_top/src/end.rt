ghost use Rattle.std.specs.Prelude.{◌≡◌};

use crate::status::Status;
use co_base::{Limit, Span, Thrown, Undef};

/// How a run ended.
#[derive(Clone, Copy, Debug, PartialEq, Eq)]
pub enum End {
    /// `main` has returned this value.
    Main(i32),
    /// The deciding stop is an undefined act: its kind and its place.
    Undefined(Undef, Span),
    /// The deciding stop is an exception that nothing caught.
    Uncaught(Thrown),
    /// The worker of this number has used its budget up.
    Budget(u32),
    /// The deciding stop is a limit.
    Limit(Limit),
}

impl End {
    ghost use Rattle.corun_top.specs.Texts.{status_of};

    /// The status of a run that ended so.
    pub fn status(self) -> Status
        ensures { result ≡ status_of self }
    {
        match self {
            End::Main(value) => Status::Finished(value),
            End::Undefined(kind, span) => Status::Undefined(kind, span),
            End::Uncaught(value) => Status::Uncaught(value),
            End::Budget(worker) => Status::Budget(worker),
            End::Limit(limit) => Status::Limit(limit),
        }
    }
}

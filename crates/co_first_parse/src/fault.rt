ghost use Rattle.std.specs.Prelude.{◌≡◌};

use co_base::NoMemory;
use std::alloc::{AllocError, AllocFailed};
use std::error::Error;
use std::fmt;

/// Why there is no tree: the bytes are not of the form, or memory ran out.
#[derive(Clone, Copy, Debug, PartialEq, Eq)]
pub enum ParseFault {
    Syntax,
    NoMemory,
}

impl fmt::Display for ParseFault {
    fn fmt<W: fmt::Write>(&self, f: &mut fmt::Formatter<W>) -> fmt::Result {
        match self {
            ParseFault::Syntax => write!(f, "the file is not of the form"),
            ParseFault::NoMemory => write!(f, "out of memory"),
        }
    }
}

impl Error for ParseFault {}

impl From<NoMemory> for ParseFault {
    ghost use Rattle.co_first_parse.specs.declared.fault.ParseFault.{ParseFault};

    ghost from_gives = { λ _ f. f ≡ ParseFault.NoMemory };

    fn from(_e: NoMemory) -> ParseFault {
        ParseFault::NoMemory
    }
}

impl From<AllocError> for ParseFault {
    ghost use Rattle.co_first_parse.specs.declared.fault.ParseFault.{ParseFault};

    ghost from_gives = { λ _ f. f ≡ ParseFault.NoMemory };

    fn from(_e: AllocError) -> ParseFault {
        ParseFault::NoMemory
    }
}

impl<T: Drop> From<AllocFailed<T>> for ParseFault {
    ghost use Rattle.co_first_parse.specs.declared.fault.ParseFault.{ParseFault};

    ghost from_gives = { λ _ f. f ≡ ParseFault.NoMemory };

    fn from(_e: AllocFailed<T>) -> ParseFault {
        ParseFault::NoMemory
    }
}

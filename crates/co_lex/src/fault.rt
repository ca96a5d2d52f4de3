ghost use Rattle.std.specs.Prelude.{◌≡◌};
ghost use Rattle.co_lex.specs.declared.fault.LexFault.TheVariants.{NoMemory};

use co_base::{NoMemory, Span};
use std::alloc::AllocError;
use std::error::Error;
use std::fmt;

/// Why a file has no tokens. The span is the first place in the text that is refused.
#[derive(Clone, Copy, Debug, PartialEq, Eq)]
pub enum LexFault {
    /// A byte that begins no token, or a byte or an escape in a text literal that may not stand there; at that byte, an
    /// escape's at its backslash.
    BadByte(Span),
    /// A number that has a leading zero, is above 2^63 - 1, or goes on with another letter, digit, `_` or `'`; at its first digit.
    BadNumber(Span),
    /// A line that begins with `#` and is no `#include` of a known header; at the `#`.
    BadDirective(Span),
    /// A comment or a text literal that doesn't end; at its first byte.
    Unfinished(Span),
    NoMemory,
}

impl fmt::Display for LexFault {
    fn fmt<W: fmt::Write>(&self, f: &mut fmt::Formatter<W>) -> fmt::Result {
        match self {
            LexFault::BadByte(at) => write!(
                f,
                "{}:{}: a byte that may not stand here",
                at.line, at.col
            ),
            LexFault::BadNumber(at) => write!(f, "{}:{}: a number that is none", at.line, at.col),
            LexFault::BadDirective(at) => write!(
                f,
                "{}:{}: a directive that is not read",
                at.line, at.col
            ),
            LexFault::Unfinished(at) => write!(
                f,
                "{}:{}: a comment or a text that does not end",
                at.line, at.col
            ),
            LexFault::NoMemory => write!(f, "out of memory"),
        }
    }
}

impl Error for LexFault {}

impl From<NoMemory> for LexFault {
    ghost from_gives = { λ _ e. e ≡ NoMemory };

    fn from(_e: NoMemory) -> LexFault {
        LexFault::NoMemory
    }
}

impl From<AllocError> for LexFault {
    ghost from_gives = { λ _ e. e ≡ NoMemory };

    fn from(_e: AllocError) -> LexFault {
        LexFault::NoMemory
    }
}

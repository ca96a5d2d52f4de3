ghost use Rattle.std.specs.Prelude.{◌≡◌};

use co_base::{NoMemory, Span};
use std::error::Error;
use std::fmt;

/// Why a list of tokens has no tree.
#[derive(Clone, Copy, Debug, PartialEq, Eq)]
pub enum ParseFault {
    /// The tokens up to and with this one are the beginning of no file.
    Syntax(Span),
    /// More than 200 nesting levels are open after this token [implimits].
    TooDeep(Span),
    NoMemory,
}

impl fmt::Display for ParseFault {
    fn fmt<W: fmt::Write>(&self, f: &mut fmt::Formatter<W>) -> fmt::Result {
        match self {
            ParseFault::Syntax(at) => write!(f, "{}:{}: no file goes on so", at.line, at.col),
            ParseFault::TooDeep(at) => write!(
                f,
                "{}:{}: more than 200 levels are open",
                at.line, at.col
            ),
            ParseFault::NoMemory => write!(f, "out of memory"),
        }
    }
}

impl Error for ParseFault {}

impl From<NoMemory> for ParseFault {
    ghost use Rattle.co_parse.specs.declared.fault.ParseFault.{ParseFault};

    ghost from_gives = { λ _ f. f ≡ ParseFault.NoMemory };

    fn from(_e: NoMemory) -> ParseFault {
        ParseFault::NoMemory
    }
}

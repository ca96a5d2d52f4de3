ghost use Rattle.std.specs.Prelude.{◌≡◌};
ghost use Rattle.co_grammar.specs.declared.fault.Fault.TheVariants.{NoMemory};

use std::error::Error;
use std::fmt;

/// Why a list of tokens is no file. The number is that of the tokens before the place.
#[derive(Clone, Copy, Debug, PartialEq, Eq)]
pub enum Fault {
    /// The tokens up to and with this one are the beginning of no file, or the list stops here before a file does.
    Syntax(usize),
    /// More than 200 nesting levels are open after this token.
    TooDeep(usize),
    NoMemory,
}

impl fmt::Display for Fault {
    fn fmt<W: fmt::Write>(&self, f: &mut fmt::Formatter<W>) -> fmt::Result {
        match self {
            Fault::Syntax(at) => write!(f, "token {at}: no file goes on so"),
            Fault::TooDeep(at) => write!(f, "token {at}: more than 200 levels are open"),
            Fault::NoMemory => write!(f, "out of memory"),
        }
    }
}

impl Error for Fault {}

impl From<co_base::NoMemory> for Fault {
    ghost from_gives = { λ _ e. e ≡ NoMemory };

    fn from(_e: co_base::NoMemory) -> Fault {
        Fault::NoMemory
    }
}

ghost use Rattle.std.specs.Prelude.{◌≡◌};

use co_base::NoMemory;
use std::alloc::AllocError;

/// Why a part was not read.
#[derive(Clone, Copy, Debug, PartialEq, Eq)]
pub enum ReadFault {
    /// The tokens do not begin with the part.
    Refused,
    NoMemory,
}

impl From<NoMemory> for ReadFault {
    ghost use Rattle.co_reader.specs.declared.fault.ReadFault.{ReadFault};

    ghost from_gives = { λ _ f. f ≡ ReadFault.NoMemory };

    fn from(_e: NoMemory) -> ReadFault {
        ReadFault::NoMemory
    }
}

impl From<AllocError> for ReadFault {
    ghost use Rattle.co_reader.specs.declared.fault.ReadFault.{ReadFault};

    ghost from_gives = { λ _ f. f ≡ ReadFault.NoMemory };

    fn from(_e: AllocError) -> ReadFault {
        ReadFault::NoMemory
    }
}

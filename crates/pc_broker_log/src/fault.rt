//! Why a log is not taken.

ghost use Rattle.std.specs.Prelude.{◌≡◌};
ghost use Rattle.pc_broker_log.specs.declared.fault.AddFault.TheVariants.{NoMemory};

use std::alloc::AllocError;
use std::error::Error;
use std::fmt;

/// Why a log is not taken: the first cause that applies.
#[derive(Clone, Copy, Debug, PartialEq, Eq)]
pub enum AddFault {
    /// The part is 1,024 or more.
    UnknownPart,
    /// The part has a log.
    TwiceGiven,
    /// All logs together would have more than 1,000,000 records.
    TooManyRecords,
    /// Out of memory.
    NoMemory,
}

impl fmt::Display for AddFault {
    fn fmt<W: fmt::Write>(&self, f: &mut fmt::Formatter<W>) -> fmt::Result {
        match self {
            AddFault::UnknownPart => write!(f, "unknown part"),
            AddFault::TwiceGiven => write!(f, "the part has a log"),
            AddFault::TooManyRecords => write!(f, "too many records"),
            AddFault::NoMemory => write!(f, "out of memory"),
        }
    }
}

impl Error for AddFault {}

impl From<AllocError> for AddFault {
    ghost from_gives = { λ _ e. e ≡ NoMemory };

    fn from(_e: AllocError) -> AddFault {
        AddFault::NoMemory
    }
}

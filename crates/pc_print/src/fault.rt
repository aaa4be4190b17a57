//! Why a text is no journal.

ghost use Rattle.std.specs.Prelude.{◌≡◌};
ghost use Rattle.pc_print.specs.declared.fault.JournalTextFault.TheVariants.{NoMemory};

use std::alloc::AllocError;
use std::error::Error;
use std::fmt;

/// Why a text gave no journal.
#[derive(Clone, Copy, Debug, PartialEq, Eq)]
pub enum JournalTextFault {
    /// The first line that is no event's; lines are numbered from 1.
    Bad { line: u64 },
    /// Out of memory.
    NoMemory,
}

impl fmt::Display for JournalTextFault {
    fn fmt<W: fmt::Write>(&self, f: &mut fmt::Formatter<W>) -> fmt::Result {
        match self {
            JournalTextFault::Bad { line } => write!(f, "line {line} is no event's"),
            JournalTextFault::NoMemory => write!(f, "out of memory"),
        }
    }
}

impl Error for JournalTextFault {}

impl From<AllocError> for JournalTextFault {
    ghost from_gives = { λ _ e. e ≡ NoMemory };

    fn from(_failed: AllocError) -> JournalTextFault {
        JournalTextFault::NoMemory
    }
}

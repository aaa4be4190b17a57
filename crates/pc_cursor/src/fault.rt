//! Why bytes are no log.

ghost use Rattle.std.specs.Prelude.{◌≡◌};
ghost use Rattle.pc_cursor.specs.declared.fault.CheckFault.TheVariants.{NoMemory};

use pc_batch::BatchFault;
use std::alloc::{AllocError, AllocFailed};
use std::error::Error;
use std::fmt;

/// What is wrong at a place of a log.
#[derive(Clone, Copy, Debug, PartialEq, Eq)]
pub enum LogFaultKind {
    /// No batch begins there.
    Batch(BatchFault),
    /// The base offset `next` of the batch there is not above the last offset `last` of the batch
    /// before it.
    OffsetsFall { last: u64, next: u64 },
}

impl fmt::Display for LogFaultKind {
    fn fmt<W: fmt::Write>(&self, f: &mut fmt::Formatter<W>) -> fmt::Result {
        match self {
            LogFaultKind::Batch(fault) => write!(f, "{fault}"),
            LogFaultKind::OffsetsFall { last, next } => write!(f, "offsets-fall {last} {next}"),
        }
    }
}

/// The first fault of a log, and the place of the batch that has it.
#[derive(Clone, Copy, Debug, PartialEq, Eq)]
pub struct LogFault {
    pub place: u64,
    pub fault: LogFaultKind,
}

/// Why a log could not be checked.
#[derive(Clone, Copy, Debug, PartialEq, Eq)]
pub enum CheckFault {
    /// The bytes are no log.
    Bad(LogFault),
    /// Out of memory.
    NoMemory,
}

impl fmt::Display for CheckFault {
    fn fmt<W: fmt::Write>(&self, f: &mut fmt::Formatter<W>) -> fmt::Result {
        match self {
            CheckFault::Bad(bad) => write!(f, "at {} {}", bad.place, bad.fault),
            CheckFault::NoMemory => write!(f, "out of memory"),
        }
    }
}

impl Error for LogFaultKind {}

impl Error for CheckFault {}

impl From<AllocError> for CheckFault {
    ghost from_gives = { λ _ e. e ≡ NoMemory };

    fn from(_e: AllocError) -> CheckFault {
        CheckFault::NoMemory
    }
}

impl<T: Drop> From<AllocFailed<T>> for CheckFault {
    ghost from_gives = { λ _ e. e ≡ NoMemory };

    fn from(_e: AllocFailed<T>) -> CheckFault {
        CheckFault::NoMemory
    }
}

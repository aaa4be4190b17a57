//! Why no batch was written.

ghost use Rattle.std.specs.Prelude.{◌≡◌};
ghost use Rattle.pc_batch_writer.specs.declared.fault.WriteFault.TheVariants.{NoMemory};

use std::alloc::AllocError;
use std::error::Error;
use std::fmt;

/// Why no batch was written: the first of these that applies, in this order.
#[derive(Clone, Copy, Debug, PartialEq, Eq)]
pub enum WriteFault {
    /// There is no record.
    Empty,
    /// A record's offset `next` is not above the offset `last` of the record before it. These are the
    /// first two.
    OffsetsFall { last: u64, next: u64 },
    /// An offset passes 2^63 - 2.
    OffsetTooLarge,
    /// A record's time minus the first time is no number of 64 bits.
    TimeTooFar,
    /// A length or an offset delta passes 2^31 - 1.
    TooLong,
    /// Out of memory.
    NoMemory,
}

impl fmt::Display for WriteFault {
    fn fmt<W: fmt::Write>(&self, f: &mut fmt::Formatter<W>) -> fmt::Result {
        match self {
            WriteFault::Empty => write!(f, "no record"),
            WriteFault::OffsetsFall { last, next } => write!(f, "offset {next} after {last}"),
            WriteFault::OffsetTooLarge => write!(f, "an offset is too large"),
            WriteFault::TimeTooFar => write!(f, "a time is too far from the first"),
            WriteFault::TooLong => write!(f, "a length or an offset delta is too large"),
            WriteFault::NoMemory => write!(f, "out of memory"),
        }
    }
}

impl Error for WriteFault {}

impl From<AllocError> for WriteFault {
    ghost from_gives = { λ _ e. e ≡ NoMemory };

    fn from(_e: AllocError) -> WriteFault {
        WriteFault::NoMemory
    }
}

//! Why the next field of a slice could not be read.

use std::error::Error;
use std::fmt;

/// Why a field could not be read. A place is counted from where the reader's first byte stands.
#[derive(Clone, Copy, Debug, PartialEq, Eq)]
pub enum ByteFault {
    /// Fewer than `need` bytes are left at `place`.
    Short { place: u64, need: u64 },
    /// The variable-length number whose first byte is at `place` goes on past the last byte that
    /// its kind allows, or is too large for its kind.
    VarintTooLong { place: u64 },
}

impl fmt::Display for ByteFault {
    fn fmt<W: fmt::Write>(&self, f: &mut fmt::Formatter<W>) -> fmt::Result {
        match self {
            ByteFault::Short { place, need } => write!(f, "fewer than {need} bytes at {place}"),
            ByteFault::VarintTooLong { place } => write!(f, "a number too long at {place}"),
        }
    }
}

impl Error for ByteFault {}

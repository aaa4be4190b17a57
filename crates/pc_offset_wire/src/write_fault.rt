//! Why a frame was not written.

ghost use Rattle.std.specs.Prelude.{◌≡◌};
ghost use Rattle.pc_offset_wire.specs.declared.write_fault.WireWriteFault.TheVariants.{NoMemory};

use std::alloc::AllocError;
use std::error::Error;
use std::fmt;

/// Why a frame was not written.
#[derive(Clone, Copy, Debug, PartialEq, Eq)]
pub enum WireWriteFault {
    /// A text passes 32,767 bytes, or the frame has more than 2^31 - 1 bytes after its size.
    TooLong,
    /// Out of memory.
    NoMemory,
}

impl fmt::Display for WireWriteFault {
    fn fmt<W: fmt::Write>(&self, f: &mut fmt::Formatter<W>) -> fmt::Result {
        match self {
            WireWriteFault::TooLong => write!(f, "a text or the frame is too long"),
            WireWriteFault::NoMemory => write!(f, "out of memory"),
        }
    }
}

impl Error for WireWriteFault {}

impl From<AllocError> for WireWriteFault {
    ghost from_gives = { λ _ e. e ≡ NoMemory };

    fn from(_e: AllocError) -> WireWriteFault {
        WireWriteFault::NoMemory
    }
}

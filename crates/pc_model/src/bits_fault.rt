//! Why an encoding of completion bits could not be read.

ghost use Rattle.std.specs.Prelude.{◌≡◌};
ghost use Rattle.pc_model.specs.declared.bits_fault.BitsFault.TheVariants.{NoMemory};

use std::alloc::AllocError;
use thiserror::Error;

/// What is wrong with the bytes of a BitSet or of a RunLength: the first fault from left to right.
#[derive(Debug, Clone, Copy, PartialEq, Eq, Error)]
pub enum BitsFault {
    /// The bytes end within a number, or a BitSet has no count.
    #[error("the bytes end within a number")]
    ShortNumber,
    /// The top bit of a number is set.
    #[error("a number is negative")]
    NegativeNumber,
    /// A BitSet has more bytes than its count needs.
    #[error("there are more bytes than the count needs")]
    TooManyBytes,
    /// The number of bits passes 2^63 - 1, and nothing else is wrong.
    #[error("there are more than 2^63 - 1 bits")]
    TooManyBits,
    /// Memory ran out. Definitions never give this one.
    #[error("out of memory")]
    NoMemory,
}

impl From<AllocError> for BitsFault {
    ghost from_gives = { λ _ e. e ≡ NoMemory };

    fn from(_e: AllocError) -> BitsFault {
        BitsFault::NoMemory
    }
}

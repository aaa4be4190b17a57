//! Why the text of a map could not be read.

ghost use Rattle.std.specs.Prelude.{◌≡◌};
ghost use Rattle.pc_model.specs.declared.map_fault.MapFault.TheVariants.{NoMemory};

use crate::BitsFault;
use std::alloc::AllocError;
use thiserror::Error;

/// What is wrong with the text of a map: the first fault from left to right.
#[derive(Debug, Clone, Copy, PartialEq, Eq, Error)]
pub enum MapFault {
    /// The text is no canonical base64 with padding (RFC 4648, section 4).
    #[error("the text is not base64")]
    NotBase64,
    /// The map is in a compressed form, with this letter.
    #[error("the map is compressed, by its letter {0}")]
    Compressed(u8),
    /// The first byte is no letter of an encoding.
    #[error("the letter {0} is unknown")]
    UnknownLetter(u8),
    /// The bytes end within a number, or a BitSet has no count.
    #[error("the bytes end within a number")]
    ShortNumber,
    /// The top bit of a number is set.
    #[error("a number is negative")]
    NegativeNumber,
    /// A BitSet has more bytes than its count needs.
    #[error("there are more bytes than the count needs")]
    TooManyBytes,
    /// The map's base plus the number of bits passes 2^63 - 1.
    #[error("the map goes past the last offset")]
    PastLastOffset,
    /// Memory ran out. Definitions never give this one.
    #[error("out of memory")]
    NoMemory,
}

impl From<AllocError> for MapFault {
    ghost from_gives = { λ _ e. e ≡ NoMemory };

    fn from(_e: AllocError) -> MapFault {
        MapFault::NoMemory
    }
}

impl From<BitsFault> for MapFault {
    ghost use Rattle.pc_model.specs.MapReading.{map_fault_of};

    ghost from_gives = { λ fault e. e ≡ map_fault_of fault };

    fn from(fault: BitsFault) -> MapFault {
        match fault {
            BitsFault::ShortNumber => MapFault::ShortNumber,
            BitsFault::NegativeNumber => MapFault::NegativeNumber,
            BitsFault::TooManyBytes => MapFault::TooManyBytes,
            BitsFault::TooManyBits => MapFault::PastLastOffset,
            BitsFault::NoMemory => MapFault::NoMemory,
        }
    }
}

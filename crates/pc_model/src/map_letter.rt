//! The letters of the encodings of a map: the first byte of a map's bytes.

/// A BitSet with a number of 16 bits.
pub const BITSET: u8 = b'l';

/// A RunLength with numbers of 16 bits.
pub const RUN_LENGTH: u8 = b'n';

/// A BitSet with a number of 32 bits.
pub const BITSET_2: u8 = b'o';

/// A RunLength with numbers of 32 bits.
pub const RUN_LENGTH_2: u8 = b'e';

//! BitSet: completion bits as their number and then the bits themselves, eight in a byte.
//!
//! Version 1 has a number of 16 bits and version 2 one of 32 bits, both big-endian with the top bit
//! 0. Neither holds the letter of the encoding.
#![tactic(auto)]

mod number;
mod packing;
mod unpacking;
mod version;

pub use pc_model::BitsFault;
pub use version::{decode_v1, decode_v2, encode_v1, encode_v2, length_v1, length_v2};

#[cfg(test)]
mod tests;

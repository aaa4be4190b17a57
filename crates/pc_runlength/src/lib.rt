//! RunLength: completion bits as the lengths of their runs, of 0 bits and of 1 bits in turn.
//!
//! Version 1 has numbers of 16 bits and version 2 of 32 bits, big-endian with the top bit 0.
//! Neither holds the letter of the encoding.
#![tactic(auto)]

mod number;
mod reading;
mod run_lengths;
mod version;

pub use pc_model::BitsFault;
pub use version::{decode_v1, decode_v2, encode_v1, encode_v2, length_v1, length_v2};

#[cfg(test)]
mod tests;

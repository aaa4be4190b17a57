//! Numbers and parts at the front of a slice, variable-length numbers, and CRC-32C.
//!
//! A clause sees a `Reader` as a place and the bytes from there on. What a call reads is a
//! definition over lists of bytes, which the formats above cite.
#![tactic(auto)]

mod crc;
mod fault;
mod reader;
mod varint;

pub use crc::crc32c;
pub use fault::ByteFault;
pub use reader::Reader;
pub use varint::{write_varint, write_varlong};

#[cfg(test)]
mod tests;

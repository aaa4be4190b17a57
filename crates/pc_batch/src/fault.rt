//! Why bytes are no batch.

use std::error::Error;
use std::fmt;

/// What is wrong with a record: its first fault, in the order in which a record is read.
#[derive(Clone, Copy, Debug, PartialEq, Eq)]
pub enum RecordKind {
    /// A variable-length number of the record is too long, or is cut by its bounds: the batch's end
    /// for the record's length, the record's end for any other.
    Varint,
    /// The record's length is negative, or passes the batch's end.
    Length,
    /// The base timestamp and the record's delta make no number of 64 bits.
    Time,
    /// The offset delta is negative, not above the one before, or above the batch's last.
    Delta,
    /// The key's length is below -1.
    KeyLength,
    /// The value's length is below -1.
    ValueLength,
    /// The count of headers is negative.
    HeaderCount,
    /// The length of a header's key is negative.
    HeaderKeyLength,
    /// The length of a header's value is below -1.
    HeaderValueLength,
    /// A field passes the record's end.
    Past,
    /// Bytes of the record remain after its last header.
    Leftover,
}

impl fmt::Display for RecordKind {
    fn fmt<W: fmt::Write>(&self, f: &mut fmt::Formatter<W>) -> fmt::Result {
        let text = match self {
            RecordKind::Varint => "varint",
            RecordKind::Length => "length",
            RecordKind::Time => "time",
            RecordKind::Delta => "delta",
            RecordKind::KeyLength => "keylength",
            RecordKind::ValueLength => "valuelength",
            RecordKind::HeaderCount => "headercount",
            RecordKind::HeaderKeyLength => "headerkeylength",
            RecordKind::HeaderValueLength => "headervaluelength",
            RecordKind::Past => "past",
            RecordKind::Leftover => "leftover",
        };
        write!(f, "{text}")
    }
}

/// Why no batch begins at a place: the first of these that applies, in this order. Places are
/// counted from the first byte of the log.
#[derive(Clone, Copy, Debug, PartialEq, Eq)]
pub enum BatchFault {
    /// Fewer than `need` bytes are left at `place`: fewer than a header's 61, or, once the magic
    /// byte and the length were read, fewer than the batch has.
    Short { place: u64, need: u64 },
    /// The magic byte is not 2.
    BadMagic(i8),
    /// The length is below 49, what a batch without records has after that field.
    BadLength(i32),
    /// The stored checksum is not the one that was found.
    BadCrc { stored: u32, found: u32 },
    /// The records are compressed, with this code of 1 to 7.
    Compressed(u8),
    /// The base offset or the last offset delta is negative, or their sum passes 2^63 - 2.
    OffsetRange { base: i64, delta: i32 },
    /// The record whose length field is at `place` does not read.
    BadRecord { place: u64, kind: RecordKind },
    /// The header has another number of records than were found.
    Count { header: i32, found: u32 },
}

impl fmt::Display for BatchFault {
    fn fmt<W: fmt::Write>(&self, f: &mut fmt::Formatter<W>) -> fmt::Result {
        match self {
            BatchFault::Short { place, need } => write!(f, "short {place} {need}"),
            BatchFault::BadMagic(magic) => write!(f, "magic {magic}"),
            BatchFault::BadLength(len) => write!(f, "length {len}"),
            BatchFault::BadCrc { stored, found } => write!(f, "crc {stored} {found}"),
            BatchFault::Compressed(code) => write!(f, "compressed {code}"),
            BatchFault::OffsetRange { base, delta } => write!(f, "offset-range {base} {delta}"),
            BatchFault::BadRecord { place, kind } => write!(f, "record {place} {kind}"),
            BatchFault::Count { header, found } => write!(f, "count {header} {found}"),
        }
    }
}

impl Error for RecordKind {}

impl Error for BatchFault {}

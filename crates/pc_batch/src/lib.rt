//! Kafka's record batches, version 2, read in place: a batch is accepted exactly where the bytes are
//! of the grammar, and every key, value and header is lent from them. Nothing here takes memory.
//!
//! All numbers are big-endian. A batch is
//!
//! ```text
//! at 0   baseOffset            int64     at 27  baseTimestamp         int64
//!    8   batchLength           int32        35  maxTimestamp          int64
//!    12  partitionLeaderEpoch  int32        43  producerId            int64
//!    16  magic                 int8, is 2   51  producerEpoch         int16
//!    17  crc                   uint32       53  baseSequence          int32
//!    21  attributes            int16        57  recordsCount          int32
//!    23  lastOffsetDelta       int32        61  records
//! ```
//!
//! (Kafka's documentation, "Record Batch"). `batchLength` counts the bytes after it, and `crc` is
//! the CRC-32C of the bytes from `attributes` on. A record is its length (varint) and as many
//! bytes: attributes (int8), timestampDelta (varlong), offsetDelta (varint), the key and the value
//! (each a varint of the length, -1 for null, and the bytes), the count of headers (varint), and
//! for each header its key (a length and bytes) and its value (as a record's).
#![tactic(auto)]

mod batch;
mod fault;
mod fields;
mod frame;
mod header;
mod headers;
mod record;
mod records;

pub use batch::{Batch, read_batch};
pub use fault::{BatchFault, RecordKind};
pub use headers::Headers;
pub use record::RecordRef;
pub use records::Records;

#[cfg(test)]
mod tests;

//! The frames of Kafka's OffsetCommit, version 2, and OffsetFetch, version 1. Requests and replies
//! are read in place, exactly where the bytes are of the grammar, and are written in their one
//! spelling. Reading takes no memory.
//!
//! All numbers are big-endian. A frame is its size (int32) and as many bytes. A string is its
//! length (int16) and its bytes, in UTF-8; a nullable string has the length -1 for null. An array
//! is its count (int32) and its items. A request begins with the header, version 1:
//!
//! ```text
//! api_key         int16, 8 for OffsetCommit and 9 for OffsetFetch
//! api_version     int16, 2 for OffsetCommit and 1 for OffsetFetch
//! correlation_id  int32, which the reply begins with
//! client_id       nullable string
//! ```
//!
//! What follows it, and the correlation id of a reply, is
//!
//! ```text
//! OffsetCommit request                         OffsetCommit reply
//!   group_id              string                 topics, an array of
//!   generation_id         int32                    name               string
//!   member_id             string                   partitions, an array of
//!   retention_time_ms     int64                      partition_index    int32
//!   topics, an array of                              error_code         int16
//!     name                string
//!     partitions, an array of
//!       partition_index     int32
//!       committed_offset    int64
//!       committed_metadata  nullable string
//!
//! OffsetFetch request                          OffsetFetch reply
//!   group_id              string                 topics, an array of
//!   topics, an array of                            name               string
//!     name                string                   partitions, an array of
//!     partition_index     array of int32             partition_index    int32
//!                                                    committed_offset   int64
//!                                                    metadata           nullable string
//!                                                    error_code         int16
//! ```
//!
//! (Kafka's protocol guide, "OffsetCommit", "OffsetFetch" and "Request Header"). By this project's
//! own rule a committed offset is not negative in a request, and not below -1 in a reply.
#![tactic(auto)]

mod commit;
mod commit_writing;
mod fetch;
mod fetch_writing;
mod fields;
mod frame;
mod items;
mod put;
mod topic;
mod write_fault;

pub use commit::{
    CodeItems, CodeTopics, CommitCode, CommitItem, CommitItems, CommitReply, CommitRequest,
    CommitTopics, read_commit_reply, read_commit_request,
};
pub use commit_writing::{CommitTopic, write_commit_reply, write_commit_request};
pub use fetch::{
    EntryItems, EntryTopics, FetchEntry, FetchReply, FetchRequest, PartItems, PartTopics,
    read_fetch_reply, read_fetch_request,
};
pub use fetch_writing::{FetchTopic, write_fetch_reply, write_fetch_request};
pub use items::{Items, WireItem};
pub use pc_model::WireFault;
pub use write_fault::WireWriteFault;

#[cfg(test)]
mod tests;

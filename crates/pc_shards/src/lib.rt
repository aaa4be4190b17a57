//! The polled, incomplete records of all parts, and which of a part's is the least that may be
//! dispatched by the ordering keys.
#![tactic(auto)]

mod part;
mod queues;
mod ready;
mod shard_key;
mod shards;

pub use part::EntryRef;
pub use shards::Shards;

#[cfg(test)]
mod tests;

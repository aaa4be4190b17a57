//! A broker of offsets in memory: it answers the frames of OffsetCommit and OffsetFetch, and keeps
//! for each group and part the commit that it accepted last. It is a link that tells its store.
#![tactic(auto)]

mod broker;
mod commits;
mod entries;
mod fault;
mod laws;
mod members;
mod verdict;

pub use broker::OffsetBroker;
pub use fault::BrokerFault;
pub use laws::the_store_is_the_fold_of_its_frames;
pub use members::MemberId;

#[cfg(test)]
mod tests;

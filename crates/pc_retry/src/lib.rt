//! The records that failed and wait for their ready time: which of them is due, when the next one
//! is, and which is the least of a part.
#![tactic(auto)]

mod offsets;
mod queue;

pub use queue::{Retry, RetryQueue};

#[cfg(test)]
mod tests;

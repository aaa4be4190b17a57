//! The completion state of a held part: its position, its greatest complete offset, and the bits
//! between them.
#![tactic(auto)]

mod counted;
mod counts;
mod lengths;
mod runs;
mod state;

pub use lengths::Lengths;
pub use state::PartitionState;

#[cfg(test)]
mod tests;

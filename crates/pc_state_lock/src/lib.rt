//! A lock whose value stands for a heading, which no turn changes, and a list of events, which grows.
//!
//! Threads share the lock and have a pass each. A pass knows which events it has seen and which of
//! them its own turns added, so that what each thread did stands in one history.
#![tactic(auto)]

mod bells;
mod held;
mod lock;
mod pass;
mod plays;
mod shown;
mod view;

pub use held::Held;
pub use lock::StateLock;
pub use pass::Pass;
pub use shown::Shown;

#[cfg(test)]
mod tests;

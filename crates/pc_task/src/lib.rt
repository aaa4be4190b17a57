//! Jobs: a record that a worker has in hand, the function that is run on it, and its result.
//!
//! A job is not copied and has to be spent. Its result has the outcome that its function gives.
//! Whoever takes the core writes a `Task`; the program's own is `RuleTask`.
#![tactic(auto)]

mod answer;
mod finished;
mod job;
mod task;

pub use answer::answer_of;
pub use finished::Finished;
pub use job::Job;
pub use task::{RuleTask, Task};

#[cfg(test)]
mod tests;

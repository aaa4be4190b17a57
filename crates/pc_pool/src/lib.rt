//! Many workers, one history: a run of the steps of a script over logs, by up to 256 workers.
//!
//! The workers share a run under the state lock. In its turn a worker settles, commits, polls and takes
//! a job; the function of the job is called outside of the lock.
#![tactic(auto)]

mod applied;
mod control;
mod ending;
mod jobs;
mod pool;
mod report;
mod run;
mod steps;
mod turn;
mod worker;

pub use ending::Ending;
pub use pool::consume;
pub use report::Report;

#[cfg(test)]
mod tests;

//! Checked logs by their parts, and the next records of a part.
//!
//! Clauses see the logs as a list that has at place p the records of part p, or nothing.
#![tactic(auto)]

mod fault;
mod logs;
mod polled;

pub use fault::AddFault;
pub use logs::BrokerLogs;
pub use polled::Polled;

#[cfg(test)]
mod tests;

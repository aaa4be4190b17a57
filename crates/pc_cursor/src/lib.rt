//! A log that was checked whole: batches one after the other, their offsets rising.
//!
//! A `Log` keeps one entry a batch. Records are read from the bytes when they are asked for.
#![tactic(auto)]

mod cursor;
mod entry;
mod fault;
mod log;

pub use cursor::Cursor;
pub use fault::{CheckFault, LogFault, LogFaultKind};
pub use log::Log;

#[cfg(test)]
mod tests;

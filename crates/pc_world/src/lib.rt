//! The outside of parcon as traits: files that are read, a sink that is written, and a link to a
//! broker of offsets, each with a count of its faults, and a clock. A fault is returned only where
//! the count rose.
#![tactic(auto)]

mod clock;
mod disk_files;
mod failed_reads;
mod failing_link;
mod faults;
mod files;
mod link;
mod memory_files;
mod memory_sink;
mod real_clock;
mod sink;
mod std_sink;
mod step_clock;

pub use clock::Clock;
pub use disk_files::DiskFiles;
pub use failing_link::FailingLink;
pub use files::{Files, FilesFault};
pub use link::{Link, LinkFault, MAX_FRAME_BYTES};
pub use memory_files::MemoryFiles;
pub use memory_sink::MemorySink;
pub use real_clock::RealClock;
pub use sink::{Sink, SinkFailed};
pub use std_sink::StdSink;
pub use step_clock::StepClock;

#[cfg(test)]
mod tests;

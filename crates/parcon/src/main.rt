//! parcon: plays and runs logs by a parallel consumer, and commits what is finished.
//!
//! `parcon` is the whole program but for the outside; its clauses are the promise.
#![tactic(auto)]

mod laws;
mod offline;
mod output;
mod play_setup;
mod remark;
mod run;
mod run_setup;
mod starts;
mod top;

use pc_inputs::NO_MEMORY;
use pc_model::limits::MAX_PARTS;
use pc_offset_client::TOPIC;
use pc_offset_store::OffsetBroker;
use pc_world::{DiskFiles, RealClock, StdSink};
use std::alloc::AllocError;
use std::env;
use std::io::ErrorKind;
use std::process::ExitCode;
use std::sync::Wait;
use std::thread::Threads;
use top::parcon;

#[cfg(test)]
mod tests;

fn main(rt: HostRuntime) -> ExitCode {
    match run_words(&rt, &rt) {
        Ok(code) => ExitCode::from(code),
        Err(_) => ExitCode::from(NO_MEMORY),
    }
}

/// Runs the program on the words after its name, over the disk, the clock and the standard output,
/// with a link in memory and workers that these threads are, and returns the number of its status.
fn run_words<R: Threads + Wait + Sync>(rt: &HostRuntime, threads: &R) -> Result<u8, AllocError> {
    let words = arguments(rt)?;
    let link = OffsetBroker::new(rt.alloc(), TOPIC, MAX_PARTS)?;
    let clock = RealClock::new(rt);
    let mut files = DiskFiles::new(rt.alloc(), rt);
    let mut out = StdSink::new(rt);
    let ended = parcon(
        threads,
        rt.alloc(),
        &words,
        &mut files,
        &clock,
        link,
        &mut out,
    );
    Ok(ended.status.number())
}

/// The words behind the program's name, or none, which are no command, where one is no UTF-8.
fn arguments(rt: &HostRuntime) -> Result<Vec<String>, AllocError> {
    match env::args(rt) {
        Ok(words) => words.skip(1).collect(rt.alloc()),
        Err(e) if e.kind() == ErrorKind::OutOfMemory => Err(AllocError),
        Err(_) => Ok(Vec::new(rt.alloc())),
    }
}

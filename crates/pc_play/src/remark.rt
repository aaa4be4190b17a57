//! Remarks: what a play says of the lines whose calls were refused or added no event.

use pc_engine::EngineFault;

/// What is said of a script's line.
#[derive(Clone, Copy, Debug, PartialEq, Eq)]
pub enum Notice {
    /// The engine refused the call.
    Refused(EngineFault),
    /// There was no job to take.
    NoJob,
    /// There was no record to poll.
    AtEnd,
    /// The time of a tick is not after that of the last one.
    OldTime,
    /// No job with the line's ticket is in hand.
    Stranger,
}

/// What is said of the line of a script.
#[derive(Clone, Copy, Debug, PartialEq, Eq)]
pub struct Remark {
    /// The line's number in the script, from 1 on.
    pub line: u64,
    /// What is said of it.
    pub notice: Notice,
}

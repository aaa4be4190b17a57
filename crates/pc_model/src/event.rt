//! The events of a run.

use crate::lists::Answer;
use crate::texts::MapText;

/// One step of the core, as the journal keeps it.
#[derive(Debug, Drop)]
pub enum Event {
    /// A part is taken on, and begins an epoch with what was stored for it.
    Assign {
        part: u32,
        epoch: u64,
        position: u64,
        map: MapText,
    },
    /// The next `count` records of a part were read, the last of them at offset `last`.
    Poll {
        part: u32,
        count: u32,
        last: u64,
    },
    /// A record goes to a worker as the job of this ticket. Attempts count from 1 in each epoch.
    Dispatch {
        ticket: u64,
        worker: u32,
        part: u32,
        offset: u64,
        epoch: u64,
        attempt: u32,
    },
    /// The function succeeded on the ticket's record.
    Success {
        ticket: u64,
        answer: Answer,
    },
    /// The function failed, and the record may run again from `ready_at` on.
    Failure {
        ticket: u64,
        code: u32,
        ready_at: u64,
    },
    /// A result came back for an epoch that is over.
    Stale {
        ticket: u64,
    },
    /// The position and the map were stored; `size` is the best map's length in characters.
    Commit {
        part: u32,
        position: u64,
        map: MapText,
        size: u32,
    },
    /// The same was sent and no answer came: it may be stored or not.
    CommitFailed {
        part: u32,
        position: u64,
        map: MapText,
        size: u32,
    },
    /// A part is given up after a commit, which ends this epoch.
    Revoke {
        part: u32,
        epoch: u64,
    },
    /// A part is taken away, which ends this epoch.
    Lost {
        part: u32,
        epoch: u64,
    },
    /// The process stopped: only the journal, the outstanding jobs and the store are left.
    Crash,
    /// The clock stands at this number.
    Tick {
        now: u64,
    },
    /// From here on nothing is assigned or polled.
    Drain,
    /// All records of the held parts are finished and stored.
    Done,
    /// The engine was closed.
    Closed,
}

//! What became of a result.

use pc_task::{Finished, RuleTask, Task};

/// What became of a result that the engine was given.
#[derive(Debug, Drop)]
pub enum Settled<'a, T: Task = RuleTask> {
    /// The engine has ended. Nothing changed.
    Closed(Finished<'a, T>),
    /// The engine expects no such result: no job with its ticket, part, offset, epoch and attempt
    /// is out, or its record, its rules or its function are not the engine's. Nothing changed.
    Stranger(Finished<'a, T>),
    /// The job's epoch is over. Stale was added.
    Stale,
    /// The record is complete. Success was added.
    Succeeded,
    /// The record waits for its next attempt until `ready_at`. Failure was added.
    Failed { ready_at: u64 },
}

//! A job: a record that a worker has in hand.

ghost use Rattle.std.specs.Prelude.{◌≡◌};
ghost use Rattle.pc_task.specs.Jobs.{due_outcome, plain_job};
ghost use Rattle.pc_task.specs.Results.{finished_job};

use crate::finished::Finished;
use crate::task::{RuleTask, Task};
use pc_batch::RecordRef;
use pc_model::{Outcome, Rules};

/// A record that a worker has in hand, and the function to run on it. It is not copied, and has to be
/// spent by `finish` or `abandon`.
#[derive(Debug)]
pub struct Job<'a, T = RuleTask> {
    /// The number of the dispatch, from 1 on.
    pub ticket: u64,
    /// The worker's number, below 256.
    pub worker: u32,
    pub part: u32,
    /// The epoch of the part in which the job was dispatched.
    pub epoch: u64,
    /// Which attempt of the record in that epoch this is, from 1 on.
    pub attempt: u32,
    /// The record, lent from its log.
    pub entry: RecordRef<'a>,
    /// The rules of the setup.
    pub rules: &'a Rules,
    /// The function.
    pub task: &'a T,
}

impl<'a, T: Task> Job<'a, T> {
    /// The job with the outcome that its function gives.
    pub fn finish(self, outcome: Outcome) -> Finished<'a, T>
        requires { outcome ≡ due_outcome (T.outcome self.task.now) (plain_job self) }
        ensures job { finished_job result ≡ plain_job self.entry }
        ensures task { result.task ≡ self.entry.task }
        ensures outcome { result.outcome ≡ outcome }
    {
        let Job {
            ticket,
            worker,
            part,
            epoch,
            attempt,
            entry,
            rules,
            task,
        } = self;
        Finished {
            ticket,
            worker,
            part,
            epoch,
            attempt,
            entry,
            rules,
            task,
            outcome,
        }
    }
}

impl<'a, T> Job<'a, T> {
    /// Lets the job go without a result.
    pub fn abandon(self) {
        let Job {
            ticket: _,
            worker: _,
            part: _,
            epoch: _,
            attempt: _,
            entry: _,
            rules: _,
            task: _,
        } = self;
    }
}

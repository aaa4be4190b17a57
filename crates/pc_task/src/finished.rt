//! The result of a job.

ghost use Rattle.std.specs.Prelude.{◌≡◌, ◌↔◌, IfOk, IsTrue};
ghost use Rattle.pc_batch.specs.Record.{plain};

use crate::task::{RuleTask, Task};
use pc_batch::RecordRef;
use pc_model::{Answer, FailRule, Outcome, Rules};
use std::alloc::{AllocError, Global};

/// A job that was worked on, with the outcome that its function gives.
#[derive(Debug, Drop)]
pub struct Finished<'a, T: Task = RuleTask> {
    pub ticket: u64,
    pub worker: u32,
    pub part: u32,
    pub epoch: u64,
    pub attempt: u32,
    pub entry: RecordRef<'a>,
    pub rules: &'a Rules,
    pub task: &'a T,
    pub outcome: Outcome,
    pub ghost by_task: { outcome ≡ T.outcome task.now rules.now part (plain entry) attempt },
}

impl<'a, T: Task> Finished<'a, T> {
    ghost use Rattle.pc_task.specs.Results.{finished_job};

    /// A copy of the result. The only error is out of memory.
    pub fn copy(&self, alloc: Global) -> Result<Finished<'a, T>, AllocError>
        ensures job { IfOk result (λ done. finished_job done ≡ finished_job self.now) }
        ensures task { IfOk result (λ done. done.task ≡ self.now.task) }
        ensures outcome { IfOk result (λ done. done.outcome ≡ self.now.outcome) }
    {
        Ok(Finished {
            ticket: self.ticket,
            worker: self.worker,
            part: self.part,
            epoch: self.epoch,
            attempt: self.attempt,
            entry: self.entry,
            rules: self.rules,
            task: self.task,
            outcome: copy_of(alloc, &self.outcome)?,
        })
    }

    /// Whether the result is of this record under these rules, compared as values.
    pub fn is_of(&self, entry: &RecordRef<'_>, rules: &Rules) -> bool
        ensures { IsTrue result
            ↔ ((plain self.now.entry ≡ plain entry.now) × (self.now.rules.now ≡ rules.now)) }
    {
        self.entry.is_same(entry) && same_rules(self.rules, rules)
    }
}

/// Whether both rules have the same function and the same records that fail, in the same order.
fn same_rules(one: &Rules, other: &Rules) -> bool
    ensures { IsTrue result ↔ (one.now ≡ other.now) }
{
    one.work == other.work && same_fails(one.fails.as_slice(), other.fails.as_slice())
}

/// Whether both are the same rules in the same order.
fn same_fails(one: &[FailRule], other: &[FailRule]) -> bool
    ensures { IsTrue result ↔ (one.now ≡ other.now) }
{
    one == other
}

/// A copy of an outcome.
fn copy_of(alloc: Global, outcome: &Outcome) -> Result<Outcome, AllocError>
    ensures { IfOk result (λ copy. copy ≡ outcome.now) }
{
    match outcome {
        Outcome::Good(answer) => Ok(Outcome::Good(Answer::from_slice(alloc, answer.as_slice())?)),
        Outcome::Bad(code) => Ok(Outcome::Bad(*code)),
    }
}

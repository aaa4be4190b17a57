//! The jobs in hand: those that were taken and not ended, by their tickets.

ghost use Rattle.std.specs.Prelude.{◌≡◌, ◌∷◌, List, [], OnOk, option_map};
ghost use Rattle.pc_task.specs.Jobs.{PlainJob, plain_job};
ghost use Rattle.pc_play.specs.Hand.{AreIn, job_with, without};

use pc_task::Job;
use std::alloc::{AllocError, Global};
use std::collections::HashMap;

/// The jobs in hand. They are not dropped: what is left of them is given up by `abandon`.
pub(crate) struct Hand<'a> {
    jobs: HashMap<u64, Job<'a>>,
}

impl<'a> Hand<'a> {
    /// No job is in hand.
    pub(crate) fn new(alloc: Global) -> Hand<'a>
        ensures { AreIn result [] }
    {
        Hand {
            jobs: HashMap::new(alloc),
        }
    }

    /// A job comes into hand. When out of memory it is given up.
    pub(crate) fn add(&mut self, job: Job<'a>) -> Result<(), AllocError>
        ensures { OnOk result ((jobs : List PlainJob) → AreIn self.old jobs
            → AreIn self.new (plain_job job.entry ∷ jobs)) }
    {
        match self.jobs.insert(job.ticket, job) {
            Ok(None) => Ok(()),
            Ok(Some(other)) => {
                other.abandon();
                Ok(())
            }
            Err(failed) => {
                let (_, job) = failed.value;
                job.abandon();
                Err(AllocError)
            }
        }
    }

    /// The job with a ticket, which is then no longer in hand.
    pub(crate) fn remove(&mut self, ticket: u64) -> Option<Job<'a>>
        ensures job { (jobs : List PlainJob) → AreIn self.old jobs
            → option_map plain_job result ≡ job_with ticket jobs }
        ensures others { (jobs : List PlainJob) → AreIn self.old jobs
            → AreIn self.new (without ticket jobs) }
    {
        self.jobs.remove(&ticket)
    }

    /// Gives all jobs up.
    pub(crate) fn abandon(self) {
        let Hand { mut jobs } = self;
        while let Some(ticket) = jobs.keys().next().copied() {
            match jobs.remove(&ticket) {
                Some(job) => job.abandon(),
                None => unreachable!(),
            }
        }
        jobs.destroy_empty();
    }
}

//! The jobs that are out, by their tickets. `AreOpen` says which history that is.

ghost use Rattle.std.specs.Prelude.{◌≡◌, ℕ, ◌+◌, List, [], ◌∷◌, Bool, true, false, ◌==◌, OnErr, OnOk, length, option_map, is_some};
ghost use Rattle.pc_model.specs.declared.event.Event.{Event};
ghost use Rattle.pc_model.specs.declared.event.Event.TheVariants.{Dispatch};
ghost use Rattle.pc_model.specs.Jobs.{is_settled, jobs_of, open_jobs, settles};
ghost use Rattle.pc_state.specs.OpenJobs.{AreOpen, open_job, kept_job};

use std::alloc::{AllocError, Global};
use std::collections::HashMap;

/// A job that is out, as far as its result has to agree with it.
#[derive(Clone, Copy, Debug, PartialEq, Eq)]
pub struct OpenJob {
    pub part: u32,
    pub offset: u64,
    pub epoch: u64,
    pub attempt: u32,
}

/// The jobs that are out, by their tickets.
#[derive(Drop)]
pub struct OpenJobs {
    pub jobs: HashMap<u64, OpenJob>,
}

impl OpenJobs {
    /// No job is out.
    pub fn new(alloc: Global) -> OpenJobs
        ensures { (h : List Event) → open_jobs h ≡ [] → AreOpen h result }
    {
        OpenJobs {
            jobs: HashMap::new(alloc),
        }
    }

    /// How many jobs are out.
    pub fn len(&self) -> u64
        ensures { (h : List Event) → AreOpen h self.now → result ≡ length (open_jobs h) }
    {
        self.jobs.len() as u64
    }

    /// The job of a ticket, if it is out.
    pub fn get(&self, ticket: u64) -> Option<OpenJob>
        ensures { (h : List Event) → AreOpen h self.now
            → result ≡ option_map kept_job (open_job h ticket) }
    {
        self.jobs.get(&ticket).copied()
    }

    /// One more job is out, with a new ticket. Out of memory, the same are out as before.
    pub fn add(&mut self, ticket: u64, job: OpenJob) -> Result<(), AllocError>
        ensures added { OnOk result ((h : List Event) (worker : ℕ) → AreOpen h self.old
            → is_settled h ticket ≡ false → open_job h ticket ≡ None → AreOpen
            (Dispatch ticket worker job.part job.offset job.epoch job.attempt ∷ h) self.new) }
        ensures stays { OnErr result ((h : List Event) → AreOpen h self.old → AreOpen h self.new) }
    {
        self.jobs.insert(ticket, job)?;
        Ok(())
    }

    /// The job of a ticket that was out has its result. Takes no memory.
    pub fn remove(&mut self, ticket: u64)
        ensures { (h : List Event) (event : Event) → AreOpen h self.old
            → is_some (open_job h ticket) ≡ true → jobs_of (event ∷ h) ≡ jobs_of h
            → ((t : ℕ) → settles event t ≡ (ticket == t))
            → length (open_jobs (event ∷ h)) + 1 ≡ length (open_jobs h)
            → AreOpen (event ∷ h) self.new }
    {
        let _ = self.jobs.remove(&ticket);
    }
}

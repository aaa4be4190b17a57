//! Which results are expected, and what they change.

ghost use Rattle.std.specs.Prelude.{◌≡◌, ◌↔◌, ℕ, IsTrue, List, [], ◌∷◌, Option, true, false, not, nat_lt, Some, option_map};
ghost use Rattle.std.specs.Option.{option_map_or};
ghost use Rattle.pc_model.specs.declared.event.Event.{Event};
ghost use Rattle.pc_model.specs.declared.event.Event.TheVariants.{Failure, Stale, Success};
ghost use Rattle.pc_model.specs.Given.{Given, record_at};
ghost use Rattle.pc_model.specs.Epochs.{epoch_of, is_held};
ghost use Rattle.pc_batch.specs.Record.{plain};
ghost use Rattle.pc_shards.specs.Entries.{entry_at, of_part};
ghost use Rattle.pc_task.specs.Results.{finished_job};
ghost use Rattle.pc_state.specs.Calls.{IsExpected};
ghost use Rattle.pc_state.specs.OpenJobs.{kept_job, open_job};
ghost use Rattle.pc_state.specs.declared.jobs.OpenJob.{OpenJob};
ghost use Rattle.pc_state.specs.State.{Knows, MayCome};

use crate::jobs::OpenJob;
use crate::state::State;
use pc_batch::RecordRef;
use pc_task::{Finished, Task};

impl<'a> State<'a> {
    /// Whether the result is of a job that is out, of the log's record and by the setup's rules.
    pub fn expects<T: Task>(&self, done: &Finished<'a, T>) -> bool
        ensures { (given : Given) (h : List Event) → Knows given h self.now
            → (IsTrue result ↔ IsExpected given h (finished_job done.now)) }
    {
        let job = OpenJob {
            part: done.part,
            offset: done.entry.offset,
            epoch: done.epoch,
            attempt: done.attempt,
        };
        if self.jobs.get(done.ticket) != Some(job) {
            return false;
        }
        match self.record(done.part, done.entry.offset) {
            Some(entry) => done.is_of(&entry, &self.setup.settings.rules),
            None => false,
        }
    }

    /// The log's record at the offset, if there is one. One that was polled in the part's present
    /// epoch and is incomplete is found without reading the log.
    fn record(&self, part: u32, offset: u64) -> Option<RecordRef<'_>>
        ensures { (given : Given) (h : List Event) → Knows given h self.now
            → option_map plain result ≡ record_at given part offset }
    {
        match self.shards.entry(part, offset) {
            Some(entry) => Some(entry.record),
            None => self.logs.record(part, offset),
        }
    }

    /// The job of a ticket that is out succeeded, in the part's present epoch.
    pub fn succeed(&mut self, ticket: u64, part: u32, offset: u64)
        requires { (given : Given) × (h : List Event) × (job : OpenJob) × Knows given h self.old
            × (option_map kept_job (open_job h ticket) ≡ Some job) × (job.part ≡ part)
            × (job.offset ≡ offset) × (job.epoch ≡ epoch_of h part) × (is_held h part ≡ true) }
        ensures { (given : Given) (h : List Event) (job : OpenJob) (answer : List ℕ)
            → Knows given h self.old → option_map kept_job (open_job h ticket) ≡ Some job
            → job.part ≡ part → job.offset ≡ offset → job.epoch ≡ epoch_of h part
            → is_held h part ≡ true → MayCome given (Success ticket answer) h
            → Knows given (Success ticket answer ∷ h) self.new }
    {
        self.jobs.remove(ticket);
        self.ledger.succeed(part);
        self.shards.done(part, offset);
        if let Some(held) = &mut self.parts[part as usize].held {
            held.window.succeed(offset);
        }
    }

    /// The job of a ticket that is out failed, in the part's present epoch. Its record waits until
    /// `ready_at`, unless it has no attempt left. Takes no memory.
    pub fn fail(&mut self, ticket: u64, part: u32, offset: u64, ready_at: u64)
        requires { (given : Given) × (h : List Event) × (job : OpenJob) × Knows given h self.old
            × (option_map kept_job (open_job h ticket) ≡ Some job) × (job.part ≡ part)
            × (job.offset ≡ offset) × (job.epoch ≡ epoch_of h part) × (is_held h part ≡ true) }
        ensures { (given : Given) (h : List Event) (job : OpenJob) (code : ℕ)
            → Knows given h self.old → option_map kept_job (open_job h ticket) ≡ Some job
            → job.part ≡ part → job.offset ≡ offset → job.epoch ≡ epoch_of h part
            → is_held h part ≡ true → MayCome given (Failure ticket code ready_at) h
            → Knows given (Failure ticket code ready_at ∷ h) self.new }
    {
        self.jobs.remove(ticket);
        self.ledger.count_failure(part, offset);
        self.shards.fail(part, offset);
        if self.is_spent(part, offset) {
            return;
        }
        if self.clock < ready_at {
            self.retries.put(ready_at, part, offset);
        } else {
            self.shards.free(part, offset);
        }
    }

    // Whether the record at the offset has no attempt left.
    fn is_spent(&self, part: u32, offset: u64) -> bool
        ensures { result ≡ option_map_or (λ e. not (nat_lt e.failures self.now.setup.now.settings.give_up))
            (entry_at offset (of_part self.now.shards part)) false }
    {
        match self.shards.entry(part, offset) {
            Some(entry) => entry.failures >= self.setup.settings.give_up,
            None => false,
        }
    }

    /// The result of a job that is out came too late.
    pub fn forget(&mut self, ticket: u64)
        ensures { (given : Given) (h : List Event) → Knows given h self.old
            → MayCome given (Stale ticket) h → Knows given (Stale ticket ∷ h) self.new }
    {
        self.jobs.remove(ticket);
    }
}

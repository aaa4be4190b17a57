//! What is asked of an engine between its calls. The answers are those of the definitions, and none
//! is found by a look through the events or the records.

ghost use Rattle.std.specs.Prelude.{◌≡◌, length};
ghost use Rattle.pc_model.specs.Jobs.{open_jobs};
ghost use Rattle.pc_model.specs.Retry.{failures_of};
ghost use Rattle.pc_model.specs.Run.{is_at_rest, is_commit_due, is_unsaved, next_time, poll_number, success_count};

use crate::engine::Engine;
use pc_task::Task;
use pc_world::Link;

impl<'a, L: Link, T: Task> Engine<'a, L, T> {
    ghost use Rattle.std.specs.Prelude.{◌≡◌};
    ghost use Rattle.pc_engine.specs.Engine.{given_of};

    /// How many events there are: at most 4,000,000.
    pub fn events(&self) -> u64
        ensures { result ≡ length self.now.journal.events }
    {
        self.journal.len()
    }

    /// How many jobs were taken whose results are still to come, those that will come too late among
    /// them.
    pub fn outstanding(&self) -> u64
        ensures { result ≡ length (open_jobs self.now.journal.events) }
    {
        self.state.outstanding()
    }

    /// How many successes there are.
    pub fn successes(&self) -> u64
        ensures { result ≡ success_count self.now.journal.events }
    {
        self.state.ledger.successes
    }

    /// How many records to poll of the part next: as many as the buffer has places left for, and at
    /// most the setup's `poll_max`. None where the part is not held or all of it was polled, where the
    /// engine drains, where the part is blocked and the next record is above its greatest complete
    /// offset, or where the buffer has no place left.
    pub fn poll_open(&self, part: u32) -> Option<u32>
        ensures { result ≡ poll_number (given_of T.outcome self.now) self.now.journal.events part }
    {
        self.state.poll_open(part)
    }

    /// Whether the part is held and to be committed now: as many of its records succeeded since its
    /// last commit as the setup says, or it is blocked and one did.
    pub fn commit_due(&self, part: u32) -> bool
        ensures { result ≡ is_commit_due (given_of T.outcome self.now) self.now.journal.events part }
    {
        self.state.commit_due(part)
    }

    /// Whether the part is held and has something that is not stored for certain.
    pub fn unsaved(&self, part: u32) -> bool
        ensures { result ≡ is_unsaved (given_of T.outcome self.now) self.now.journal.events part }
    {
        self.state.unsaved(part)
    }

    /// The least time in milliseconds until which a record waits, after its failure. None where no
    /// record waits.
    pub fn next_time(&self) -> Option<u64>
        ensures { result ≡ next_time (given_of T.outcome self.now) self.now.journal.events }
    {
        self.state.next_time()
    }

    /// Whether nothing is left to do: no current job is out, and of no held part a commit is due, a
    /// poll is open, or a polled record is incomplete that is not given up.
    pub fn at_rest(&self) -> bool
        ensures { result ≡ is_at_rest (given_of T.outcome self.now) self.now.journal.events }
    {
        self.state.at_rest()
    }

    /// How often the record at the offset failed in the part's present epoch. 0 where there is none.
    pub fn failures(&self, part: u32, offset: u64) -> u32
        ensures { result ≡ failures_of self.now.journal.events part offset }
    {
        self.state.failures(part, offset)
    }
}

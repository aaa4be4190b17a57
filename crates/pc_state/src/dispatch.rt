//! Which record is next, and what a dispatch of it changes.

ghost use Rattle.std.specs.Prelude.{◌≡◌, ◌≤◌, ◌-◌, ◌+◌, ◌<◌, ℕ, List, [], ◌∷◌, Option, true, false, None, Some, IfOk, OnOk, OnErr, length};
ghost use Rattle.std.specs.List.{range_with_len};
ghost use Rattle.pc_model.specs.declared.event.Event.{Event};
ghost use Rattle.pc_model.specs.declared.event.Event.TheVariants.{Dispatch};
ghost use Rattle.pc_model.specs.Given.{Given};
ghost use Rattle.pc_model.specs.Jobs.{dispatch_count, open_jobs};
ghost use Rattle.pc_model.specs.Numbers.{first_some, least_of};
ghost use Rattle.pc_model.specs.Epochs.{epoch_of, is_held};
ghost use Rattle.pc_model.specs.Retry.{failures_of};
ghost use Rattle.pc_model.specs.Next.{eligible_offsets, next_of_part, next_record};
ghost use Rattle.pc_task.specs.Jobs.{plain_job};
ghost use Rattle.pc_retry.specs.Waiting.{room_of};
ghost use Rattle.pc_state.specs.Calls.{job_to_do};
ghost use Rattle.pc_state.specs.Ledger.{HasPlace};
ghost use Rattle.pc_state.specs.OpenJobs.{out_of};
ghost use Rattle.pc_state.specs.State.{Knows, MayCome};

use crate::jobs::OpenJob;
use crate::state::State;
use pc_task::Job;
use std::alloc::AllocError;

impl<'a> State<'a> {
    /// The least offset of the part that may be dispatched.
    fn ready(&self, part: u32) -> Option<u64>
        ensures { (given : Given) (h : List Event) → Knows given h self.now
            → result ≡ least_of (eligible_offsets given h part) }
    {
        let offset = self.shards.least_ready(part)?;
        match self.pressing(part) {
            Some(high) if high <= offset => None,
            _ => Some(offset),
        }
    }

    /// The first of these parts that has a record to dispatch, and its least offset.
    fn next_within(&self, from: u32, to: u32) -> Option<(u32, u64)>
        ensures { (given : Given) (h : List Event) → Knows given h self.now → from ≤ to
            → result ≡ first_some (next_of_part given h) (range_with_len from (to - from)) }
    {
        for part in from..to {
            if let Some(offset) = self.ready(part) {
                return Some((part, offset));
            }
        }
        None
    }

    /// The part and the offset of the record to dispatch, if there is one: of the first part, in
    /// cyclic order after that of the last dispatch, that has one, the least.
    pub fn next(&self) -> Option<(u32, u64)>
        ensures { (given : Given) (h : List Event) → Knows given h self.now
            → result ≡ next_record given h }
    {
        let parts = self.logs.parts();
        let from = match self.last {
            Some(last) => parts.min(last.saturating_add(1)),
            None => 0,
        };
        match self.next_within(from, parts) {
            Some(next) => Some(next),
            None => self.next_within(0, from),
        }
    }

    /// Makes the places that a job of a held part needs for its failure. The only error is out of
    /// memory; in either case the same is known.
    fn make_places(&mut self, part: u32) -> Result<(), AllocError>
        requires { (given : Given) × (h : List Event) × Knows given h self.old
            × (is_held h part ≡ true) }
        ensures retries { OnOk result ((given : Given) (h : List Event) → Knows given h self.old
            → length (open_jobs h) + 1 ≤ self.new.retries.room) }
        ensures part { OnOk result ((given : Given) (h : List Event) → Knows given h self.old
            → is_held h part ≡ true → out_of h part + 1 ≤ room_of self.new.retries part) }
        ensures failed { OnOk result (HasPlace part self.new.ledger) }
        ensures stays { (given : Given) (h : List Event) → Knows given h self.old
            → Knows given h self.new }
    {
        self.retries.reserve(self.jobs.len() as u32 + 1)?;
        let out = self.ledger.make_place(part)?;
        self.retries.reserve_part(part, out)?;
        Ok(())
    }

    /// Dispatches the next record to a worker, with the function to run on it. The only error is
    /// out of memory, after which the state is as before.
    pub fn dispatch<T>(
        &mut self,
        task: &'a T,
        worker: u32,
        part: u32,
        offset: u64,
    ) -> Result<Job<'a, T>, AllocError>
        requires { (given : Given) × (h : List Event) × Knows given h self.old
            × (next_record given h ≡ Some (part, offset)) }
        ensures job { IfOk result (λ job. (given : Given) (h : List Event) → Knows given h self.old
            → next_record given h ≡ Some (part, offset)
            → plain_job job ≡ job_to_do given h worker part offset) }
        ensures task { IfOk result (λ job. job.task.now ≡ task.now) }
        ensures dispatched { OnOk result ((given : Given) (h : List Event) → Knows given h self.old
            → next_record given h ≡ Some (part, offset)
            → MayCome given (Dispatch (dispatch_count h + 1) worker part offset (epoch_of h part)
            (failures_of h part offset + 1)) h
            → Knows given (Dispatch (dispatch_count h + 1) worker part offset (epoch_of h part)
            (failures_of h part offset + 1) ∷ h) self.new) }
        ensures stays { OnErr result ((given : Given) (h : List Event) → Knows given h self.old
            → Knows given h self.new) }
    {
        self.make_places(part)?;
        let Some(entry) = self.shards.entry(part, offset) else {
            unreachable!();
        };
        let ticket = self.dispatched + 1;
        let epoch = self.parts[part as usize].epoch;
        let attempt = entry.failures + 1;
        self.jobs.add(
            ticket,
            OpenJob {
                part,
                offset,
                epoch,
                attempt,
            },
        )?;
        self.ledger.dispatch(part);
        self.shards.busy(part, offset);
        self.dispatched = ticket;
        self.last = Some(part);
        Ok(Job {
            ticket,
            worker,
            part,
            epoch,
            attempt,
            entry: entry.record,
            rules: &self.setup.settings.rules,
            task,
        })
    }
}

//! What is asked of a state to find what to do next: which polls are open, when a retry is due, and
//! whether the run is at rest. No question goes by how many records are open.

ghost use Rattle.std.specs.Prelude.{◌≡◌, ℕ, ◌&&◌, ◌||◌, not, nat_le, List, Option, None, Some, true, false, is_none, if◌then◌else◌, slice_get};
ghost use Rattle.std.specs.List.{list_all};
ghost use Rattle.std.specs.Option.{option_map_or};
ghost use Rattle.pc_model.specs.declared.event.Event.{Event};
ghost use Rattle.pc_model.specs.Given.{Given};
ghost use Rattle.pc_model.specs.Epochs.{is_held};
ghost use Rattle.pc_model.specs.Known.{unpolled_records};
ghost use Rattle.pc_model.specs.Retry.{failures_of};
ghost use Rattle.pc_model.specs.Run.{is_at_rest, is_given_up, may_poll_next, next_time, open_records, poll_number};
ghost use Rattle.pc_state.specs.OpenJobs.{out_of};
ghost use Rattle.pc_state.specs.Rest.{rests};
ghost use Rattle.pc_state.specs.State.{Knows};

use crate::state::State;

impl<'a> State<'a> {
    /// How often the record at the offset failed in the part's present epoch.
    pub fn failures(&self, part: u32, offset: u64) -> u32
        ensures { (given : Given) (h : List Event) → Knows given h self.now
            → result ≡ failures_of h part offset }
    {
        let Some((_held, kept)) = self.held_part(part) else {
            return 0;
        };
        kept.failed.get(&offset).copied().unwrap_or(0)
    }

    /// How many records to poll of the part, where its poll is open: it is held, nothing drains, a
    /// record is left that may be polled, and fewer polled records are open than the buffer takes.
    pub fn poll_open(&self, part: u32) -> Option<u32>
        ensures { (given : Given) (h : List Event) → Knows given h self.now
            → result ≡ poll_number given h part }
    {
        let room = (self.setup.settings.buffer as usize).saturating_sub(self.shards.count(part));
        if room == 0 || self.ledger.drains || !self.may_poll(part) {
            return None;
        }
        Some(self.setup.settings.poll_max.min(room as u32))
    }

    /// The least time that is still to come until which a record waits.
    pub fn next_time(&self) -> Option<u64>
        ensures { (given : Given) (h : List Event) → Knows given h self.now
            → result ≡ next_time given h }
    {
        self.retries.next_time()
    }

    /// Whether the run is at rest: no current job is out, and of no held part is a commit due, a poll
    /// open, or an open record not given up.
    pub fn at_rest(&self) -> bool
        ensures { (given : Given) (h : List Event) → Knows given h self.now
            → result ≡ is_at_rest given h }
    {
        for part in 0..self.logs.parts() {
            if !self.rests(part) {
                return false;
            }
        }
        true
    }

    // Whether the part is not held, or no job of it is out and nothing is left to do of it.
    fn rests(&self, part: u32) -> bool
        ensures { (given : Given) (h : List Event) → Knows given h self.now
            → result ≡ rests given h part }
    {
        let Some((_held, kept)) = self.held_part(part) else {
            return true;
        };
        kept.out == 0
            && !self.commit_due(part)
            && self.poll_open(part).is_none()
            && !self.goes_on(part)
    }

    // Whether a record of a held part, of which no job is out, is open and not given up: one may be
    // dispatched or waits for its time, and under pressure lies below the part's high.
    fn goes_on(&self, part: u32) -> bool
        ensures { (given : Given) (h : List Event) → Knows given h self.now
            → is_held h part ≡ true → out_of h part ≡ 0
            → result ≡ not (list_all (is_given_up given h part) (open_records given h part)) }
    {
        let upto = self.pressing(part).unwrap_or(u64::MAX);
        is_upto(self.shards.least_ready(part), upto) || is_upto(self.retries.least(part), upto)
    }

    // Whether the part is held and its next record may be polled.
    fn may_poll(&self, part: u32) -> bool
        ensures { (given : Given) (h : List Event) → Knows given h self.now
            → result ≡ (is_held h part
            && may_poll_next given h part (slice_get (unpolled_records given h part) 0)) }
    {
        let Some(_held) = self.held(part) else {
            return false;
        };
        let Some(first) = self.first_left(part) else {
            return false;
        };
        match self.pressing(part) {
            Some(high) => first <= high,
            None => true,
        }
    }
}

/// Whether there is an offset, and it is not above the last.
fn is_upto(offset: Option<u64>, last: u64) -> bool
    ensures { result ≡ option_map_or (λ o. nat_le o last) offset false }
{
    match offset {
        Some(offset) => offset <= last,
        None => false,
    }
}

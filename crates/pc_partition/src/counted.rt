//! Runs of incomplete offsets, with the greatest complete offset and what is counted up to it.

ghost use Rattle.std.specs.Prelude.{◌≡◌, ℕ, ◌+◌, ◌-◌, ◌^◌, ◌<◌, ◌≤◌, ◌==◌, [], true, Some, None, IfOk, max, length, vec_capacity};
ghost use Rattle.std.specs.List.{list_any};
ghost use Rattle.std.specs.Option.{option_map_or};
ghost use Rattle.pc_model.specs.Bits.{AreRuns};
ghost use Rattle.pc_partition.specs.Counts.{AreCounted, HasPart, IsCounted, IsPart, counts_of, end_of, runs_below, runs_upto};
ghost use Rattle.pc_partition.specs.Runs.{TakesOut, offsets_in};

use crate::counts::Counts;
use crate::runs;
use std::alloc::{AllocError, Global};

/// Runs with the greatest complete offset.
///
/// A call looks at the runs beside the offset alone, and at those that the greatest complete offset
/// passes. That offset never falls, so it passes each run once: taken over all calls, a call costs
/// two binary searches, a move of the buffer's tail, and a few runs to look at.
#[derive(Debug, Drop)]
pub struct CountedRuns {
    /// The runs of incomplete offsets.
    pub list: Vec<(u64, u64)>,
    /// The greatest complete offset.
    pub high: Option<u64>,
    /// The counts of the runs up to the greatest complete offset.
    pub counts: Counts,
}

impl CountedRuns {
    /// No runs, with room for this many.
    pub fn with_capacity(alloc: Global, room: usize) -> Result<CountedRuns, AllocError>
        ensures runs { IfOk result (λ runs. runs.list.items ≡ []) }
        ensures high { IfOk result (λ runs. runs.high ≡ None) }
        ensures counts { IfOk result (λ runs. runs.counts ≡ counts_of 0 []) }
        ensures room { IfOk result (λ runs. vec_capacity runs.list ≡ room) }
    {
        Ok(CountedRuns {
            list: Vec::with_capacity(alloc, room)?,
            high: None,
            counts: Counts::none(),
        })
    }

    /// Takes the offset, which is complete from now on, out of its run. Takes no memory.
    pub fn complete(&mut self, offset: u64)
        requires counted { IsCounted self.old.list.items self.old.high self.old.counts }
        requires has { list_any (λ o. o == offset) (offsets_in self.old.list.items) ≡ true }
        requires room { length (offsets_in self.old.list.items) ≤ vec_capacity self.old.list }
        ensures taken { TakesOut offset (offsets_in self.old.list.items)
            (offsets_in self.new.list.items) }
        ensures in_order { (least count : ℕ) → AreRuns least count self.old.list.items
            → AreRuns least count self.new.list.items }
        ensures high { self.new.high ≡ Some (option_map_or (max offset) self.old.high offset) }
        ensures counts { AreCounted self.new.high self.new.list.items self.new.counts }
        ensures capacity { vec_capacity self.old.list ≤ vec_capacity self.new.list }
    {
        let at = runs::place_of(self.list.as_slice(), offset);
        let first = at.min(self.counts.runs).saturating_sub(1);
        let behind = self.counts.runs.saturating_sub(at + 1);
        let old = self.part(first, behind);
        runs::cut(&mut self.list, at, offset);
        self.pass(greatest(self.high, offset));
        let new = self.part(first, behind);
        self.counts.replace(&old, &new);
    }

    /// Completes an offset above all runs. Takes no memory.
    pub fn complete_above(&mut self, offset: u64)
        requires counted { IsCounted self.old.list.items self.old.high self.old.counts }
        requires above { AreRuns 0 offset self.old.list.items }
        requires small { offset < 2 ^ 63 - 1 }
        ensures list { self.new.list ≡ self.old.list }
        ensures high { self.new.high ≡ Some offset }
        ensures counts { AreCounted self.new.high self.new.list.items self.new.counts }
    {
        let first = self.counts.runs.saturating_sub(1);
        let old = self.part(first, 0);
        self.pass(offset);
        let new = self.part(first, 0);
        self.counts.replace(&old, &new);
    }

    // Sets the greatest complete offset, and the number of runs up to it.
    fn pass(&mut self, high: u64)
        requires { AreRuns 0 (2 ^ 63) self.old.list.items }
        ensures list { self.new.list ≡ self.old.list }
        ensures high { self.new.high ≡ Some high }
        ensures runs { self.new.counts.runs ≡ length (runs_below high self.old.list.items) }
        ensures few { self.new.counts.runs ≤ 2 ^ 59 }
        ensures long { self.new.counts.long ≡ self.old.counts.long }
        ensures long_2 { self.new.counts.long_2 ≡ self.old.counts.long_2 }
    {
        self.high = Some(high);
        self.counts.runs = runs::count_upto(self.list.as_slice(), high);
    }

    // The counts of the runs from an index on, but for this many of the last up to the greatest
    // complete offset.
    fn part(&self, first: usize, behind: usize) -> Counts
        requires { HasPart first behind self.now.high self.now.list.items self.now.counts.runs }
        ensures { IsPart first behind (end_of self.now.high)
            (runs_upto self.now.high self.now.list.items) result }
    {
        let upto = &self.list[..self.counts.runs];
        Counts::of_part(upto, end_behind(self.high), first, behind)
    }
}

// Where the bits end.
fn end_behind(high: Option<u64>) -> u64
    requires { end_of high ≤ 2 ^ 63 }
    ensures { result ≡ end_of high }
{
    match high {
        Some(high) => high + 1,
        None => 0,
    }
}

// The greatest of the offset and of another, if there is one.
fn greatest(other: Option<u64>, offset: u64) -> u64
    ensures { result ≡ option_map_or (max offset) other offset }
{
    match other {
        Some(other) => offset.max(other),
        None => offset,
    }
}

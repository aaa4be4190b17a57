//! The state of a held part. Clauses see which known offsets are incomplete, the greatest complete
//! one, and where the known and the polled ones end; `StandsFor` says of which begin and marks, of
//! which the first n were polled, that is the state.

ghost use Rattle.std.specs.Prelude.{◌≡◌, ℕ, ◌+◌, ◌-◌, ◌^◌, ◌<◌, ◌≤◌, ◌==◌, [], ◌∷◌, not, true, List, map, take, length, IfOk, IsOk, OnErr, OnOk, nat_le, ◌||◌};
ghost use Rattle.std.specs.List.{list_any};
ghost use Rattle.std.specs.Option.{option_map, unwrap_or};
ghost use Rattle.pc_model.specs.Numbers.{least_of};
ghost use Rattle.pc_model.specs.Marks.{Mark, bits_at, end_at, high_at, incomplete_offsets, position_at};
ghost use Rattle.pc_model.specs.OneMore.{with_complete};
ghost use Rattle.pc_partition.specs.Lengths.{lengths_of};
ghost use Rattle.pc_partition.specs.Window.{AreNext, RisesFrom, StandsFor, inherit_window, marks_of_pairs, open_polled, poll_window, some_bits, succeed_window, with_polled};

use crate::counted::CountedRuns;
use crate::lengths::{self, Lengths};
use crate::runs;
use pc_model::Bits;
use std::alloc::{AllocError, Global};
use std::marker::Model;

/// Which known offsets of a part are complete. The memory goes by the number of incomplete ones.
#[derive(Debug, Drop)]
pub struct PartitionState {
    // The runs of incomplete offsets, with a place for each incomplete offset, the greatest
    // complete offset, and the counts up to it. The window begins with the first run.
    runs: CountedRuns,
    // The offset after the known ones.
    after: u64,
    // The offset after the polled ones.
    polled_to: u64,
    // How many polled offsets are incomplete.
    pending: u32,
    // How many offsets are incomplete.
    left: usize,
}

impl Model for PartitionState {
    ghost use Rattle.std.specs.Prelude.{◌-◌, vec_capacity};
    ghost use Rattle.pc_partition.specs.Runs.{offsets_in};
    ghost use Rattle.pc_partition.specs.Window.{IsState, PartitionView};

    ghost Value = { PartitionView };

    ghost view = { λ s. record {
      window = record {
        incomplete = offsets_in s.runs.list.items;
        high = s.runs.high;
        after = s.after;
        polled_to = s.polled_to;
      };
      room = vec_capacity s.runs.list - s.left;
    } };

    ghost invariant = { λ s. IsState s.runs.list.items s.runs.high s.runs.counts s.after
        s.polled_to s.pending s.left (vec_capacity s.runs.list) };
}

impl PartitionState {
    /// The state at an assignment: for each offset that its map says something about, whether it is
    /// complete. None was polled yet.
    pub fn start(
        alloc: Global,
        begin: u64,
        inherited: &[(u64, bool)],
    ) -> Result<PartitionState, AllocError>
        requires { RisesFrom begin (map (λ pair. pair.0) inherited.now) }
        ensures { IfOk result
            (λ s. StandsFor s.window begin 0 (marks_of_pairs inherited.now)) }
    {
        let mut state = PartitionState {
            runs: CountedRuns::with_capacity(alloc, inherited.len())?,
            after: begin,
            polled_to: begin,
            pending: 0,
            left: 0,
        };
        for (offset, is_complete) in inherited {
            state.inherit(*offset, *is_complete);
        }
        Ok(state)
    }

    /// Makes room for polling `n` more offsets. Out of memory, all is as before.
    pub fn reserve(&mut self, n: u32) -> Result<(), AllocError>
        ensures window { self.new.window ≡ self.old.window }
        ensures room { OnOk result (n ≤ self.new.room) }
        ensures reserved { n ≤ self.old.room → IsOk result }
    {
        let room = n as usize + (self.left - self.runs.list.as_slice().len());
        self.runs.list.reserve(room)
    }

    /// Polls the offsets, which are new where they are not known. Out of memory, the same
    /// is known and polled as before; where room was reserved for them, it does not.
    pub fn polled(&mut self, offsets: &[u64]) -> Result<(), AllocError>
        requires rises { RisesFrom self.old.window.polled_to offsets.now }
        requires next { (begin n : ℕ) × (marks : List Mark)
            × StandsFor self.old.window begin n marks × AreNext n marks offsets.now }
        requires few { open_polled self.old.window + length offsets.now < 2 ^ 32 }
        ensures polled { OnOk result ((begin n : ℕ) (marks : List Mark)
            → StandsFor self.old.window begin n marks → AreNext n marks offsets.now
            → StandsFor self.new.window begin (n + length offsets.now)
            (with_polled n marks offsets.now)) }
        ensures stays { OnErr result (self.new.window ≡ self.old.window) }
        ensures reserved { length offsets.now ≤ self.old.room → IsOk result }
    {
        self.reserve(offsets.len() as u32)?;
        for offset in offsets {
            self.poll(*offset);
        }
        Ok(())
    }

    /// Completes an offset that is known and incomplete. Takes no memory.
    pub fn succeed(&mut self, offset: u64)
        requires { list_any (λ o. o == offset) self.old.window.incomplete ≡ true }
        ensures { (begin n : ℕ) (marks : List Mark) → StandsFor self.old.window begin n marks
            → StandsFor self.new.window begin n (with_complete offset marks) }
    {
        self.complete(offset);
    }

    /// The least incomplete offset, or else the offset after the known ones.
    pub fn position(&self) -> u64
        ensures position { (begin n : ℕ) (marks : List Mark)
            → StandsFor self.now.window begin n marks → result ≡ position_at begin marks }
        ensures least { result
            ≡ unwrap_or (least_of self.now.window.incomplete) self.now.window.after }
        ensures small { result < 2 ^ 63 }
    {
        match self.runs.list.as_slice().first() {
            Some(run) => run.0,
            None => self.after,
        }
    }

    /// The greatest complete offset, if there is one.
    pub fn high(&self) -> Option<u64>
        ensures { (begin n : ℕ) (marks : List Mark) → StandsFor self.now.window begin n marks
            → result ≡ high_at marks }
    {
        self.runs.high
    }

    /// Whether a known offset is complete, by a binary search.
    pub fn is_complete(&self, offset: u64) -> bool
        ensures complete { (begin n : ℕ) (marks : List Mark)
            → StandsFor self.now.window begin n marks
            → result ≡ not (list_any (λ o. o == offset) (incomplete_offsets marks)) }
        ensures value { result ≡ not (list_any (λ o. o == offset) self.now.window.incomplete) }
    {
        !runs::contains(self.runs.list.as_slice(), offset)
    }

    /// Whether an offset is incomplete, or new, which it is after the known ones. By a binary
    /// search.
    pub fn is_open(&self, offset: u64) -> bool
        ensures open { (begin n : ℕ) (marks : List Mark)
            → StandsFor self.now.window begin n marks
            → result ≡ (nat_le (end_at begin marks) offset
            || list_any (λ o. o == offset) (incomplete_offsets marks)) }
        ensures value { result ≡ (nat_le self.now.window.after offset
            || list_any (λ o. o == offset) self.now.window.incomplete) }
    {
        self.after <= offset || runs::contains(self.runs.list.as_slice(), offset)
    }

    /// How many polled offsets are incomplete.
    pub fn open_polled(&self) -> u32
        ensures { (begin n : ℕ) (marks : List Mark) → StandsFor self.now.window begin n marks
            → result ≡ length (incomplete_offsets (take n marks)) }
    {
        self.pending
    }

    /// The bits from the position to the greatest complete offset. None where that lies below the
    /// position, or there is none.
    pub fn bits(&self) -> Result<Option<Bits>, AllocError>
        ensures { IfOk result (λ bits. (begin n : ℕ) (marks : List Mark)
            → StandsFor self.now.window begin n marks → bits ≡ some_bits (bits_at begin marks)) }
    {
        let position = self.position();
        match self.runs.high {
            Some(high) if position <= high => {
                let alloc = *self.runs.list.allocator();
                let bits = runs::bits_upto(alloc, self.runs.list.as_slice(), position, high)?;
                Ok(Some(bits))
            }
            _ => Ok(None),
        }
    }

    /// The lengths of the encodings of the bits, without the letter, by the numbers that are kept.
    /// None where there are no bits. Takes no memory.
    pub fn lengths(&self) -> Option<Lengths>
        ensures { (begin n : ℕ) (marks : List Mark) → StandsFor self.now.window begin n marks
            → result ≡ option_map lengths_of (some_bits (bits_at begin marks)) }
    {
        let position = self.position();
        match self.runs.high {
            Some(high) if position <= high => {
                Some(lengths::of_counts(high + 1 - position, &self.runs.counts))
            }
            _ => None,
        }
    }

    // Learns one more offset, which is above the known ones, while none was polled.
    fn inherit(&mut self, offset: u64, is_complete: bool)
        requires above { self.old.window.after ≤ offset }
        requires small { offset < 2 ^ 63 - 1 }
        requires room { 0 < self.old.room }
        ensures window { self.new.window ≡ inherit_window offset is_complete self.old.window }
        ensures room { self.old.room ≤ self.new.room + 1 }
    {
        if is_complete {
            self.runs.complete_above(offset);
        } else {
            runs::append(&mut self.runs.list, offset);
            self.left += 1;
        }
        self.after = offset + 1;
    }

    // Polls one offset, which follows those polled.
    fn poll(&mut self, offset: u64)
        requires follows { self.old.window.polled_to ≤ offset }
        requires small { offset < 2 ^ 63 - 1 }
        requires next { (begin n : ℕ) × (marks : List Mark)
            × StandsFor self.old.window begin n marks × AreNext n marks (offset ∷ []) }
        requires few { open_polled self.old.window + 1 < 2 ^ 32 }
        requires room { 0 < self.old.room }
        ensures window { self.new.window ≡ poll_window offset self.old.window }
        ensures room { self.old.room ≤ self.new.room + 1 }
    {
        if offset >= self.after {
            runs::append(&mut self.runs.list, offset);
            self.left += 1;
            self.pending += 1;
            self.after = offset + 1;
        } else if runs::contains(self.runs.list.as_slice(), offset) {
            self.pending += 1;
        }
        self.polled_to = offset + 1;
    }

    // Completes an offset.
    fn complete(&mut self, offset: u64)
        requires { list_any (λ o. o == offset) self.old.window.incomplete ≡ true }
        ensures { self.new.window ≡ succeed_window offset self.old.window }
    {
        self.runs.complete(offset);
        self.left -= 1;
        if offset < self.polled_to {
            self.pending -= 1;
        }
    }
}

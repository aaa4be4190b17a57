//! Runs of offsets in order, none empty and no two touching: the place and the length of each.

ghost use Rattle.std.specs.Prelude.{◌≡◌, ℕ, ◌+◌, ◌-◌, ◌^◌, ◌<◌, ◌≤◌, ◌==◌, true, false, length, IfOk, vec_len, vec_capacity};
ghost use Rattle.std.specs.List.{AllWithin, list_any};
ghost use Rattle.pc_model.specs.Bits.{AreRuns, add_run, bits_between};
ghost use Rattle.pc_partition.specs.Runs.{IsCut, IsSpliced, TakesOut, offsets_in};

use pc_model::Bits;
use std::alloc::{AllocError, Global};

/// How many of the runs begin at the offset or before it.
pub fn count_upto(runs: &[(u64, u64)], offset: u64) -> usize
    requires { AreRuns 0 (2 ^ 63) runs.now }
    ensures within { result ≤ length runs.now }
    ensures upto { AllWithin (λ run. run.0 ≤ offset) runs.now 0 result }
    ensures above { AllWithin (λ run. offset < run.0) runs.now result (length runs.now) }
{
    runs.partition_point(|run| run.0 <= offset)
}

/// Whether the offset is in one of the runs, by a binary search.
pub fn contains(runs: &[(u64, u64)], offset: u64) -> bool
    requires { AreRuns 0 (2 ^ 63) runs.now }
    ensures { result ≡ list_any (λ o. o == offset) (offsets_in runs.now) }
{
    let count = count_upto(runs, offset);
    if count == 0 {
        return false;
    }
    let (start, size) = runs[count - 1];
    offset - start < size
}

/// Appends an offset above all runs, which joins the last run where that ends there. Takes no
/// memory.
pub fn append(runs: &mut Vec<(u64, u64)>, offset: u64)
    requires in_order { AreRuns 0 offset runs.old.items }
    requires small { offset < 2 ^ 63 }
    requires room { vec_len runs.old < vec_capacity runs.old }
    ensures runs { runs.new.items ≡ add_run runs.old.items offset 1 }
    ensures capacity { vec_capacity runs.new ≡ vec_capacity runs.old }
{
    let count = runs.as_slice().len();
    if let Some(&(start, size)) = runs.last()
        && start + size == offset
    {
        runs[count - 1] = (start, size + 1);
        return;
    }
    runs.push_reserved((offset, 1));
}

/// The index of the run that has the offset, by a binary search.
pub fn place_of(runs: &[(u64, u64)], offset: u64) -> usize
    requires in_order { AreRuns 0 (2 ^ 63) runs.now }
    requires has { list_any (λ o. o == offset) (offsets_in runs.now) ≡ true }
    ensures { IsCut runs.now result offset }
{
    count_upto(runs, offset) - 1
}

/// Takes the offset out of the run with this index. Takes no memory.
pub fn cut(runs: &mut Vec<(u64, u64)>, at: usize, offset: u64)
    requires in_order { AreRuns 0 (2 ^ 63) runs.old.items }
    requires at { IsCut runs.old.items at offset }
    requires room { length (offsets_in runs.old.items) ≤ vec_capacity runs.old }
    ensures taken { TakesOut offset (offsets_in runs.old.items) (offsets_in runs.new.items) }
    ensures in_order { (least count : ℕ) → AreRuns least count runs.old.items
        → AreRuns least count runs.new.items }
    ensures place { IsSpliced runs.old.items at runs.new.items }
    ensures capacity { vec_capacity runs.old ≤ vec_capacity runs.new }
{
    let (start, size) = runs[at];
    let before = offset - start;
    let after = size - before - 1;
    if before == 0 && after == 0 {
        runs.remove(at);
    } else if before == 0 {
        runs[at] = (offset + 1, after);
    } else if after == 0 {
        runs[at] = (start, before);
    } else {
        runs[at] = (start, before);
        let Ok(()) = runs.insert(at + 1, (offset + 1, after)) else {
            unreachable!();
        };
    }
}

/// The bits from a position to an offset that is in no run: 0 in the runs, and 1 elsewhere.
pub fn bits_upto(
    alloc: Global,
    runs: &[(u64, u64)],
    position: u64,
    high: u64,
) -> Result<Bits, AllocError>
    requires in_order { AreRuns position (2 ^ 63) runs.now }
    requires upto { position ≤ high }
    requires small { high < 2 ^ 63 - 1 }
    requires apart { list_any (λ o. o == high) (offsets_in runs.now) ≡ false }
    ensures { IfOk result (λ bits. bits ≡ bits_between position high (offsets_in runs.now)) }
{
    let below = &runs[..count_upto(runs, high)];
    let mut bits = Bits::new(alloc);
    let mut place = position;
    for (start, size) in below {
        bits.push(true, start - place)?;
        bits.push(false, *size)?;
        place = start + size;
    }
    bits.push(true, high + 1 - place)?;
    Ok(bits)
}

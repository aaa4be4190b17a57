//! The lengths of the encodings of completion bits, found without spelling any.

ghost use Rattle.std.specs.Prelude.{◌≡◌, ◌^◌, ◌≤◌};
ghost use Rattle.pc_partition.specs.Lengths.{bitset_by_count, lengths_by_counts, runs_by_count};

use crate::counts::{Counts, LIMIT_1, LIMIT_2};

/// How many bytes each encoding has after its letter. None where it cannot hold the bits.
#[derive(Clone, Copy, Debug, PartialEq, Eq)]
pub struct Lengths {
    /// BitSet, version 1.
    pub bitset: Option<u64>,
    /// RunLength, version 1.
    pub runlength: Option<u64>,
    /// BitSet, version 2.
    pub bitset2: Option<u64>,
    /// RunLength, version 2.
    pub runlength2: Option<u64>,
}

/// The lengths for this many bits, of which the runs are counted.
pub fn of_counts(count: u64, counts: &Counts) -> Lengths
    requires { counts.now.runs ≤ 2 ^ 59 }
    ensures { result ≡ lengths_by_counts count counts.now }
{
    Lengths {
        bitset: bitset(count, 2, LIMIT_1),
        runlength: run_length(counts.runs, counts.long, 2),
        bitset2: bitset(count, 4, LIMIT_2),
        runlength2: run_length(counts.runs, counts.long_2, 4),
    }
}

// The number of this many bits, and the bits.
fn bitset(count: u64, width: u64, limit: u64) -> Option<u64>
    requires { width ≤ 4 }
    ensures { result ≡ bitset_by_count width limit count }
{
    if count >= limit {
        return None;
    }
    Some(width + count.div_ceil(8))
}

// Two numbers for a run: its length, and that of the 1 bits after it. None of them may be long.
fn run_length(runs: usize, long: usize, width: u64) -> Option<u64>
    requires few { runs ≤ 2 ^ 59 }
    requires width { width ≤ 4 }
    ensures { result ≡ runs_by_count width runs long }
{
    if long > 0 {
        return None;
    }
    Some(width * (2 * runs as u64))
}

//! How many runs there are, and how many of them, and of the 1 bits between and after them, are
//! long.

ghost use Rattle.std.specs.Prelude.{◌≡◌, ◌+◌, ◌-◌, ◌^◌, ◌<◌, ◌≤◌, [], drop, length, nat_le, if◌then◌else◌};
ghost use Rattle.pc_model.specs.Bits.{AreRuns};
ghost use Rattle.pc_partition.specs.Counts.{GivesWay, IsPart, counts_of, lengths_upto, long_of, start_of};

/// Below it a number of two bytes has its top bit 0.
pub const LIMIT_1: u64 = 1 << 15;

/// Below it a number of four bytes has its top bit 0.
pub const LIMIT_2: u64 = 1 << 31;

/// Numbers of runs of 0 bits, and of the 1 bits between them and after them.
#[derive(Clone, Copy, Debug)]
pub struct Counts {
    /// The runs of 0 bits. There are as many of 1 bits.
    pub runs: usize,
    /// The runs of both that are longer than 32,767.
    pub long: usize,
    /// The runs of both that are longer than 2,147,483,647.
    pub long_2: usize,
}

impl Counts {
    /// No runs.
    pub fn none() -> Counts
        ensures { result ≡ counts_of 0 [] }
    {
        Counts {
            runs: 0,
            long: 0,
            long_2: 0,
        }
    }

    /// Counts what `new` counts in place of what `old` counts. The runs are counted already.
    pub fn replace(&mut self, old: &Counts, new: &Counts)
        requires long { GivesWay self.old.long old.now.long new.now.long }
        requires long_2 { GivesWay self.old.long_2 old.now.long_2 new.now.long_2 }
        ensures runs { self.new.runs ≡ self.old.runs }
        ensures long { self.new.long ≡ self.old.long - old.now.long + new.now.long }
        ensures long_2 { self.new.long_2 ≡ self.old.long_2 - old.now.long_2 + new.now.long_2 }
    {
        self.long = self.long - old.long + new.long;
        self.long_2 = self.long_2 - old.long_2 + new.long_2;
    }

    /// Of runs up to an end, the counts of those from an index on, but for this many of the last.
    pub fn of_part(runs: &[(u64, u64)], end: u64, first: usize, behind: usize) -> Counts
        requires in_order { AreRuns 0 end runs.now }
        requires small { end ≤ 2 ^ 63 }
        requires within { first + behind ≤ length runs.now }
        ensures { IsPart first behind end runs.now result }
    {
        let last = runs.len() - behind;
        let end = start_at(runs, last, end);
        let part = &runs[first..last];
        Counts {
            runs: part.len(),
            long: count_long(part, end, LIMIT_1),
            long_2: count_long(part, end, LIMIT_2),
        }
    }
}

// Where the run with this index begins, or else the end.
fn start_at(runs: &[(u64, u64)], at: usize, end: u64) -> u64
    ensures { result ≡ start_of end (drop at runs.now) }
{
    match runs.get(at) {
        Some(run) => run.0,
        None => end,
    }
}

// How many runs, and 1 bits between and after them, are not shorter than the limit.
fn count_long(runs: &[(u64, u64)], end: u64, limit: u64) -> usize
    requires in_order { AreRuns 0 end runs.now }
    requires small { end ≤ 2 ^ 63 }
    requires some { 0 < limit }
    ensures { result ≡ long_of limit (lengths_upto end runs.now) }
{
    let Some(&(first, _)) = runs.first() else {
        return 0;
    };
    let mut place = first;
    let mut count = 0;
    for (start, size) in runs {
        count += one_if_long(start - place, limit) + one_if_long(*size, limit);
        place = start + size;
    }
    count + one_if_long(end - place, limit)
}

// 1 for a run that is not shorter than the limit.
fn one_if_long(size: u64, limit: u64) -> usize
    ensures { result ≡ (if nat_le limit size then 1 else 0) }
{
    usize::from(size >= limit)
}

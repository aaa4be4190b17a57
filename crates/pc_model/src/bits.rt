//! Completion bits as runs. Clauses see the list of truth values.

ghost use Rattle.std.specs.Prelude.{◌≡◌, ℕ, ◌+◌, ◌^◌, ◌<◌, ◌≤◌, Bool, List, [], ◌++◌, length, replicate, OnOk, OnErr, slice_get};
ghost use Rattle.pc_model.specs.Bits.{AreBits, AreRuns, add_run, bits_of, zero_runs};

use std::alloc::{AllocError, Global};
use std::marker::Model;

// Pairs of eight bytes each: more of them pass the address space.
const MOST_RUNS: usize = 1 << 59;

/// A list of truth values, kept as their number and the place and length of each run of 0 bits.
/// The memory goes by the number of runs.
#[derive(Debug, Drop)]
pub struct Bits {
    count: u64,
    // In order, none empty and no two touching.
    zeros: Vec<(u64, u64)>,
}

impl Model for Bits {
    ghost Value = { List Bool };

    ghost view = { λ b. bits_of 0 b.count b.zeros.items };

    ghost invariant = { λ b. AreBits b.count b.zeros.items };
}

impl Bits {
    /// No bits.
    pub fn new(alloc: Global) -> Bits
        ensures { result ≡ [] }
    {
        Bits {
            count: 0,
            zeros: Vec::new(alloc),
        }
    }

    /// How many bits there are.
    pub fn count(&self) -> u64
        ensures count { result ≡ length self.now }
        ensures small { length self.now < 2 ^ 63 }
    {
        self.count
    }

    /// How many runs of 0 bits there are.
    pub fn runs(&self) -> u64
        ensures count { result ≡ length (zero_runs self.now) }
        ensures few { result ≤ 2 ^ 59 }
    {
        self.zeros.as_slice().len() as u64
    }

    /// The place and the length of a run of 0 bits. The runs are counted from 0.
    pub fn run(&self, i: u64) -> Option<(u64, u64)>
        ensures { result ≡ slice_get (zero_runs self.now) i }
    {
        self.zeros.get(i as usize).copied()
    }

    /// Appends a bit `n` times. Where memory runs out, all is as before.
    pub fn push(&mut self, bit: bool, n: u64) -> Result<(), AllocError>
        requires { length self.old + n < 2 ^ 63 }
        ensures ok { OnOk result (self.new ≡ self.old ++ replicate n bit) }
        ensures err { OnErr result (self.new ≡ self.old) }
    {
        if bit || n == 0 {
            self.count += n;
            return Ok(());
        }
        append_zeros(&mut self.zeros, self.count, n)?;
        self.count += n;
        Ok(())
    }
}

/// Appends the run of `n` 0 bits at `place`, which joins the last run where that ends there.
fn append_zeros(zeros: &mut Vec<(u64, u64)>, place: u64, n: u64) -> Result<(), AllocError>
    requires in_order { AreRuns 0 place zeros.old.items }
    requires small { place + n < 2 ^ 63 }
    requires few { length zeros.old.items ≤ 2 ^ 59 }
    ensures ok { OnOk result (zeros.new.items ≡ add_run zeros.old.items place n) }
    ensures few { length zeros.new.items ≤ 2 ^ 59 }
    ensures err { OnErr result (zeros.new.items ≡ zeros.old.items) }
{
    let runs = zeros.as_slice().len();
    if let Some(&(start, length)) = zeros.last()
        && start + length == place
    {
        zeros[runs - 1] = (start, length + n);
        return Ok(());
    }
    if runs >= MOST_RUNS {
        return Err(AllocError);
    }
    zeros.push((place, n))?;
    Ok(())
}

//! The numbers of the calls that are to fail, and the count of faults.

ghost use Rattle.std.specs.Prelude.{◌≡◌, ◌+◌, ◌-◌, ◌≤◌, ◌^◌, ℕ, min, IfOk};
ghost use Rattle.std.specs.List.{list_any};
ghost use Rattle.std.specs.Prelude.{◌==◌};
ghost use Rattle.pc_world.specs.World.{HasRisen};

use std::alloc::{AllocError, Global};

/// Counts calls and faults. A call whose number, counted from 1, is on the list is to fail.
#[derive(Debug, Drop)]
pub struct Faults {
    pub fails: Vec<u64>,
    pub calls: u64,
    pub count: u64,
}

impl Faults {
    pub fn new(alloc: Global, fails: &[u64]) -> Result<Faults, AllocError>
        ensures fails { IfOk result (λ f. f.fails.items ≡ fails.now) }
        ensures calls { IfOk result (λ f. f.calls ≡ 0) }
        ensures count { IfOk result (λ f. f.count ≡ 0) }
    {
        Ok(Faults {
            fails: Vec::from_slice(alloc, fails)?,
            calls: 0,
            count: 0,
        })
    }

    /// Counts one more call, and returns whether it is to fail.
    pub fn next_fails(&mut self) -> bool
        ensures calls { self.new.calls ≡ min (self.old.calls + 1) (2 ^ 64 - 1) }
        ensures fails { self.new.fails.items ≡ self.old.fails.items }
        ensures count { self.new.count ≡ self.old.count }
        ensures listed { result ≡ list_any (λ n. n == self.new.calls) self.old.fails.items }
    {
        self.calls = self.calls.saturating_add(1);
        let calls = self.calls;
        self.fails.as_slice().iter().any(|n| *n == calls)
    }

    /// Counts one more fault.
    pub fn rise(&mut self)
        ensures count { HasRisen self.old.count self.new.count }
        ensures later { self.old.count ≤ self.new.count }
        ensures calls { self.new.calls ≡ self.old.calls }
        ensures fails { self.new.fails.items ≡ self.old.fails.items }
    {
        self.count = self.count.saturating_add(1);
    }
}

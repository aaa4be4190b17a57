//! The names of the files whose reads failed. Clauses see how often the reads of each name did.

use std::alloc::{AllocError, Global};

/// The names of the files whose reads failed, one for each failure.
#[derive(Debug, Drop)]
pub struct FailedReads {
    pub alloc: Global,
    pub names: Vec<String>,
}

impl FailedReads {
    ghost use Rattle.std.specs.Prelude.{◌≡◌, ◌<◌, ℕ, List, OnOk, OnErr};
    ghost use Rattle.pc_world.specs.FailedReads.{count_of};

    /// No read has failed.
    pub fn new(alloc: Global) -> FailedReads
        ensures { (n : List ℕ) → count_of result n ≡ 0 }
    {
        FailedReads {
            alloc,
            names: Vec::new(alloc),
        }
    }

    /// Counts one more failed read of the file of this name. When out of memory all is as before.
    pub fn add(&mut self, name: &str) -> Result<(), AllocError>
        ensures rose { OnOk result (count_of self.old name.now < count_of self.new name.now) }
        ensures others { (n : List ℕ) → (n ≡ name.now → ⊥) → count_of self.new n ≡ count_of self.old n }
        ensures stays { OnErr result ((n : List ℕ) → count_of self.new n ≡ count_of self.old n) }
    {
        let name = String::from_str(self.alloc, name)?;
        self.names.push(name)?;
        Ok(())
    }
}

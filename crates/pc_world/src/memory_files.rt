//! Files in memory, for tests and for callers that have the contents.

ghost use Rattle.std.specs.Prelude.{◌≡◌, ℕ, List, Some, None, OnOk, OnErr, IfOk, option_map, find, bytes_eq, string_bytes};
ghost use Rattle.std.specs.Borrow.{Bor};

use crate::failed_reads::FailedReads;
use crate::faults::Faults;
use crate::files::{Files, FilesFault};
use pc_model::limits::MAX_FILE_BYTES;
use std::alloc::{AllocError, Global};

/// A file: its name and its contents.
#[derive(Debug, Drop)]
pub struct MemoryFile {
    pub name: String,
    pub bytes: Vec<u8>,
}

/// Files in memory. A read of a name that it does not hold fails, and so do the reads whose
/// numbers it was given.
#[derive(Debug, Drop)]
pub struct MemoryFiles {
    alloc: Global,
    files: Vec<MemoryFile>,
    faults: Faults,
    failed: FailedReads,
}

impl MemoryFiles {
    ghost use Rattle.pc_world.specs.MemoryFiles.{contents_of};

    /// No files. `fails` has the numbers of the reads, counted from 1, that are to fail. The only
    /// error is out of memory.
    pub fn new(alloc: Global, fails: &[u64]) -> Result<MemoryFiles, AllocError>
        ensures { IfOk result (λ f. (n : List ℕ) → contents_of f n ≡ None) }
    {
        Ok(MemoryFiles {
            alloc,
            files: Vec::new(alloc),
            faults: Faults::new(alloc, fails)?,
            failed: FailedReads::new(alloc),
        })
    }

    /// Adds a file, in the place of the one of that name if there is one. The only error is out of
    /// memory, after which all is as before.
    pub fn add(&mut self, name: &str, bytes: &[u8]) -> Result<(), AllocError>
        ensures added { OnOk result (contents_of self.new name.now ≡ Some bytes.now) }
        ensures others { OnOk result ((n : List ℕ) → (n ≡ name.now → ⊥) → contents_of self.new n ≡ contents_of self.old n) }
        ensures stays { OnErr result ((n : List ℕ) → contents_of self.new n ≡ contents_of self.old n) }
    {
        self.files.insert(
            0,
            MemoryFile {
                name: String::from_str(self.alloc, name)?,
                bytes: Vec::from_slice(self.alloc, bytes)?,
            },
        )?;
        Ok(())
    }

    fn find(&self, name: &str) -> Option<&MemoryFile>
        ensures { option_map (λ (f : Bor MemoryFile). f.now) result ≡ find (λ f. bytes_eq (string_bytes f.name) name.now) self.now.files.items }
    {
        self.files
            .as_slice()
            .iter()
            .find(|file| file.name.as_str() == name)
    }
}

impl Files for MemoryFiles {
    ghost use Rattle.pc_world.specs.FailedReads.{count_of};
    ghost use Rattle.pc_world.specs.MemoryFiles.{contents_of};

    ghost told = { contents_of };

    ghost faults = { λ f. count_of f.failed };

    fn read(&mut self, name: &str, into: &mut Vec<u8>) -> Result<(), FilesFault> {
        if self.faults.next_fails() {
            self.failed.add(name)?;
            return Err(FilesFault::Failed);
        }
        let Some(file) = self.find(name) else {
            self.failed.add(name)?;
            return Err(FilesFault::Failed);
        };
        if file.bytes.len() as u64 > MAX_FILE_BYTES {
            return Err(FilesFault::TooLong);
        }
        into.extend_from_slice(file.bytes.as_slice())?;
        Ok(())
    }
}

//! Files on the disk. They tell nothing of their contents.

ghost use Rattle.std.specs.Prelude.{◌≡◌, ◌+◌, ◌≤◌, OnErr, OnOk, take, vec_len};

use crate::failed_reads::FailedReads;
use crate::files::{Files, FilesFault};
use pc_model::limits::MAX_FILE_BYTES;
use std::alloc::Global;
use std::io::Read;
use std::{fs, io};

/// Files on the disk, read by their paths.
#[derive(Drop)]
pub struct DiskFiles<'a, R: std::rt::Files> {
    rt: &'a R,
    failed: FailedReads,
}

impl<'a, R: std::rt::Files> DiskFiles<'a, R> {
    /// The files that the runtime reaches.
    pub fn new(alloc: Global, rt: &'a R) -> DiskFiles<'a, R> {
        let failed = FailedReads::new(alloc);
        DiskFiles { rt, failed }
    }

    /// Reads one byte more than a file may have.
    fn read_some(&self, name: &str, into: &mut Vec<u8>) -> io::Result<()>
        ensures { take (vec_len into.old) into.new.items ≡ into.old.items }
    {
        let file = fs::open(self.rt, name)?;
        file.take(MAX_FILE_BYTES + 1).read_to_end(into)?;
        Ok(())
    }
}

impl<'a, R: std::rt::Files> Files for DiskFiles<'a, R> {
    ghost use Rattle.std.specs.Prelude.{None};
    ghost use Rattle.pc_world.specs.FailedReads.{count_of};

    ghost told = { λ _ _. None };

    ghost faults = { λ f. count_of f.failed };

    fn read(&mut self, name: &str, into: &mut Vec<u8>) -> Result<(), FilesFault> {
        let start = into.len();
        if self.read_some(name, into).is_err() {
            into.truncate(start);
            self.failed.add(name)?;
            return Err(FilesFault::Failed);
        }
        if (into.len() - start) as u64 > MAX_FILE_BYTES {
            into.truncate(start);
            return Err(FilesFault::TooLong);
        }
        Ok(())
    }
}

//! A sink in memory.

ghost use Rattle.std.specs.Prelude.{◌≡◌, ◌≤◌, ℕ, [], IfOk, IsErr};
ghost use Rattle.pc_world.specs.World.{HasRisen};

use crate::faults::Faults;
use crate::sink::{Sink, SinkFailed};
use std::alloc::{AllocError, Global};

/// A sink in memory with room for this many bytes. A write takes the bytes that still fit; where
/// none fits it fails, and so do the writes whose numbers it was given.
#[derive(Debug, Drop)]
pub struct MemorySink {
    bytes: Vec<u8>,
    faults: Faults,
}

impl MemorySink {
    ghost use Rattle.pc_world.specs.MemorySink.{bytes_of};

    /// An empty sink, whose memory is taken at once. `fails` has the numbers of the writes, counted
    /// from 1, that are to fail. The only error is out of memory.
    pub fn new(alloc: Global, room: u64, fails: &[u64]) -> Result<MemorySink, AllocError>
        ensures { IfOk result (λ s. bytes_of s ≡ []) }
    {
        Ok(MemorySink {
            bytes: Vec::with_capacity(alloc, room as usize)?,
            faults: Faults::new(alloc, fails)?,
        })
    }

    /// What was written.
    pub fn bytes(&self) -> &[u8]
        ensures { result.now ≡ bytes_of self.now }
    {
        self.bytes.as_slice()
    }

    fn fail(&mut self) -> Result<usize, SinkFailed>
        ensures failed { IsErr result }
        ensures bytes { self.new.bytes.items ≡ self.old.bytes.items }
        ensures rose { HasRisen self.old.faults.count self.new.faults.count }
        ensures later { self.old.faults.count ≤ self.new.faults.count }
    {
        self.faults.rise();
        Err(SinkFailed)
    }
}

impl Sink for MemorySink {
    ghost use Rattle.std.specs.Prelude.{Some};

    ghost written = { λ s. Some s.bytes.items };

    ghost faults = { λ s. s.faults.count };

    fn write(&mut self, piece: &[u8]) -> Result<usize, SinkFailed> {
        let fits = self.bytes.capacity() - self.bytes.len();
        let n = piece.len().min(fits);
        if self.faults.next_fails() || n == 0 {
            return self.fail();
        }
        match self.bytes.extend_from_slice(&piece[..n]) {
            Ok(()) => Ok(n),
            Err(_) => self.fail(),
        }
    }
}

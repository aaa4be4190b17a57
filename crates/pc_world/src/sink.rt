//! A place where output is written.

ghost use Rattle.std.specs.Prelude.{◌≡◌, ◌≤◌, ◌<◌, ◌++◌, List, ℕ, Option, IfOk, OnErr, OnOk, length, take, option_map};
ghost use Rattle.pc_world.specs.World.{HasRisen};

use thiserror::Error;

/// The outside failed, and nothing was written.
#[derive(Clone, Copy, Debug, PartialEq, Eq, Error)]
#[error("the write failed")]
pub struct SinkFailed;

/// A place where output is written.
pub trait Sink {
    /// What was written so far, where that is told.
    ghost written: { Self → Option (List ℕ) };

    /// How often the outside has failed. The count stops at 2^64 - 1.
    ghost faults: { Self → ℕ };

    /// Writes the first bytes of a piece, at least one, and returns how many. Fails exactly where
    /// the count of faults rose, and nothing was written then.
    fn write(&mut self, piece: &[u8]) -> Result<usize, SinkFailed>
        requires { 0 < length piece.now }
        ensures some { IfOk result (λ n. 0 < n) }
        ensures within { IfOk result (λ n. n ≤ length piece.now) }
        ensures appended { IfOk result (λ n. written self.new ≡ option_map (λ w. w ++ take n piece.now) (written self.old)) }
        ensures unfailed { OnOk result (faults self.new ≡ faults self.old) }
        ensures stays { OnErr result (written self.new ≡ written self.old) }
        ensures failed { OnErr result (HasRisen (faults self.old) (faults self.new)) }
        ensures count { faults self.old ≤ faults self.new };
}

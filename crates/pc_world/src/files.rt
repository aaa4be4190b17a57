//! Files that are read by name.

ghost use Rattle.std.specs.Prelude.{◌≡◌, ◌≤◌, ◌<◌, List, ℕ, Option, Some, Err, OnOk, OnErr, length};
ghost use Rattle.pc_world.specs.World.{HasRisen, AppendsFile};
ghost use Rattle.pc_world.specs.declared.files.FilesFault.TheVariants.{NoMemory};

use pc_model::limits::MAX_FILE_BYTES;
use std::alloc::{AllocError, AllocFailed};
use thiserror::Error;

/// Why a file could not be read.
#[derive(Clone, Copy, Debug, PartialEq, Eq, Error)]
pub enum FilesFault {
    /// The outside failed.
    #[error("the read failed")]
    Failed,
    /// The file has more bytes than a file may have.
    #[error("the file is too long")]
    TooLong,
    /// Out of memory.
    #[error("out of memory")]
    NoMemory,
}

impl From<AllocError> for FilesFault {
    ghost from_gives = { λ _ e. e ≡ NoMemory };

    fn from(_e: AllocError) -> FilesFault {
        FilesFault::NoMemory
    }
}

impl<T: Drop> From<AllocFailed<T>> for FilesFault {
    ghost from_gives = { λ _ e. e ≡ NoMemory };

    fn from(_e: AllocFailed<T>) -> FilesFault {
        FilesFault::NoMemory
    }
}

/// Files that are read by name.
pub trait Files {
    /// The contents of the file of a name, as far as they are told.
    ghost told: { Self → List ℕ → Option (List ℕ) };

    /// How often the reads of the file of a name have failed. A count may stop at 2^64 - 1.
    ghost faults: { Self → List ℕ → ℕ };

    /// Appends the contents of the file to `into`. Fails with `Failed` only where the count of this
    /// name's faults rose, and with `TooLong` where the file has more than 268,435,456 bytes. After
    /// a failure `into` is as before. Every call leaves the contents and the counts of other names
    /// as they were.
    fn read(&mut self, name: &str, into: &mut Vec<u8>) -> Result<(), FilesFault>
        ensures contents { OnOk result (AppendsFile MAX_FILE_BYTES (told self.old name.now) into.old.items into.new.items) }
        ensures stays { OnErr result (into.new.items ≡ into.old.items) }
        ensures failed { result ≡ Err FilesFault.Failed → HasRisen (faults self.old name.now) (faults self.new name.now) }
        ensures too_long { result ≡ Err FilesFault.TooLong → (bytes : List ℕ) → told self.old name.now ≡ Some bytes
            → MAX_FILE_BYTES < length bytes }
        ensures keeps { (n : List ℕ) → told self.new n ≡ told self.old n }
        ensures others { (n : List ℕ) → (n ≡ name.now → ⊥) → faults self.new n ≡ faults self.old n }
        ensures count { (n : List ℕ) → faults self.old n ≤ faults self.new n };
}

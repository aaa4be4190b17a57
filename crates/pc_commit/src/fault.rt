//! Why a part is not resumed.

ghost use Rattle.std.specs.Prelude.{◌≡◌};
ghost use Rattle.pc_commit.specs.declared.fault.ResumeFault.TheVariants.{NoMemory};

use pc_model::MapFault;
use std::alloc::AllocError;
use thiserror::Error;

/// Why the state of a stored commit is not made.
#[derive(Clone, Copy, Debug, PartialEq, Eq, Error)]
pub enum ResumeFault {
    /// The stored map does not read, and the rule refuses that. Never the fault's `NoMemory`.
    #[error("the stored map does not read: {0}")]
    BadMap(MapFault),
    /// Out of memory.
    #[error("out of memory")]
    NoMemory,
}

impl From<AllocError> for ResumeFault {
    ghost from_gives = { λ _ e. e ≡ NoMemory };

    fn from(_e: AllocError) -> ResumeFault {
        ResumeFault::NoMemory
    }
}

//! Why an epoch does not begin or end.

use thiserror::Error;

/// Why a part is not assigned or ended.
#[derive(Clone, Copy, Debug, PartialEq, Eq, Error)]
pub enum EpochFault {
    /// There is no part of this number.
    #[error("the part is unknown")]
    UnknownPart,
    /// A part that is to be assigned is held.
    #[error("the part is held already")]
    AlreadyHeld,
    /// A part that is to be ended is not held.
    #[error("the part is not held")]
    NotHeld,
}

//! Why a commit was not stored, or not fetched.

ghost use Rattle.std.specs.Prelude.{◌≡◌};
ghost use Rattle.pc_offset_client.specs.declared.fault.ClientFault.TheVariants.{BadReply, NoMemory};

use pc_model::WireFault;
use std::alloc::AllocError;
use thiserror::Error;

/// Why a commit was not stored, or not fetched.
#[derive(Clone, Copy, Debug, PartialEq, Eq, Error)]
pub enum ClientFault {
    /// The link failed. A commit may be stored then or not.
    #[error("the link failed")]
    LinkFailed,
    /// The broker refused with this code, which is not 0.
    #[error("the broker refused with code {0}")]
    Refused(i16),
    /// The reply does not read.
    #[error("the reply does not read: {0}")]
    BadReply(WireFault),
    /// The reply answers another question: the first pair of numbers that differs. These are the
    /// correlation ids, 1 and the number of topics, 0 and 1 where the topic has another name, 1 and
    /// the number of partitions, and the partitions.
    #[error("the reply has {got} where {asked} was asked")]
    OtherReply { asked: i32, got: i32 },
    /// Out of memory. Nothing was stored then.
    #[error("out of memory")]
    NoMemory,
}

impl From<AllocError> for ClientFault {
    ghost from_gives = { λ _ e. e ≡ NoMemory };

    fn from(_e: AllocError) -> ClientFault {
        ClientFault::NoMemory
    }
}

impl From<WireFault> for ClientFault {
    ghost from_gives = { λ fault e. e ≡ BadReply fault };

    fn from(fault: WireFault) -> ClientFault {
        ClientFault::BadReply(fault)
    }
}

//! Why a broker did not do what it was asked.

ghost use Rattle.std.specs.Prelude.{◌≡◌};
ghost use Rattle.pc_offset_store.specs.Store.{fault_of};
ghost use Rattle.pc_offset_store.specs.declared.fault.BrokerFault.TheVariants.{NoMemory, Wire};

use pc_model::WireFault;
use pc_offset_wire::WireWriteFault;
use std::alloc::{AllocError, AllocFailed};
use thiserror::Error;

/// Why a broker did not do what it was asked. It stores what it stored then.
#[derive(Clone, Copy, Debug, PartialEq, Eq, Error)]
pub enum BrokerFault {
    /// The frame is no commit request and no fetch request.
    #[error("the frame does not read: {0}")]
    Wire(WireFault),
    /// The topic has no such part.
    #[error("the topic has no such part")]
    UnknownPart,
    /// The reply would have more than 2^31 - 1 bytes after its size.
    #[error("the reply is too long")]
    TooLong,
    /// Out of memory.
    #[error("out of memory")]
    NoMemory,
}

impl From<AllocError> for BrokerFault {
    ghost from_gives = { λ _ e. e ≡ NoMemory };

    fn from(_e: AllocError) -> BrokerFault {
        BrokerFault::NoMemory
    }
}

impl<T: Drop> From<AllocFailed<T>> for BrokerFault {
    ghost from_gives = { λ _ e. e ≡ NoMemory };

    fn from(_e: AllocFailed<T>) -> BrokerFault {
        BrokerFault::NoMemory
    }
}

impl From<WireFault> for BrokerFault {
    ghost from_gives = { λ fault e. e ≡ Wire fault };

    fn from(fault: WireFault) -> BrokerFault {
        BrokerFault::Wire(fault)
    }
}

impl From<WireWriteFault> for BrokerFault {
    ghost from_gives = { λ fault e. e ≡ fault_of fault };

    fn from(fault: WireWriteFault) -> BrokerFault {
        match fault {
            WireWriteFault::TooLong => BrokerFault::TooLong,
            WireWriteFault::NoMemory => BrokerFault::NoMemory,
        }
    }
}

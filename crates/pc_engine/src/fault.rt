//! Why the engine refused a call.

ghost use Rattle.std.specs.Prelude.{◌≡◌};
ghost use Rattle.pc_engine.specs.declared.fault.EngineFault.TheVariants.{NoMemory};

use pc_commit::ResumeFault;
use pc_model::MapFault;
use pc_offset_client::ClientFault;
use pc_state::Unfinished;
use std::alloc::{AllocError, AllocFailed};
use thiserror::Error;

/// Why the engine refused a call. After a refusal all is as before, but for a failed commit.
#[derive(Clone, Copy, Debug, PartialEq, Eq, Error)]
pub enum EngineFault {
    /// The engine has ended.
    #[error("the engine has ended")]
    Closed,
    /// The part has no log.
    #[error("the part has no log")]
    UnknownPart,
    /// The part is held already.
    #[error("the part is held already")]
    AlreadyHeld,
    /// The part is not held.
    #[error("the part is not held")]
    NotHeld,
    /// The engine drains.
    #[error("the engine drains")]
    Draining,
    /// The part is blocked, and the next record is above its greatest complete offset, `high`.
    #[error("the part is blocked above {high}")]
    Pressed {
        high: u64,
    },
    /// With the events of this call and those kept for jobs that are out there would be more than
    /// 4,000,000.
    #[error("the journal is full")]
    JournalFull,
    /// The record at this offset of the part was not polled or is not complete.
    #[error("offset {offset} of part {part} is not complete")]
    NotDone {
        part: u32,
        offset: u64,
    },
    /// The part's position is not certainly stored: `stored` may be.
    #[error("position {position} of part {part} is not certainly stored: {stored} may be")]
    Uncommitted {
        part: u32,
        stored: u64,
        position: u64,
    },
    /// The link's client failed, never because it is out of memory. After a failed commit the event
    /// of that stands in the journal, and the store may have the commit.
    #[error("{0}")]
    Client(ClientFault),
    /// The stored map does not read, and the setup refuses such maps. Never because it is out of
    /// memory.
    #[error("the stored map does not read: {0}")]
    BadMap(MapFault),
    /// Out of memory.
    #[error("out of memory")]
    NoMemory,
}

impl From<AllocError> for EngineFault {
    ghost from_gives = { λ _ e. e ≡ NoMemory };

    fn from(_e: AllocError) -> EngineFault {
        EngineFault::NoMemory
    }
}

impl<T: Drop> From<AllocFailed<T>> for EngineFault {
    ghost from_gives = { λ _ e. e ≡ NoMemory };

    fn from(_e: AllocFailed<T>) -> EngineFault {
        EngineFault::NoMemory
    }
}

impl From<ClientFault> for EngineFault {
    ghost use Rattle.pc_engine.specs.Fault.{engine_fault_of};

    ghost from_gives = { λ fault e. e ≡ engine_fault_of fault };

    fn from(fault: ClientFault) -> EngineFault {
        match fault {
            ClientFault::NoMemory => EngineFault::NoMemory,
            fault => EngineFault::Client(fault),
        }
    }
}

impl From<ResumeFault> for EngineFault {
    ghost use Rattle.pc_engine.specs.Fault.{resume_fault_of};

    ghost from_gives = { λ fault e. e ≡ resume_fault_of fault };

    fn from(fault: ResumeFault) -> EngineFault {
        match fault {
            ResumeFault::BadMap(fault) => EngineFault::BadMap(fault),
            ResumeFault::NoMemory => EngineFault::NoMemory,
        }
    }
}

impl From<Unfinished> for EngineFault {
    ghost use Rattle.pc_engine.specs.Fault.{unfinished_fault};

    ghost from_gives = { λ reason e. e ≡ unfinished_fault reason };

    fn from(reason: Unfinished) -> EngineFault {
        match reason {
            Unfinished::NotDone { part, offset } => EngineFault::NotDone { part, offset },
            Unfinished::Uncommitted {
                part,
                stored,
                position,
            } => EngineFault::Uncommitted {
                part,
                stored,
                position,
            },
        }
    }
}

//! What came of a control turn, and what a call answered as a turn.

ghost use Rattle.std.specs.Prelude.{◌≡◌, Err, IfErr};
ghost use Rattle.pc_drain.specs.Turn.{IsRefusal, call_turn, refused_turn};

use pc_engine::EngineFault;
use pc_offset_client::ClientFault;

/// What came of a control turn.
#[derive(Clone, Copy, Debug, PartialEq, Eq)]
pub enum Turn {
    /// An action was done, and there may be another.
    Went,
    /// No result was found, and no action applies.
    Idle,
    /// All is done: the engine has ended.
    Done,
    /// The run is at rest and drained, and this record is not finished: it failed as often as it may,
    /// `failures` times.
    Undrained {
        part: u32,
        offset: u64,
        failures: u32,
    },
    /// A commit failed that was to save what is not stored, after the drain began.
    Client(ClientFault),
    /// With the events of the action and those kept for jobs that are out there would be more than
    /// 4,000,000.
    JournalFull,
    /// Out of memory. What the action would have added is not added; a result that was taken is
    /// dropped where no tick could be added before it.
    NoMemory,
}

/// A call of a turn that went, or was refused.
pub(crate) fn called<A: Drop>(answer: Result<A, EngineFault>) -> Turn
    requires { IfErr answer IsRefusal }
    ensures { result ≡ call_turn answer }
{
    match answer {
        Ok(_) => Turn::Went,
        Err(fault) => refused(fault),
    }
}

/// A call of a turn that was refused: no other fault comes of one.
pub(crate) fn refused(fault: EngineFault) -> Turn
    requires { IsRefusal fault }
    ensures { result ≡ refused_turn fault }
{
    match fault {
        EngineFault::JournalFull => Turn::JournalFull,
        EngineFault::NoMemory => Turn::NoMemory,
        _ => unreachable!(),
    }
}

//! Why a run ended.

use pc_model::MapFault;
use pc_offset_client::ClientFault;

/// Why a run ended.
#[derive(Clone, Copy, Debug, PartialEq, Eq)]
pub enum Ending {
    /// All is done: the steps are used up, and of each held part the end of its log is committed.
    Done,
    /// The steps are used up and the run is at rest, but this record, the first that is left of the
    /// least such part, has failed as often as it may, `failures` times.
    Undrained {
        part: u32,
        offset: u64,
        failures: u32,
    },
    /// The link's client failed at the fetch of a step that was due, or at a commit that was to save
    /// what is not stored, after the drain began.
    Client(ClientFault),
    /// The stored map of the part that a step assigns does not read, and the setup refuses such maps.
    BadMap {
        part: u32,
        fault: MapFault,
    },
    /// With the events of the next call and those kept for jobs that are out there would be more than
    /// 4,000,000.
    JournalFull,
    /// Out of memory.
    NoMemory,
}

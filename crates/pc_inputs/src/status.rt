//! How a call of the program ends.

ghost use Rattle.std.specs.Prelude.{◌≡◌};

use pc_config::ConfigFault;
use pc_cursor::LogFaultKind;
use pc_model::limits::MAX_SCRIPT_LINES;
use pc_model::{MapFault, NameText};
use pc_offset_client::ClientFault;
use pc_script::{ScriptKind, ScriptReadFault};
use std::alloc::{AllocError, AllocFailed};

/// What has a limit.
#[derive(Clone, Copy, Debug, PartialEq, Eq)]
pub enum LimitKind {
    /// The bytes of one file.
    FileBytes,
    /// The bytes of all logs together.
    LogBytes,
    /// The records of all logs together.
    Records,
    /// The lines of a script.
    ScriptLines,
    /// The events of a run.
    Events,
}

/// How a call of the program ends. All but `Whole`, `SinkFault` and `NoMemory` have a fault line,
/// which is the last line of the output.
#[derive(Debug, Drop)]
pub enum Status {
    /// The command's work is whole.
    Whole,
    /// The words are not those of a command.
    Usage,
    /// The file could not be read.
    ReadFault {
        name: NameText,
    },
    /// The first fault of the configuration.
    BadConfig(ConfigFault),
    /// The first fault of the log of this file, at the place of the batch that has it.
    BadLog {
        name: NameText,
        place: u64,
        fault: LogFaultKind,
    },
    /// The first bad line of the script; lines are numbered from 1.
    BadScript {
        line: u64,
        kind: ScriptKind,
    },
    /// The steps of a run are used up, and this record failed as often as it may.
    Undrained {
        part: u32,
        offset: u64,
        failures: u32,
    },
    /// The output could not be written.
    SinkFault,
    /// The link's client got this fault.
    LinkFault(ClientFault),
    /// There is more of something than may be: more than this number.
    Limit {
        which: LimitKind,
        number: u64,
    },
    /// The map that is stored for the part does not read, and the setup refuses it.
    BadMap {
        part: u32,
        fault: MapFault,
    },
    /// Out of memory.
    NoMemory,
}

/// The number of `Status::NoMemory`.
pub const NO_MEMORY: u8 = 11;

impl Status {
    ghost use Rattle.pc_inputs.specs.Status.{status_number};

    /// The number with which the program ends.
    pub fn number(&self) -> u8
        ensures { result ≡ status_number self.now }
    {
        match self {
            Status::Whole => 0,
            Status::Usage => 1,
            Status::ReadFault { .. } => 2,
            Status::BadConfig(_) => 3,
            Status::BadLog { .. } => 4,
            Status::BadScript { .. } => 5,
            Status::Undrained { .. } => 6,
            Status::SinkFault => 7,
            Status::LinkFault(_) => 8,
            Status::Limit { .. } => 9,
            Status::BadMap { .. } => 10,
            Status::NoMemory => NO_MEMORY,
        }
    }
}

impl From<AllocError> for Status {
    ghost use Rattle.pc_inputs.specs.declared.status.Status.TheVariants.{NoMemory};

    ghost from_gives = { λ _ s. s ≡ NoMemory };

    fn from(_e: AllocError) -> Status {
        Status::NoMemory
    }
}

impl<T: Drop> From<AllocFailed<T>> for Status {
    ghost use Rattle.pc_inputs.specs.declared.status.Status.TheVariants.{NoMemory};

    ghost from_gives = { λ _ s. s ≡ NoMemory };

    fn from(_e: AllocFailed<T>) -> Status {
        Status::NoMemory
    }
}

impl From<ScriptReadFault> for Status {
    ghost use Rattle.pc_inputs.specs.Plan.{script_status};

    ghost from_gives = { λ fault s. s ≡ script_status fault };

    fn from(fault: ScriptReadFault) -> Status {
        match fault {
            ScriptReadFault::Bad(fault) => Status::BadScript {
                line: fault.line,
                kind: fault.kind,
            },
            ScriptReadFault::TooManyLines => Status::Limit {
                which: LimitKind::ScriptLines,
                number: MAX_SCRIPT_LINES as u64,
            },
            ScriptReadFault::NoMemory => Status::NoMemory,
        }
    }
}

impl From<ConfigFault> for Status {
    ghost use Rattle.pc_inputs.specs.Configuration.{config_status};

    ghost from_gives = { λ fault s. s ≡ config_status fault };

    fn from(fault: ConfigFault) -> Status {
        match fault {
            ConfigFault::NoMemory => Status::NoMemory,
            fault => Status::BadConfig(fault),
        }
    }
}

impl From<ClientFault> for Status {
    ghost use Rattle.pc_inputs.specs.Status.{client_status};

    ghost from_gives = { λ fault s. s ≡ client_status fault };

    fn from(fault: ClientFault) -> Status {
        match fault {
            ClientFault::NoMemory => Status::NoMemory,
            fault => Status::LinkFault(fault),
        }
    }
}

//! Why a script could not be read: the first line that is bad, and what is bad about it.

ghost use Rattle.std.specs.Prelude.{◌≡◌};
ghost use Rattle.pc_script.specs.declared.fault.ScriptReadFault.TheVariants.{Bad, NoMemory};

use std::alloc::AllocFailed;
use std::error::Error;
use std::fmt;

/// What is bad about a line, in the order in which a line is looked at.
#[derive(Clone, Copy, Debug, PartialEq, Eq)]
pub enum ScriptKind {
    /// The first word, or the third of a rebalance line, is not one of the script's words.
    UnknownWord,
    /// The word has another number of arguments.
    WordCount,
    /// An argument is no decimal below 2^64.
    NotDecimal,
    /// An argument is below its least or above its greatest number.
    OutOfRange,
    /// A rebalance line names a part that has no log.
    UnknownPart,
    /// A rebalance line assigns a part that the lines before leave held.
    AlreadyHeld,
    /// A rebalance line revokes or loses a part that the lines before do not leave held.
    NotHeld,
}

impl fmt::Display for ScriptKind {
    ghost use Rattle.std.specs.Prelude.{Some};
    ghost use Rattle.pc_script.specs.Kinds.{kind_text};

    ghost output = { λ kind. Some (kind_text kind) };

    fn fmt<W: fmt::Write>(&self, f: &mut fmt::Formatter<W>) -> fmt::Result {
        match self {
            ScriptKind::UnknownWord => write!(f, "unknown-word"),
            ScriptKind::WordCount => write!(f, "word-count"),
            ScriptKind::NotDecimal => write!(f, "not-decimal"),
            ScriptKind::OutOfRange => write!(f, "out-of-range"),
            ScriptKind::UnknownPart => write!(f, "unknown-part"),
            ScriptKind::AlreadyHeld => write!(f, "already-held"),
            ScriptKind::NotHeld => write!(f, "not-held"),
        }
    }
}

/// A bad line. Lines are numbered from 1, and blank lines and comments count.
#[derive(Clone, Copy, Debug, PartialEq, Eq)]
pub struct ScriptFault {
    pub line: u64,
    pub kind: ScriptKind,
}

/// Why there is no script.
#[derive(Clone, Copy, Debug, PartialEq, Eq)]
pub enum ScriptReadFault {
    /// The first bad line.
    Bad(ScriptFault),
    /// The text has more than 1,000,000 lines, good or bad.
    TooManyLines,
    /// Out of memory.
    NoMemory,
}

impl fmt::Display for ScriptReadFault {
    fn fmt<W: fmt::Write>(&self, f: &mut fmt::Formatter<W>) -> fmt::Result {
        match self {
            ScriptReadFault::Bad(fault) => {
                let line = fault.line;
                let kind = fault.kind;
                write!(f, "line {line}: {kind}")
            }
            ScriptReadFault::TooManyLines => write!(f, "too many lines"),
            ScriptReadFault::NoMemory => write!(f, "out of memory"),
        }
    }
}

impl Error for ScriptReadFault {}

impl<T: Drop> From<AllocFailed<T>> for ScriptReadFault {
    ghost from_gives = { λ _ e. e ≡ NoMemory };

    fn from(_failed: AllocFailed<T>) -> ScriptReadFault {
        ScriptReadFault::NoMemory
    }
}

impl From<ScriptFault> for ScriptReadFault {
    ghost from_gives = { λ fault e. e ≡ Bad fault };

    fn from(fault: ScriptFault) -> ScriptReadFault {
        ScriptReadFault::Bad(fault)
    }
}

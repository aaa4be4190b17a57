//! Why a line gave no event.

ghost use Rattle.std.specs.Prelude.{◌≡◌};
ghost use Rattle.pc_lines.specs.declared.escape.UnescapeFault.{UnescapeFault};
ghost use Rattle.pc_print.specs.declared.line_fault.LineFault.TheVariants.{NoMemory};
ghost use Rattle.pc_print.specs.LineFault.{of_unescape};

use pc_lines::UnescapeFault;
use std::alloc::AllocError;

#[derive(Clone, Copy, Debug, PartialEq, Eq)]
pub(crate) enum LineFault {
    /// It is no event's line.
    Bad,
    /// Out of memory.
    NoMemory,
}

impl From<AllocError> for LineFault {
    ghost from_gives = { λ _ e. e ≡ NoMemory };

    fn from(_failed: AllocError) -> LineFault {
        LineFault::NoMemory
    }
}

impl From<UnescapeFault> for LineFault {
    ghost from_gives = { λ fault e. e ≡ of_unescape fault };

    fn from(fault: UnescapeFault) -> LineFault {
        match fault {
            UnescapeFault::Bad => LineFault::Bad,
            UnescapeFault::NoMemory => LineFault::NoMemory,
        }
    }
}

//! A whole journal from its text.

ghost use Rattle.std.specs.Prelude.{◌≡◌, [], length};
ghost use Rattle.pc_lines.specs.Pieces.{lines_of};
ghost use Rattle.pc_print.specs.Reading.{ReadsEvent, ReadsHistory, event_of, history_of};

use crate::fault::JournalTextFault;
use crate::line_fault::LineFault;
use crate::read::read_event;
use pc_lines::lines;
use pc_model::{Event, Journal};
use std::alloc::Global;

/// The journal of a text. Each line is exactly that of an event; only the last line feed may be
/// missing.
pub fn read_journal(alloc: Global, bytes: &[u8]) -> Result<Journal, JournalTextFault>
    ensures { ReadsHistory result (history_of bytes.now) }
{
    let mut journal = Journal::new(alloc);
    let mut number = 0u64;
    for line in lines(bytes) {
        number += 1;
        let event = event_at(alloc, number, line)?;
        journal.reserve(1)?;
        journal.push(event);
    }
    Ok(journal)
}

fn event_at(alloc: Global, number: u64, line: &[u8]) -> Result<Event, JournalTextFault>
    ensures { ReadsEvent number result (event_of line.now) }
{
    match read_event(alloc, line) {
        Ok(event) => Ok(event),
        Err(LineFault::Bad) => Err(JournalTextFault::Bad { line: number }),
        Err(LineFault::NoMemory) => Err(JournalTextFault::NoMemory),
    }
}

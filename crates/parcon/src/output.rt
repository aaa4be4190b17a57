//! The output of a play on its way into the sink: texts are collected in a buffer, which is written
//! whenever it has grown long enough.

ghost use Rattle.std.specs.Prelude.{◌≡◌, ◌++◌, ◌≤◌, List, ℕ, [], Option, Ok, OnOk, OnErr, Err, reverse};
ghost use Rattle.std.specs.List.{flat_map};
ghost use Rattle.pc_model.specs.declared.event.Event.{Event};
ghost use Rattle.pc_print.specs.Line.{line_of};
ghost use Rattle.pc_world.specs.World.{HasRisen};
ghost use Rattle.pc_inputs.specs.Status.{fault_line};
ghost use Rattle.parcon.specs.Remark.{remark_line};
ghost use Rattle.parcon.specs.Ending.{text_with};
ghost use Rattle.parcon.specs.RunEnding.{ending_status, journal_text, last_lines, run_text};
ghost use Rattle.parcon.specs.Written.{HasFront, IsOnItsWay, IsWritten, status_after, with_bytes};
ghost use Rattle.pc_inputs.specs.declared.status.Status.TheVariants.{NoMemory, Whole};
ghost use Rattle.parcon.specs.declared.output.OutputFault.TheVariants.{NoMemory as Unstored, SinkFailed as Failed};

use crate::remark::put_remark;
use pc_inputs::{LimitKind, RunPlan, Status, put_fault};
use pc_model::limits::MAX_EVENTS;
use pc_model::{Event, Journal};
use pc_play::Remark;
use pc_pool::Ending;
use pc_print::{put_event, put_summary};
use pc_world::{Sink, SinkFailed};
use std::alloc::{AllocError, Global};

/// The length from which on the buffer is written.
const LONG: usize = 65_536;

/// Why the output is not whole.
#[derive(Clone, Copy, Debug, PartialEq, Eq)]
pub(crate) enum OutputFault {
    /// The sink failed.
    SinkFailed,
    /// Memory ran out.
    NoMemory,
}

impl From<SinkFailed> for OutputFault {
    ghost from_gives = { λ _ e. e ≡ Failed };

    fn from(_e: SinkFailed) -> OutputFault {
        OutputFault::SinkFailed
    }
}

impl From<AllocError> for OutputFault {
    ghost from_gives = { λ _ e. e ≡ Unstored };

    fn from(_e: AllocError) -> OutputFault {
        OutputFault::NoMemory
    }
}

/// Writes all the bytes. After a failure only the first of them stand in the sink.
fn write_all<O: Sink>(out: &mut O, bytes: &[u8]) -> Result<(), SinkFailed>
    ensures whole { OnOk result (O.written out.new ≡ with_bytes (O.written out.old) bytes.now) }
    ensures front { HasFront (O.written out.old) (O.written out.new) bytes.now }
    ensures failed { OnErr result (HasRisen (O.faults out.old) (O.faults out.new)) }
    ensures unfailed { OnOk result (O.faults out.new ≡ O.faults out.old) }
    ensures count { O.faults out.old ≤ O.faults out.new }
{
    let mut rest = bytes;
    while !rest.is_empty() {
        let n = out.write(rest)?;
        rest = &rest[n..];
    }
    Ok(())
}

/// Writes the buffer and empties it.
fn flush<O: Sink>(out: &mut O, buffer: &mut Vec<u8>) -> Result<(), SinkFailed>
    ensures whole { (before : Option (List ℕ)) (text : List ℕ)
        → IsOnItsWay before (O.written out.old) buffer.old.items text
        → OnOk result (O.written out.new ≡ with_bytes before text) }
    ensures empty { OnOk result (buffer.new.items ≡ []) }
    ensures front { (before : Option (List ℕ)) (text : List ℕ)
        → IsOnItsWay before (O.written out.old) buffer.old.items text
        → HasFront before (O.written out.new) text }
    ensures failed { OnErr result (HasRisen (O.faults out.old) (O.faults out.new)) }
    ensures unfailed { OnOk result (O.faults out.new ≡ O.faults out.old) }
    ensures count { O.faults out.old ≤ O.faults out.new }
{
    write_all(out, buffer.as_slice())?;
    buffer.clear();
    Ok(())
}

/// Writes the buffer where it is long.
fn flush_long<O: Sink>(out: &mut O, buffer: &mut Vec<u8>) -> Result<(), SinkFailed>
    ensures ok { (before : Option (List ℕ)) (text : List ℕ)
        → IsOnItsWay before (O.written out.old) buffer.old.items text
        → OnOk result (IsOnItsWay before (O.written out.new) buffer.new.items text) }
    ensures err { (before : Option (List ℕ)) (text : List ℕ)
        → IsOnItsWay before (O.written out.old) buffer.old.items text
        → OnErr result (HasFront before (O.written out.new) text) }
    ensures failed { OnErr result (HasRisen (O.faults out.old) (O.faults out.new)) }
    ensures unfailed { OnOk result (O.faults out.new ≡ O.faults out.old) }
    ensures count { O.faults out.old ≤ O.faults out.new }
{
    if buffer.len() < LONG {
        return Ok(());
    }
    flush(out, buffer)
}

/// Puts the line of each event.
fn put_events<O: Sink>(
    out: &mut O,
    buffer: &mut Vec<u8>,
    events: &[Event],
) -> Result<(), OutputFault>
    ensures ok { (before : Option (List ℕ)) (text : List ℕ)
        → IsOnItsWay before (O.written out.old) buffer.old.items text
        → OnOk result (IsOnItsWay before (O.written out.new) buffer.new.items
        (text ++ flat_map line_of events.now)) }
    ensures err { (before : Option (List ℕ)) (text : List ℕ)
        → IsOnItsWay before (O.written out.old) buffer.old.items text
        → OnErr result (HasFront before (O.written out.new)
        (text ++ flat_map line_of events.now)) }
    ensures failed { result ≡ Err Failed → HasRisen (O.faults out.old) (O.faults out.new) }
    ensures unfailed { OnOk result (O.faults out.new ≡ O.faults out.old) }
    ensures count { O.faults out.old ≤ O.faults out.new }
{
    for event in events {
        put_event(buffer, event)?;
        flush_long(out, buffer)?;
    }
    Ok(())
}

/// Puts the line of each remark.
fn put_remarks<O: Sink>(
    out: &mut O,
    buffer: &mut Vec<u8>,
    remarks: &[Remark],
) -> Result<(), OutputFault>
    ensures ok { (before : Option (List ℕ)) (text : List ℕ)
        → IsOnItsWay before (O.written out.old) buffer.old.items text
        → OnOk result (IsOnItsWay before (O.written out.new) buffer.new.items
        (text ++ flat_map remark_line remarks.now)) }
    ensures err { (before : Option (List ℕ)) (text : List ℕ)
        → IsOnItsWay before (O.written out.old) buffer.old.items text
        → OnErr result (HasFront before (O.written out.new)
        (text ++ flat_map remark_line remarks.now)) }
    ensures failed { result ≡ Err Failed → HasRisen (O.faults out.old) (O.faults out.new) }
    ensures unfailed { OnOk result (O.faults out.new ≡ O.faults out.old) }
    ensures count { O.faults out.old ≤ O.faults out.new }
{
    for remark in remarks {
        put_remark(buffer, remark)?;
        flush_long(out, buffer)?;
    }
    Ok(())
}

/// Writes the text of a history and of the remarks.
fn put_play<O: Sink>(
    alloc: Global,
    out: &mut O,
    journal: &Journal,
    remarks: &[Remark],
) -> Result<(), OutputFault>
    ensures whole { OnOk result (O.written out.new ≡ with_bytes (O.written out.old)
        (text_with journal.now.events remarks.now)) }
    ensures front { HasFront (O.written out.old) (O.written out.new)
        (text_with journal.now.events remarks.now) }
    ensures failed { result ≡ Err Failed → HasRisen (O.faults out.old) (O.faults out.new) }
    ensures unfailed { OnOk result (O.faults out.new ≡ O.faults out.old) }
    ensures count { O.faults out.old ≤ O.faults out.new }
{
    let mut buffer = Vec::new(alloc);
    put_events(out, &mut buffer, journal.as_slice())?;
    put_remarks(out, &mut buffer, remarks)?;
    flush(out, &mut buffer)?;
    Ok(())
}

/// Writes the fault line of a status.
fn put_status<O: Sink>(alloc: Global, out: &mut O, status: &Status) -> Result<(), OutputFault>
    ensures whole { OnOk result
        (O.written out.new ≡ with_bytes (O.written out.old) (fault_line status.now)) }
    ensures front { HasFront (O.written out.old) (O.written out.new) (fault_line status.now) }
    ensures failed { result ≡ Err Failed → HasRisen (O.faults out.old) (O.faults out.new) }
    ensures unfailed { OnOk result (O.faults out.new ≡ O.faults out.old) }
    ensures count { O.faults out.old ≤ O.faults out.new }
{
    let mut line = Vec::new(alloc);
    put_fault(alloc, &mut line, status)?;
    write_all(out, line.as_slice())?;
    Ok(())
}

/// The status that was wanted, or that of the fault which kept the output from being whole.
fn status_after(wanted: Status, put: Result<(), OutputFault>) -> Status
    ensures { result ≡ status_after wanted put }
{
    match put {
        Ok(()) => wanted,
        Err(OutputFault::SinkFailed) => Status::SinkFault,
        Err(OutputFault::NoMemory) => Status::NoMemory,
    }
}

/// Writes the output of a play that went through, and answers the status.
pub(crate) fn tell_play<O: Sink>(
    alloc: Global,
    out: &mut O,
    journal: &Journal,
    remarks: &[Remark],
) -> Status
    ensures { IsWritten (O.written out.old) (O.written out.new) (O.faults out.old)
        (O.faults out.new) (text_with journal.now.events remarks.now) Whole result }
{
    let put = put_play(alloc, out, journal, remarks);
    status_after(Status::Whole, put)
}

/// Writes the output of a play that did not begin, and answers the status. For want of memory there
/// is none.
pub(crate) fn tell_fault<O: Sink>(alloc: Global, out: &mut O, status: Status) -> Status
    ensures written { IsWritten (O.written out.old) (O.written out.new) (O.faults out.old)
        (O.faults out.new) (fault_line status) status result }
    ensures memory { status ≡ NoMemory → result ≡ NoMemory }
{
    match status {
        Status::NoMemory => Status::NoMemory,
        status => {
            let put = put_status(alloc, out, &status);
            status_after(status, put)
        }
    }
}

/// The status of a run's ending.
fn status_of(ended: Ending) -> Status
    ensures { result ≡ ending_status ended }
{
    match ended {
        Ending::Done => Status::Whole,
        Ending::Undrained {
            part,
            offset,
            failures,
        } => Status::Undrained {
            part,
            offset,
            failures,
        },
        Ending::Client(fault) => Status::LinkFault(fault),
        Ending::BadMap { part, fault } => Status::BadMap { part, fault },
        Ending::JournalFull => Status::Limit {
            which: LimitKind::Events,
            number: MAX_EVENTS,
        },
        Ending::NoMemory => Status::NoMemory,
    }
}

/// Puts the text of the journal, unless it is left out.
fn put_journal<O: Sink>(
    out: &mut O,
    buffer: &mut Vec<u8>,
    journal: &Journal,
    summary: bool,
) -> Result<(), OutputFault>
    ensures ok { (before : Option (List ℕ)) (text : List ℕ)
        → IsOnItsWay before (O.written out.old) buffer.old.items text
        → OnOk result (IsOnItsWay before (O.written out.new) buffer.new.items
        (text ++ journal_text summary journal.now.events)) }
    ensures err { (before : Option (List ℕ)) (text : List ℕ)
        → IsOnItsWay before (O.written out.old) buffer.old.items text
        → OnErr result (HasFront before (O.written out.new)
        (text ++ journal_text summary journal.now.events)) }
    ensures failed { result ≡ Err Failed → HasRisen (O.faults out.old) (O.faults out.new) }
    ensures unfailed { OnOk result (O.faults out.new ≡ O.faults out.old) }
    ensures count { O.faults out.old ≤ O.faults out.new }
{
    if summary {
        return Ok(());
    }
    put_events(out, buffer, journal.as_slice())
}

/// Appends the last lines of a run that ended so: the summary, or the fault line.
fn put_last(
    alloc: Global,
    buffer: &mut Vec<u8>,
    plan: &RunPlan<'_>,
    journal: &Journal,
    ended: Ending,
) -> Result<(), AllocError>
    ensures ok { OnOk result (buffer.new.items ≡ buffer.old.items
        ++ last_lines plan.now.setup plan.now.logs journal.now.events ended) }
    ensures err { OnErr result (buffer.new.items ≡ buffer.old.items) }
{
    match ended {
        Ending::Done => put_summary(alloc, buffer, &plan.setup, &plan.logs, journal),
        ended => put_fault(alloc, buffer, &status_of(ended)),
    }
}

/// Writes the output of a run that ended so.
fn put_run<O: Sink>(
    alloc: Global,
    out: &mut O,
    plan: &RunPlan<'_>,
    journal: &Journal,
    ended: Ending,
) -> Result<(), OutputFault>
    ensures whole { OnOk result (O.written out.new ≡ with_bytes (O.written out.old)
        (journal_text plan.now.summary journal.now.events
        ++ last_lines plan.now.setup plan.now.logs journal.now.events ended)) }
    ensures front { HasFront (O.written out.old) (O.written out.new)
        (journal_text plan.now.summary journal.now.events
        ++ last_lines plan.now.setup plan.now.logs journal.now.events ended) }
    ensures failed { result ≡ Err Failed → HasRisen (O.faults out.old) (O.faults out.new) }
    ensures unfailed { OnOk result (O.faults out.new ≡ O.faults out.old) }
    ensures count { O.faults out.old ≤ O.faults out.new }
{
    let mut buffer = Vec::new(alloc);
    put_journal(out, &mut buffer, journal, plan.summary)?;
    put_last(alloc, &mut buffer, plan, journal, ended)?;
    flush(out, &mut buffer)?;
    Ok(())
}

/// Writes the output of a run that ended so, and returns the status. Where the run ran out of memory
/// there is none.
pub(crate) fn tell_run<O: Sink>(
    alloc: Global,
    out: &mut O,
    plan: &RunPlan<'_>,
    journal: &Journal,
    ended: Ending,
) -> Status
    ensures { IsWritten (O.written out.old) (O.written out.new) (O.faults out.old)
        (O.faults out.new)
        (run_text plan.now.summary plan.now.setup plan.now.logs journal.now.events ended)
        (ending_status ended) result }
{
    match ended {
        Ending::NoMemory => Status::NoMemory,
        ended => {
            let put = put_run(alloc, out, plan, journal, ended);
            status_after(status_of(ended), put)
        }
    }
}

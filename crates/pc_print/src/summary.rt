//! The summary of a run.

ghost use Rattle.std.specs.Prelude.{◌≡◌, ◌++◌, [], true, take, vec_len, OnOk, OnErr, IfOk, unwrap_or};
ghost use Rattle.pc_model.specs.Given.{rises_from};
ghost use Rattle.pc_batch.specs.Record.{plain};
ghost use Rattle.pc_cursor.specs.Cursor.{not_below};
ghost use Rattle.pc_broker_log.specs.Logs.{log_at};
ghost use Rattle.pc_print.specs.HeldParts.{plain_first};
ghost use Rattle.pc_print.specs.Passed.{lines_past};
ghost use Rattle.pc_print.specs.Summary.{end_of, part_summary, record_line, summary_of};

use crate::held_parts::{First, HeldParts};
use crate::passed::Passed;
use crate::word::Word::{Marked, Number};
use crate::word::put_line;
use pc_batch::RecordRef;
use pc_broker_log::BrokerLogs;
use pc_cursor::Cursor;
use pc_model::{Journal, Setup, Work};
use pc_task::answer_of;
use std::alloc::{AllocError, Global};

/// Appends the summary of a journal over the setup and the logs: for each part that is held at the
/// end, in rising order, a line for each record that the part's first assignment does not pass
/// over, with the function's answer, and a line for the part's end.
///
/// The only error is out of memory, after which `out` is as before.
pub fn put_summary(
    alloc: Global,
    out: &mut Vec<u8>,
    setup: &Setup,
    logs: &BrokerLogs<'_>,
    journal: &Journal,
) -> Result<(), AllocError>
    ensures ok { OnOk result (out.new.items
        ≡ out.old.items ++ summary_of setup.now logs.now journal.now.events) }
    ensures err { OnErr result (out.new.items ≡ out.old.items) }
{
    let before = out.len();
    let put = put_parts(alloc, out, setup, logs, journal);
    if put.is_err() {
        out.truncate(before);
    }
    put
}

/// As `put_summary`, but when out of memory more bytes may stand after those of before.
fn put_parts(
    alloc: Global,
    out: &mut Vec<u8>,
    setup: &Setup,
    logs: &BrokerLogs<'_>,
    journal: &Journal,
) -> Result<(), AllocError>
    ensures ok { OnOk result (out.new.items
        ≡ out.old.items ++ summary_of setup.now logs.now journal.now.events) }
    ensures err { OnErr result (take (vec_len out.old) out.new.items ≡ out.old.items) }
{
    let held = HeldParts::of(alloc, logs.parts(), journal)?;
    for part in 0..logs.parts() {
        if let Some(start) = held.start(part) {
            put_part(alloc, out, setup.settings.rules.work, logs, part, &start)?;
        }
    }
    Ok(())
}

/// Appends the lines of a part. Out of memory, more bytes may stand after those of
/// before.
#[tactic(auto, unfolding(crate::specs::Summary::part_summary))]
fn put_part(
    alloc: Global,
    out: &mut Vec<u8>,
    work: Work,
    logs: &BrokerLogs<'_>,
    part: u32,
    start: &First<'_>,
) -> Result<(), AllocError>
    ensures ok { OnOk result (out.new.items ≡ out.old.items
        ++ part_summary work (plain_first start.now) part (unwrap_or (log_at logs.now part) [])) }
    ensures err { OnErr result (take (vec_len out.old) out.new.items ≡ out.old.items) }
{
    let passed = Passed::by(alloc, start)?;
    let end = put_log(alloc, out, work, logs, part, &passed)?;
    put_line(out, b"end", &[Number(u64::from(part)), Number(end)])
}

/// Appends the lines of the part's records that are not passed over, and gives the offset after the
/// last record from the commit's position on, or that position where there is none. Out of memory,
/// more bytes may stand after those of before.
fn put_log(
    alloc: Global,
    out: &mut Vec<u8>,
    work: Work,
    logs: &BrokerLogs<'_>,
    part: u32,
    passed: &Passed,
) -> Result<u64, AllocError>
    ensures ok { let records = unwrap_or (log_at logs.now part) [] in
        OnOk result (out.new.items ≡ out.old.items
        ++ lines_past work part passed.now (not_below passed.now.position records)) }
    ensures end { let records = unwrap_or (log_at logs.now part) [] in IfOk result
        (λ end. end ≡ end_of passed.now.position (not_below passed.now.position records)) }
    ensures err { OnErr result (take (vec_len out.old) out.new.items ≡ out.old.items) }
{
    let Some(log) = logs.log(part) else {
        return Ok(passed.position);
    };
    let mut records = log.cursor();
    records.seek(passed.position);
    put_records(alloc, out, work, part, passed, records)
}

/// The same of the records that a cursor has left.
fn put_records(
    alloc: Global,
    out: &mut Vec<u8>,
    work: Work,
    part: u32,
    passed: &Passed,
    records: Cursor<'_>,
) -> Result<u64, AllocError>
    requires { rises_from 0 records.left ≡ true }
    ensures ok { OnOk result (out.new.items
        ≡ out.old.items ++ lines_past work part passed.now records.entry.left) }
    ensures end { IfOk result (λ end. end ≡ end_of passed.now.position records.entry.left) }
    ensures err { OnErr result (take (vec_len out.old) out.new.items ≡ out.old.items) }
{
    let mut end = passed.position;
    for item in records {
        if !passed.has(item.offset) {
            put_record(alloc, out, work, part, item)?;
        }
        end = item.offset + 1;
    }
    Ok(end)
}

/// Appends the line of a record. Out of memory, `out` is as before.
fn put_record(
    alloc: Global,
    out: &mut Vec<u8>,
    work: Work,
    part: u32,
    item: RecordRef<'_>,
) -> Result<(), AllocError>
    ensures ok { OnOk result (out.new.items
        ≡ out.old.items ++ record_line work part (plain item.entry)) }
    ensures err { OnErr result (out.new.items ≡ out.old.items) }
{
    let answer = answer_of(alloc, work, item.value)?;
    let words = [
        Number(u64::from(part)),
        Number(item.offset),
        Marked(answer.as_slice()),
    ];
    put_line(out, b"record", &words)
}

//! A log that was checked: clauses see its batches, with the place after each.

ghost use Rattle.std.specs.Prelude.{◌≡◌, ◌-◌, ◌==◌, true, List, length, find, is_some, slice_get, option_map, IfOk, IfErr};
ghost use Rattle.pc_batch.specs.Batch.{Contents, Placed};
ghost use Rattle.pc_model.specs.Given.{rises_from};
ghost use Rattle.pc_cursor.specs.Entries.{IsIndex};
ghost use Rattle.pc_cursor.specs.Log.{IsLog, contents_of, all_batches, all_records, above_of, next_batch, records_of, Tells, GivesLog};

use crate::cursor::Cursor;
use crate::entry::Entry;
use crate::fault::{CheckFault, LogFault, LogFaultKind};
use pc_batch::{Batch, Records, read_batch};
use std::alloc::Global;
use std::marker::Model;

/// A log whose every batch was read.
#[derive(Debug, Drop)]
pub struct Log<'a> {
    bytes: &'a [u8],
    entries: Vec<Entry>,
    records: u64,
}

impl<'a> Model for Log<'a> {
    ghost use Rattle.std.specs.Prelude.{◌≡◌, List, length};
    ghost use Rattle.pc_batch.specs.Batch.{Placed};

    ghost Value = { List Placed };

    ghost use Rattle.pc_cursor.specs.Log.{batches_of, all_records};
    ghost use Rattle.pc_cursor.specs.Entries.{IsIndex};

    ghost view = { λ log. batches_of log.bytes.now };

    ghost invariant = { λ log. IsIndex log.bytes.now log.entries.items
        × (log.records ≡ length (all_records log.bytes.now)) };
}

// The batch, whose offsets are to be above those of the batch before it.
fn above(batch: Batch<'_>, place: u64, before: Option<u64>) -> Result<Batch<'_>, LogFault>
    ensures { result ≡ above_of place before batch.entry }
{
    let Some(last) = before else {
        return Ok(batch);
    };
    let next = batch.base_offset();
    if next <= last {
        return Err(LogFault {
            place,
            fault: LogFaultKind::OffsetsFall { last, next },
        });
    }
    Ok(batch)
}

// The next batch of the log.
fn next(bytes: &[u8], place: u64, before: Option<u64>) -> Result<Batch<'_>, LogFault>
    ensures { result ≡ next_batch bytes.now place before }
{
    match read_batch(bytes, place) {
        Ok(batch) => above(batch, place, before),
        Err(fault) => Err(LogFault {
            place,
            fault: LogFaultKind::Batch(fault),
        }),
    }
}

// The records of the last batch that has any, of a log with this many of them.
fn last_records<'a>(bytes: &'a [u8], entries: &[Entry], count: u64) -> Records<'a>
    requires index { IsIndex bytes.now entries.now }
    requires counted { count ≡ length (all_records bytes.now) }
    ensures { slice_get result (length result - 1)
        ≡ slice_get (all_records bytes.now) (length (all_records bytes.now) - 1) }
{
    let behind = entries.partition_point(|entry| entry.before < count);
    if behind == 0 {
        return Records::none();
    }
    match read_batch(bytes, entries[behind - 1].place) {
        Ok(batch) => batch.records(),
        Err(_) => Records::none(),
    }
}

impl<'a> Log<'a> {
    /// Reads the whole log: every batch and every record of it.
    pub fn check(alloc: Global, bytes: &'a [u8]) -> Result<Log<'a>, CheckFault>
        // What is read is a log, and a log is read unless it is out of memory.
        ensures found { IfOk result (λ log. IsLog bytes.now (contents_of log)) }
        ensures only { (batches : List Contents) →
            IsLog bytes.now batches → GivesLog result batches }
        // Which fault it is.
        ensures value { IfOk result (λ log. all_batches bytes.now ≡ Ok log) }
        ensures fault { IfErr result (λ e. Tells e (all_batches bytes.now)) }
    {
        let mut entries = Vec::new(alloc);
        let mut place = 0;
        let mut before = None;
        let mut records = 0;
        'batches: while place < bytes.len() as u64 {
            let batch = match next(bytes, place, before) {
                Ok(batch) => batch,
                Err(fault) => return Err(CheckFault::Bad(fault)),
            };
            let last = batch.last_offset();
            entries.push(Entry {
                place,
                base: batch.base_offset(),
                last,
                before: records,
            })?;
            before = Some(last);
            place = batch.end();
            records += u64::from(batch.count());
        }
        Ok(Log {
            bytes,
            entries,
            records,
        })
    }

    /// How many records the log has.
    pub fn records(&self) -> u64
        ensures count { result ≡ length (records_of (contents_of self.now)) }
        // Their offsets rise, and are at most 2^63 - 2.
        ensures rise { rises_from 0 (records_of (contents_of self.now)) ≡ true }
    {
        self.records
    }

    /// Whether the log has a record at the offset.
    pub fn has(&self, offset: u64) -> bool
        ensures { result
            ≡ is_some (find (λ r. r.offset == offset) (records_of (contents_of self.now))) }
    {
        let mut cursor = Cursor::new(self.bytes, &self.entries);
        cursor.seek(offset);
        match cursor.next() {
            Some(record) => record.offset == offset,
            None => false,
        }
    }

    /// The offset of the first record.
    pub fn first(&self) -> Option<u64>
        ensures { result
            ≡ option_map (λ r. r.offset) (slice_get (records_of (contents_of self.now)) 0) }
    {
        self.cursor().next().map(|record| record.offset)
    }

    /// The offset of the last record.
    pub fn last(&self) -> Option<u64>
        ensures { result ≡ option_map (λ r. r.offset)
            (slice_get (records_of (contents_of self.now))
            (length (records_of (contents_of self.now)) - 1)) }
    {
        let record = last_records(self.bytes, &self.entries, self.records).last()?;
        Some(record.offset)
    }

    /// A cursor at the first record.
    pub fn cursor(&self) -> Cursor<'_>
        ensures all { result.all ≡ records_of (contents_of self.now) }
        ensures left { result.left ≡ records_of (contents_of self.now) }
    {
        Cursor::new(self.bytes, &self.entries)
    }
}

//! A cursor over the records of a log: clauses see the log's records and those that are left.

ghost use Rattle.std.specs.Prelude.{◌≡◌};
ghost use Rattle.std.specs.Iterator.{YieldsFirstBy};
ghost use Rattle.pc_batch.specs.Record.{plain};
ghost use Rattle.pc_cursor.specs.Cursor.{GivesUpto, not_below, records_from};
ghost use Rattle.pc_cursor.specs.Entries.{IsIndex};
ghost use Rattle.pc_cursor.specs.Log.{all_records};

use crate::entry::Entry;
use pc_batch::{RecordRef, Records, read_batch};
use std::marker::Model;

/// The records of a log that were not given yet, in the order of their offsets. Each batch is read
/// again when its records are asked for.
#[derive(Debug, Drop)]
pub struct Cursor<'a> {
    bytes: &'a [u8],
    entries: &'a [Entry],
    place: u64,
    records: Records<'a>,
    least: u64,
}

impl<'a> Model for Cursor<'a> {
    ghost use Rattle.std.specs.Prelude.{◌++◌};
    ghost use Rattle.pc_cursor.specs.Cursor.{CursorView, not_below, records_from};

    ghost Value = { CursorView };

    ghost use Rattle.pc_cursor.specs.Entries.{IsIndex};
    ghost use Rattle.pc_cursor.specs.Log.{all_records};

    ghost view = { λ c. record {
      all = all_records c.bytes.now;
      left = not_below c.least (c.records ++ records_from c.bytes.now c.place);
    } };

    ghost invariant = { λ c. IsIndex c.bytes.now c.entries.now };
}

// The place of the first batch whose last offset is not below this one, or the end.
fn batch_place(bytes: &[u8], entries: &[Entry], offset: u64) -> u64
    requires { IsIndex bytes.now entries.now }
    ensures { not_below offset (records_from bytes.now result)
        ≡ not_below offset (all_records bytes.now) }
{
    let found = entries.partition_point(|entry| entry.last < offset);
    match entries.get(found) {
        Some(entry) => entry.place,
        None => bytes.len() as u64,
    }
}

// The next record of a batch that is not below the least.
fn next_of<'a>(records: &mut Records<'a>, least: u64) -> Option<RecordRef<'a>>
    ensures { YieldsFirstBy plain (not_below least) records.old result records.new }
{
    'records: while let Some(record) = records.next() {
        if least <= record.offset {
            return Some(record);
        }
    }
    None
}

impl<'a> Cursor<'a> {
    /// A cursor at the first record.
    pub(crate) fn new(bytes: &'a [u8], entries: &'a [Entry]) -> Cursor<'a>
        requires { IsIndex bytes.now entries.now }
        ensures all { result.all ≡ all_records bytes.now }
        ensures left { result.left ≡ all_records bytes.now }
    {
        Cursor {
            bytes,
            entries,
            place: 0,
            records: Records::none(),
            least: 0,
        }
    }

    /// Goes to the first record that is not below the offset, forwards or backwards.
    pub fn seek(&mut self, offset: u64)
        ensures left { self.new.left ≡ not_below offset self.old.all }
        ensures all { self.new.all ≡ self.old.all }
    {
        self.place = batch_place(self.bytes, self.entries, offset);
        self.records = Records::none();
        self.least = offset;
    }

    /// The same cursor once more. It reads no batch that this one has read.
    pub fn again(&self) -> Cursor<'a>
        ensures { result ≡ self.now }
    {
        Cursor {
            bytes: self.bytes,
            entries: self.entries,
            place: self.place,
            records: self.records.again(),
            least: self.least,
        }
    }

    /// The next record, if it is not above the offset. One that is above stays the next.
    pub fn next_upto(&mut self, last: u64) -> Option<RecordRef<'a>>
        ensures { GivesUpto last self.old result self.new }
    {
        let mut ahead = self.again();
        let record = ahead.next()?;
        if last < record.offset {
            return None;
        }
        *self = ahead;
        Some(record)
    }
}

impl<'a> Iterator for Cursor<'a> {
    ghost use Rattle.std.specs.Iterator.{item_count};
    ghost use Rattle.pc_cursor.specs.Cursor.{GivesNext};

    type Item = RecordRef<'a>;

    ghost next_gives = { GivesNext };

    ghost remaining = { item_count (λ c. c.left) };

    fn next(&mut self) -> Option<RecordRef<'a>> {
        'batches: loop {
            if let Some(record) = next_of(&mut self.records, self.least) {
                return Some(record);
            }
            let Ok(batch) = read_batch(self.bytes, self.place) else {
                return None;
            };
            self.records = batch.records();
            self.place = batch.end();
        }
    }
}

//! The logs of all parts. Clauses see the records of each.

ghost use Rattle.std.specs.Prelude.{◌≡◌, ◌-◌, ◌<◌, ◌≤◌, ◌++◌, true, [], length, replicate, Some, None, Err, is_some, option_map, unwrap_or, OnOk, OnErr, IfErr, IfSome, find, ◌==◌};
ghost use Rattle.std.specs.List.{list_all};
ghost use Rattle.pc_model.specs.Given.{rises_from};
ghost use Rattle.pc_batch.specs.Record.{plain};
ghost use Rattle.pc_cursor.specs.Cursor.{not_below};
ghost use Rattle.pc_cursor.specs.Log.{contents_of, records_of};
ghost use Rattle.pc_broker_log.specs.declared.fault.AddFault.{AddFault};
ghost use Rattle.pc_broker_log.specs.declared.fault.AddFault.TheVariants.{NoMemory};
ghost use Rattle.pc_broker_log.specs.Logs.{log_at, record_total, add_refusal, with_log};

use crate::fault::AddFault;
use pc_batch::RecordRef;
use pc_cursor::{Cursor, Log};
use pc_model::limits::{MAX_PARTS, MAX_RECORDS};
use std::alloc::{AllocError, Global};
use std::marker::Model;

/// The checked logs of the parts, each part with at most one.
#[derive(Debug, Drop)]
pub struct BrokerLogs<'a> {
    logs: Vec<Option<Log<'a>>>,
    records: u64,
}

impl<'a> Model for BrokerLogs<'a> {
    ghost use Rattle.std.specs.Prelude.{List, Option};
    ghost use Rattle.pc_model.specs.Record.{Record};

    ghost Value = { List (Option (List Record)) };

    ghost use Rattle.pc_broker_log.specs.Logs.{logs_of, IsTable};

    ghost view = { λ b. logs_of b.logs.items };

    ghost invariant = { λ b. IsTable (logs_of b.logs.items) b.records };
}

// At least this many places; the new ones have no log.
fn grow<'a>(logs: &mut Vec<Option<Log<'a>>>, len: usize) -> Result<(), AllocError>
    ensures ok { OnOk result (logs.new.items
        ≡ logs.old.items ++ replicate (len - length logs.old.items) None) }
    ensures stays { OnErr result (logs.new.items ≡ logs.old.items) }
{
    logs.reserve(len.saturating_sub(logs.len()))?;
    'places: while logs.len() < len {
        logs.push_reserved(None);
    }
    Ok(())
}

impl<'a> BrokerLogs<'a> {
    /// No logs.
    pub fn new(alloc: Global) -> BrokerLogs<'a>
        ensures { result ≡ [] }
    {
        BrokerLogs {
            logs: Vec::new(alloc),
            records: 0,
        }
    }

    // Why a log of this many records is not taken, but when out of memory.
    fn may_add(&self, part: u32, records: u64) -> Result<(), AddFault>
        ensures refused { (fault : AddFault) →
            add_refusal self.now part records ≡ Some fault → result ≡ Err fault }
        ensures allowed { OnErr result (is_some (add_refusal self.now part records) ≡ true) }
    {
        if part >= MAX_PARTS {
            return Err(AddFault::UnknownPart);
        }
        if self.log(part).is_some() {
            return Err(AddFault::TwiceGiven);
        }
        if records > u64::from(MAX_RECORDS) - self.records {
            return Err(AddFault::TooManyRecords);
        }
        Ok(())
    }

    /// Gives the part its log.
    ///
    /// Refuses with `UnknownPart`, `TwiceGiven`, `TooManyRecords` or `NoMemory`, the first that
    /// applies.
    pub fn add(&mut self, part: u32, log: Log<'a>) -> Result<(), AddFault>
        ensures added { OnOk result (self.new
            ≡ with_log self.old part (records_of (contents_of log.entry))) }
        ensures refused { let count = length (records_of (contents_of log.entry)) in
            (fault : AddFault) → add_refusal self.old part count ≡ Some fault →
            result ≡ Err fault }
        ensures allowed { let count = length (records_of (contents_of log.entry)) in
            add_refusal self.old part count ≡ None → IfErr result (λ fault. fault ≡ NoMemory) }
        ensures stays { OnErr result (self.new ≡ self.old) }
    {
        let records = log.records();
        self.may_add(part, records)?;
        let at = part as usize;
        grow(&mut self.logs, at + 1)?;
        self.logs[at] = Some(log);
        self.records += records;
        Ok(())
    }

    /// The log of the part.
    pub fn log(&self, part: u32) -> Option<&Log<'a>>
        ensures value { option_map (λ log. records_of (contents_of log.now)) result
            ≡ log_at self.now part }
        // Its offsets rise.
        ensures rise { IfSome result
            (λ log. rises_from 0 (records_of (contents_of log.now)) ≡ true) }
    {
        self.logs.get(part as usize)?.as_ref()
    }

    /// One more than the greatest part that has a log, or 0 without logs.
    pub fn parts(&self) -> u32
        ensures count { result ≡ length self.now }
        ensures greatest { 0 < result → is_some (log_at self.now (result - 1)) ≡ true }
        // Parts are below 1,024, all records are at most 1,000,000, and the offsets of each log
        // rise.
        ensures most { result ≤ MAX_PARTS }
        ensures few { record_total self.now ≤ MAX_RECORDS }
        ensures rise { list_all (λ log. rises_from 0 (unwrap_or log [])) self.now ≡ true }
    {
        self.logs.len() as u32
    }

    /// A cursor at the first record of the part that is not below an offset. None where the part
    /// has no log.
    pub fn cursor(&self, part: u32, from: u64) -> Option<Cursor<'_>>
        ensures { option_map (λ c. c.left) result
            ≡ option_map (not_below from) (log_at self.now part) }
    {
        let mut cursor = self.log(part)?.cursor();
        cursor.seek(from);
        Some(cursor)
    }

    /// The part's record at the offset. None where the part has no log or no record is there.
    pub fn record(&self, part: u32, offset: u64) -> Option<RecordRef<'_>>
        ensures { option_map plain result
            ≡ find (λ r. r.offset == offset) (unwrap_or (log_at self.now part) []) }
    {
        let mut cursor = self.log(part)?.cursor();
        cursor.seek(offset);
        let record = cursor.next()?;
        (record.offset == offset).then_some(record)
    }
}

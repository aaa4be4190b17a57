//! The records of a batch, given one after the other: clauses see what is left of them as a list.

ghost use Rattle.std.specs.Prelude.{◌≡◌, ◌+◌, ◌<◌, ◌^◌, length, []};
ghost use Rattle.pc_batch.specs.Record.{IsSound};
ghost use Rattle.pc_batch.specs.Records.{records_at, front_records, counted};

use crate::fault::BatchFault;
use crate::fields;
use crate::frame::{Frame, Times};
use crate::record::{self, RecordRef};
use pc_bytes::Reader;
use std::marker::Model;

/// The records of a batch that were not given yet, in the order of their offsets.
#[derive(Debug, Drop)]
pub struct Records<'a> {
    bytes: &'a [u8],
    frame: Frame,
    least: u64,
}

impl<'a> Model for Records<'a> {
    ghost use Rattle.std.specs.Prelude.{List, length};
    ghost use Rattle.pc_model.specs.Record.{Record};

    ghost Value = { List Record };

    ghost use Rattle.pc_batch.specs.Record.{IsSound};
    ghost use Rattle.pc_batch.specs.Records.{front_records};

    ghost view = { λ r. front_records (length r.bytes.now) r.frame r.least r.bytes.now };

    ghost invariant = { λ r. IsSound r.frame };
}

impl<'a> Records<'a> {
    /// No records.
    pub fn none() -> Records<'a>
        ensures { result ≡ [] }
    {
        Records {
            bytes: &[],
            frame: Frame {
                base: 0,
                last: 0,
                times: Times::All(0),
            },
            least: 0,
        }
    }

    /// The records that the bytes begin with.
    pub(crate) fn new(frame: Frame, bytes: &'a [u8]) -> Records<'a>
        requires { IsSound frame }
        ensures { result ≡ front_records (length bytes.now) frame frame.base bytes.now }
    {
        Records {
            bytes,
            frame,
            least: frame.base,
        }
    }

    /// The same records once more, without a look at the bytes.
    pub fn again(&self) -> Records<'a>
        ensures { result ≡ self.now }
    {
        Records {
            bytes: self.bytes,
            frame: self.frame,
            least: self.least,
        }
    }
}

impl<'a> Iterator for Records<'a> {
    ghost use Rattle.std.specs.Iterator.{YieldsFirstBy, item_count};
    ghost use Rattle.pc_batch.specs.Record.{plain};

    type Item = RecordRef<'a>;

    ghost next_gives = { YieldsFirstBy plain (λ left. left) };

    ghost remaining = { item_count (λ left. left) };

    fn next(&mut self) -> Option<RecordRef<'a>> {
        let mut reader = Reader::new(self.bytes, 0);
        let Ok(record) = record::next(&self.frame, self.least, &mut reader) else {
            return None;
        };
        self.bytes = fields::rest(&mut reader);
        self.least = record.offset + 1;
        Some(record)
    }
}

/// Reads every record up to the end of the bytes, which begin at `place`, and counts them.
pub(crate) fn count(frame: &Frame, bytes: &[u8], place: u64) -> Result<u32, BatchFault>
    requires sound { IsSound frame.now }
    requires places { place + length bytes.now < 2 ^ 64 }
    requires room { length bytes.now < 2 ^ 32 }
    ensures { result ≡ counted 0 (place + length bytes.now)
        (records_at (length bytes.now) frame.now frame.now.base bytes.now) }
{
    let mut reader = Reader::new(bytes, place);
    let mut least = frame.base;
    let mut found = 0;
    'records: while reader.left() > 0 {
        let place = reader.place();
        match record::next(frame, least, &mut reader) {
            Ok(record) => least = record.offset + 1,
            Err(kind) => return Err(BatchFault::BadRecord { place, kind }),
        }
        found += 1;
    }
    Ok(found)
}

//! A batch, read in place.

ghost use Rattle.std.specs.Prelude.{◌≡◌, ◌+◌, ◌<◌, ◌^◌, ℕ, List, Some, None, Ok, drop, length, IfOk, IfErr, OnOk};
ghost use Rattle.pc_batch.specs.Batch.{Placed, given_by, batch_at, batch_from, batch_fault, IsBatchAt};

use crate::fault::BatchFault;
use crate::frame::Frame;
use crate::header::{self, HEADER_LEN};
use crate::records::{self, Records};
use std::marker::Model;

/// A batch whose every record was read. It lends its records from the bytes of the log.
#[derive(Debug, Drop)]
pub struct Batch<'a> {
    frame: Frame,
    control: bool,
    records: &'a [u8],
    found: u32,
    end: u64,
}

impl<'a> Model for Batch<'a> {
    ghost use Rattle.std.specs.Prelude.{◌≡◌, length};
    ghost use Rattle.pc_batch.specs.Batch.{Placed};

    ghost Value = { Placed };

    ghost use Rattle.pc_batch.specs.Record.{IsSound};
    ghost use Rattle.pc_batch.specs.Records.{front_records};

    ghost view = { λ b. record {
      contents = record {
        base = b.frame.base;
        last = b.frame.last;
        control = b.control;
        records = front_records (length b.records.now) b.frame b.frame.base b.records.now;
      };
      end = b.end;
    } };

    ghost invariant = { λ b. IsSound b.frame
        × (b.found ≡ length
        (front_records (length b.records.now) b.frame b.frame.base b.records.now)) };
}

impl<'a> Batch<'a> {
    /// The records, in the order of their offsets. A control batch gives none.
    pub fn records(&self) -> Records<'a>
        ensures { result ≡ given_by self.now.contents }
    {
        if self.control {
            Records::new(self.frame, &self.records[..0])
        } else {
            Records::new(self.frame, self.records)
        }
    }

    /// How many records the batch gives.
    pub fn count(&self) -> u32
        ensures { result ≡ length (given_by self.now.contents) }
    {
        if self.control { 0 } else { self.found }
    }

    /// The place after the batch.
    pub fn end(&self) -> u64
        ensures { result ≡ self.now.end }
    {
        self.end
    }

    /// The base offset, which no record is below.
    pub fn base_offset(&self) -> u64
        ensures { result ≡ self.now.contents.base }
    {
        self.frame.base
    }

    /// The last offset, which no record is above. It may be that of no record.
    pub fn last_offset(&self) -> u64
        ensures { result ≡ self.now.contents.last }
    {
        self.frame.last
    }
}

// The batch at the front of the bytes, which is the place `at`.
#[tactic(auto, unfolding(crate::specs::Batch::batch_at))]
fn batch_of<'a>(at: u64, bytes: &'a [u8]) -> Result<Batch<'a>, BatchFault>
    requires { at + length bytes.now < 2 ^ 64 }
    ensures value { IfOk result (λ b. batch_at at bytes.now ≡ Ok b) }
    ensures fault { IfErr result (λ f. batch_at at bytes.now ≡ Err f) }
{
    let text = header::whole(at, bytes)?;
    header::check_intact(text)?;
    let frame = header::frame(text)?;
    let (_, records) = text.split_at(HEADER_LEN);
    let found = records::count(&frame, records, at + HEADER_LEN as u64)?;
    let header = header::record_count(text);
    if i64::from(header) != i64::from(found) {
        return Err(BatchFault::Count { header, found });
    }
    Ok(Batch {
        frame,
        control: header::is_control(text),
        records,
        found,
        end: at + text.len() as u64,
    })
}

// The bytes from a place on.
fn from_place(bytes: &[u8], at: u64) -> &[u8]
    ensures { result.now ≡ drop at bytes.now }
{
    let (_, rest) = bytes.split_at(at.min(bytes.len() as u64) as usize);
    rest
}

/// Reads the batch that begins at the place `at` of a log, and all of its records. What is refused
/// has the first fault that applies, in the order of `BatchFault`.
pub fn read_batch<'a>(bytes: &'a [u8], at: u64) -> Result<Batch<'a>, BatchFault>
    // What is read is a batch, and a batch is read.
    ensures found { IfOk result (λ b. IsBatchAt bytes.now at b) }
    ensures only { (batch : Placed) → IsBatchAt bytes.now at batch → result ≡ Ok batch }
    ensures value { IfOk result (λ b. batch_from bytes.now at ≡ Ok b) }
    // Which fault it is.
    ensures sound { OnOk result (batch_fault bytes.now at ≡ None) }
    ensures fault { IfErr result (λ f. batch_fault bytes.now at ≡ Some f) }
{
    batch_of(at, from_place(bytes, at))
}

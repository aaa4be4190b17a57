//! A batch, written.

ghost use Rattle.std.specs.Prelude.{◌≡◌, ◌≤◌, ◌<◌, ◌^◌, ◌+◌, ◌++◌, ◌⊎◌, ℕ, pos, All, map, length, Ok, Err, IfOk, IfErr, OnOk, FitsSigned};
ghost use Rattle.std.specs.Int.{w64};
ghost use Rattle.pc_batch.specs.Batch.{IsBatch};
ghost use Rattle.pc_batch_writer.specs.declared.fault.WriteFault.TheVariants.{NoMemory};
ghost use Rattle.pc_batch_writer.specs.Writing.{Gives, Answers, IsNear, IsWithin, plain_new, span_spelling, producer_spelling, covered_spelling, batch_spelling, short, written_of, contents_of};

use crate::checks;
use crate::fault::WriteFault;
use crate::fields::{put_i16, put_i32, put_i64, put_u32};
use crate::new_record::NewRecord;
use crate::put::put_records;
use pc_bytes::crc32c;
use std::alloc::{AllocError, Global};

/// The greatest number of a length field.
const LEN_MAX: usize = i32::MAX as usize;

/// The bytes of a batch after the length field and before those that the checksum covers.
const BEFORE_COVERED: usize = 9;

/// The format's version.
const MAGIC: u8 = 2;

/// Writes one batch: the base offset and the base time are those of the first record. The leader epoch
/// and all attributes are 0, the producer's fields -1. Every number has its shortest spelling. Fails
/// with the first fault that applies, in the order of `WriteFault`.
pub fn write_batch(alloc: Global, records: &[NewRecord<'_>]) -> Result<Vec<u8>, WriteFault>
    // What is written is a batch of these records.
    ensures batch { IfOk result (λ bytes.
        IsBatch bytes.items (contents_of (map plain_new records.now))) }

    // Each byte of it, and which fault it is.
    ensures written { IfOk result (λ bytes.
        written_of (map plain_new records.now) ≡ Ok bytes.items) }
    ensures fault { IfErr result (λ fault. (fault ≡ NoMemory)
        ⊎ (written_of (map plain_new records.now) ≡ Err fault)) }
{
    let Some((first, rest)) = records.split_first() else {
        return Err(WriteFault::Empty);
    };
    let last = checks::ranged(first.offset, rest)?;
    if !checks::are_near(first.time, records) {
        return Err(WriteFault::TimeTooFar);
    }
    short(alloc, first.offset, last, first.time, records)
}

/// The batch, where no length and no offset delta is too large.
fn short(
    alloc: Global,
    base: u64,
    last: u64,
    first: i64,
    records: &[NewRecord<'_>],
) -> Result<Vec<u8>, WriteFault>
    requires within { All (IsWithin base last first) records.now }
    requires above { base ≤ last }
    requires few { last < 2 ^ 63 }
    ensures answers { Answers (λ v. v.items)
        (short base last (covered_spelling base last first (map plain_new records.now))) result }
    ensures fit { OnOk result (All (λ r. FitsSigned w64 r.time) records.now) }
{
    if last - base > LEN_MAX as u64 {
        return Err(WriteFault::TooLong);
    }
    let covered = covered(alloc, base, last, first, records)?;
    whole(alloc, base, &covered)
}

/// The bytes that the checksum covers: the attributes, the fields after them, and the records.
fn covered(
    alloc: Global,
    base: u64,
    last: u64,
    first: i64,
    records: &[NewRecord<'_>],
) -> Result<Vec<u8>, WriteFault>
    requires near { All (IsNear base first) records.now }
    requires above { base ≤ last }
    requires moved { last < base + 2 ^ 31 }
    ensures gives { let text = covered_spelling base last first (map plain_new records.now) in
        Gives (λ v. v.items) (length text) text result }
    ensures fit { OnOk result (All (λ r. FitsSigned w64 r.time) records.now) }
{
    if records.len() > LEN_MAX {
        return Err(WriteFault::TooLong);
    }
    let greatest = checks::greatest_time(first, records);
    let mut out = Vec::new(alloc);
    put_span(&mut out, (last - base) as u32, first, greatest)?;
    put_producer(&mut out, records.len() as u32)?;
    put_records(alloc, &mut out, base, first, records)?;
    Ok(out)
}

/// Puts the attributes, the last offset's delta, the first time and the greatest.
fn put_span(out: &mut Vec<u8>, delta: u32, first: i64, greatest: i64) -> Result<(), AllocError>
    requires { delta < 2 ^ 31 }
    ensures { OnOk result (out.new.items
        ≡ out.old.items ++ span_spelling delta first greatest) }
{
    put_i16(out, 0)?;
    put_i32(out, delta as i32)?;
    put_i64(out, first)?;
    put_i64(out, greatest)
}

/// Puts the producer's fields, each -1, and the count of the records.
#[tactic(auto, unfolding(crate::specs::Writing::producer_spelling))]
fn put_producer(out: &mut Vec<u8>, count: u32) -> Result<(), AllocError>
    requires { count < 2 ^ 31 }
    ensures { OnOk result (out.new.items ≡ out.old.items ++ producer_spelling count) }
{
    put_i64(out, -1)?;
    put_i16(out, -1)?;
    put_i32(out, -1)?;
    put_i32(out, count as i32)
}

/// The whole batch.
#[tactic(auto, unfolding(crate::specs::Writing::batch_spelling))]
fn whole(alloc: Global, base: u64, covered: &[u8]) -> Result<Vec<u8>, WriteFault>
    requires { base < 2 ^ 63 }
    ensures gives { Gives (λ v. v.items) (BEFORE_COVERED + length covered.now)
        (batch_spelling base covered.now) result }
    ensures short { IfOk result (λ _. BEFORE_COVERED + length covered.now < 2 ^ 31) }
{
    if covered.len() > LEN_MAX - BEFORE_COVERED {
        return Err(WriteFault::TooLong);
    }
    let mut out = Vec::new(alloc);
    put_i64(&mut out, base as i64)?;
    put_i32(&mut out, (BEFORE_COVERED + covered.len()) as i32)?;
    put_i32(&mut out, 0)?;
    out.extend_from_slice(&[MAGIC])?;
    put_u32(&mut out, crc32c(covered))?;
    out.extend_from_slice(covered)?;
    Ok(out)
}

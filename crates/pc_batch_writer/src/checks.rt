//! What is checked before a batch is written.

ghost use Rattle.std.specs.Prelude.{◌≡◌, ◌<◌, ◌^◌, ◌-ℤ◌, map, fold, Ok, All, FitsSigned};
ghost use Rattle.std.specs.Int.{int_max, w64};
ghost use Rattle.std.specs.List.{list_all};
ghost use Rattle.pc_batch.specs.Record.{fits_64};
ghost use Rattle.pc_batch_writer.specs.Writing.{plain_new, offsets_from, in_range, ranged_from};

use crate::fault::WriteFault;
use crate::new_record::NewRecord;

/// The greatest offset.
const OFFSET_MAX: u64 = (1 << 63) - 2;

/// The last offset. The records are those after one at the offset `first`.
fn last_offset(first: u64, records: &[NewRecord<'_>]) -> Result<u64, WriteFault>
    ensures { result ≡ offsets_from first (map plain_new records.now) }
{
    let mut last = first;
    for record in records {
        if record.offset <= last {
            return Err(WriteFault::OffsetsFall {
                last,
                next: record.offset,
            });
        }
        last = record.offset;
    }
    Ok(last)
}

/// The last offset, where it is in the range of offsets.
fn in_range(last: u64) -> Result<u64, WriteFault>
    ensures { result ≡ in_range last }
{
    if last > OFFSET_MAX {
        return Err(WriteFault::OffsetTooLarge);
    }
    Ok(last)
}

/// The last offset, where the offsets rise and are in their range.
pub(crate) fn ranged(first: u64, records: &[NewRecord<'_>]) -> Result<u64, WriteFault>
    ensures { result ≡ ranged_from first (map plain_new records.now) }
{
    let last = last_offset(first, records)?;
    in_range(last)
}

/// Whether each time minus the first is a number of 64 bits.
pub(crate) fn are_near(first: i64, records: &[NewRecord<'_>]) -> bool
    ensures { result ≡ list_all (λ r. fits_64 (r.time -ℤ first)) records.now }
{
    records.iter().all(|record| is_near(first, record.time))
}

/// Whether the time minus the first is a number of 64 bits.
fn is_near(first: i64, time: i64) -> bool
    ensures { result ≡ fits_64 (time -ℤ first) }
{
    time.checked_sub(first).is_some()
}

/// The greatest of the first time and the times of the records.
pub(crate) fn greatest_time(first: i64, records: &[NewRecord<'_>]) -> i64
    ensures greatest { result ≡ fold int_max first (map (λ r. r.time) records.now) }
    // A time is a number of 64 bits.
    ensures fit { All (λ r. FitsSigned w64 r.time) records.now }
{
    let mut greatest = first;
    for record in records {
        greatest = greatest.max(record.time);
    }
    greatest
}

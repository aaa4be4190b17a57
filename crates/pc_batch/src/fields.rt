//! The fields of a record, from left to right, each with its own fault.

ghost use Rattle.std.specs.Prelude.{◌≡◌, List, ℕ, length, drop};
ghost use Rattle.std.specs.Option.{option_copied};
ghost use Rattle.pc_bytes.specs.Fields.{Moves};
ghost use Rattle.pc_batch.specs.Fields.{Reads, byte_at, int_at, long_at, sized_of, sized_at, nullable_at, count_at};

use crate::fault::RecordKind;
use pc_bytes::Reader;

/// The next byte.
pub(crate) fn byte(reader: &mut Reader<'_>) -> Result<u8, RecordKind>
    ensures { Reads (λ n. n) (byte_at reader.old.bytes) reader.new.bytes result }
{
    reader.u8().map_err(|_| RecordKind::Past)
}

/// A number of 32 bits.
pub(crate) fn int(reader: &mut Reader<'_>) -> Result<i32, RecordKind>
    ensures reads { Reads (λ n. n) (int_at reader.old.bytes) reader.new.bytes result }
    ensures moves { Moves reader.old reader.new }
{
    reader.varint().map_err(|_| RecordKind::Varint)
}

/// A number of 64 bits.
pub(crate) fn long(reader: &mut Reader<'_>) -> Result<i64, RecordKind>
    ensures { Reads (λ n. n) (long_at reader.old.bytes) reader.new.bytes result }
{
    reader.varlong().map_err(|_| RecordKind::Varint)
}

/// The part of a length that was read.
fn part_of<'a>(
    reader: &mut Reader<'a>,
    len: i32,
    negative: RecordKind,
    past: RecordKind,
) -> Result<&'a [u8], RecordKind>
    ensures reads { Reads (λ part. part.now) (sized_of negative past len reader.old.bytes)
        reader.new.bytes result }
    ensures moves { Moves reader.old reader.new }
{
    if len < 0 {
        return Err(negative);
    }
    reader.part(len as usize).map_err(|_| past)
}

/// A length, and as many bytes.
#[tactic(auto, unfolding(crate::specs::Fields::sized_at))]
pub(crate) fn sized<'a>(
    reader: &mut Reader<'a>,
    negative: RecordKind,
    past: RecordKind,
) -> Result<&'a [u8], RecordKind>
    ensures reads { Reads (λ part. part.now) (sized_at negative past reader.old.bytes)
        reader.new.bytes result }
    ensures moves { Moves reader.old reader.new }
{
    let len = int(reader)?;
    part_of(reader, len, negative, past)
}

/// A length, and as many bytes. The length -1 is null.
#[tactic(auto, unfolding(crate::specs::Fields::nullable_at))]
pub(crate) fn nullable<'a>(
    reader: &mut Reader<'a>,
    below: RecordKind,
) -> Result<Option<&'a [u8]>, RecordKind>
    ensures { Reads (λ part. option_copied part) (nullable_at below reader.old.bytes)
        reader.new.bytes result }
{
    let len = int(reader)?;
    if len == -1 {
        return Ok(None);
    }
    let part = part_of(reader, len, below, RecordKind::Past)?;
    Ok(Some(part))
}

/// The count of headers.
#[tactic(auto, unfolding(crate::specs::Fields::count_at))]
pub(crate) fn count(reader: &mut Reader<'_>) -> Result<u32, RecordKind>
    ensures { Reads (λ n. n) (count_at reader.old.bytes) reader.new.bytes result }
{
    let count = int(reader)?;
    if count < 0 {
        return Err(RecordKind::HeaderCount);
    }
    Ok(count as u32)
}

/// The bytes that are left.
pub(crate) fn rest<'a>(reader: &mut Reader<'a>) -> &'a [u8]
    ensures { result.now ≡ reader.old.bytes }
{
    match reader.part(reader.left()) {
        Ok(rest) => rest,
        Err(_) => &[],
    }
}

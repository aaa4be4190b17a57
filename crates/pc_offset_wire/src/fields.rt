//! The fields of a frame, from left to right: a value and the bytes after it, or the fault.

ghost use Rattle.std.specs.Prelude.{◌≡◌, length, drop, take};
ghost use Rattle.std.specs.Int.{w16, w32, w64};
ghost use Rattle.std.specs.Option.{option_copied};
ghost use Rattle.pc_model.specs.MessageReading.{part_at, int_at, size_of, size_at, text_at, string_at, nullable_of, nullable_at, fixed_at, position_at};
ghost use Rattle.pc_offset_wire.specs.Reading.{Gives};

use byteorder::{BigEndian, ByteOrder};
use pc_model::WireFault;

/// A number of 16 bits.
pub(crate) fn i16_at(bytes: &[u8]) -> Result<(i16, &[u8]), WireFault>
    ensures { Gives (λ x. (x.0, x.1.now)) result (int_at w16 bytes.now) }
{
    if bytes.len() < 2 {
        return Err(WireFault::Short);
    }
    Ok((BigEndian::read_i16(bytes), &bytes[2..]))
}

/// A number of 32 bits.
pub(crate) fn i32_at(bytes: &[u8]) -> Result<(i32, &[u8]), WireFault>
    ensures { Gives (λ x. (x.0, x.1.now)) result (int_at w32 bytes.now) }
{
    if bytes.len() < 4 {
        return Err(WireFault::Short);
    }
    Ok((BigEndian::read_i32(bytes), &bytes[4..]))
}

/// A number of 64 bits.
pub(crate) fn i64_at(bytes: &[u8]) -> Result<(i64, &[u8]), WireFault>
    ensures { Gives (λ x. (x.0, x.1.now)) result (int_at w64 bytes.now) }
{
    if bytes.len() < 8 {
        return Err(WireFault::Short);
    }
    Ok((BigEndian::read_i64(bytes), &bytes[8..]))
}

/// A count of items, which is not negative.
#[tactic(auto, unfolding(pc_model::specs::MessageReading::size_at))]
pub(crate) fn count_at(bytes: &[u8]) -> Result<(u32, &[u8]), WireFault>
    ensures { Gives (λ x. (x.0, x.1.now)) result (size_at w32 bytes.now) }
{
    let (count, rest) = i32_at(bytes)?;
    if count < 0 {
        return Err(WireFault::NegativeLength);
    }
    Ok((count as u32, rest))
}

/// The length of a string, which is not negative.
#[tactic(auto, unfolding(pc_model::specs::MessageReading::size_at))]
fn length_at(bytes: &[u8]) -> Result<(usize, &[u8]), WireFault>
    ensures { Gives (λ x. (x.0, x.1.now)) result (size_at w16 bytes.now) }
{
    let (len, rest) = i16_at(bytes)?;
    if len < 0 {
        return Err(WireFault::NegativeLength);
    }
    Ok((len as usize, rest))
}

/// A string of this many bytes.
#[tactic(auto, unfolding(pc_model::specs::MessageReading::text_at))]
fn text(len: usize, bytes: &[u8]) -> Result<(&str, &[u8]), WireFault>
    ensures { Gives (λ x. (x.0.now, x.1.now)) result (text_at len bytes.now) }
{
    if bytes.len() < len {
        return Err(WireFault::Short);
    }
    let (part, rest) = bytes.split_at(len);
    match str::from_utf8(part) {
        Ok(text) => Ok((text, rest)),
        Err(_) => Err(WireFault::NotUtf8),
    }
}

/// A string: its length, and as many bytes.
#[tactic(auto, unfolding(pc_model::specs::MessageReading::string_at))]
pub(crate) fn string(bytes: &[u8]) -> Result<(&str, &[u8]), WireFault>
    ensures { Gives (λ x. (x.0.now, x.1.now)) result (string_at bytes.now) }
{
    let (len, rest) = length_at(bytes)?;
    text(len, rest)
}

/// The string after a length that was read, where -1 is null.
#[tactic(auto, unfolding(pc_model::specs::MessageReading::nullable_of))]
fn nullable_text(len: i16, bytes: &[u8]) -> Result<(Option<&str>, &[u8]), WireFault>
    ensures { Gives (λ x. (option_copied x.0, x.1.now)) result (nullable_of (len, bytes.now)) }
{
    if len == -1 {
        return Ok((None, bytes));
    }
    if len < 0 {
        return Err(WireFault::NegativeLength);
    }
    let (text, rest) = text(len as usize, bytes)?;
    Ok((Some(text), rest))
}

/// A string that may be null.
#[tactic(auto, unfolding(pc_model::specs::MessageReading::nullable_at))]
pub(crate) fn nullable(bytes: &[u8]) -> Result<(Option<&str>, &[u8]), WireFault>
    ensures { Gives (λ x. (option_copied x.0, x.1.now)) result (nullable_at bytes.now) }
{
    let (len, rest) = i16_at(bytes)?;
    nullable_text(len, rest)
}

/// The number that has to stand here.
#[tactic(auto, unfolding(pc_model::specs::MessageReading::fixed_at))]
pub(crate) fn fixed(wanted: i16, fault: WireFault, bytes: &[u8]) -> Result<&[u8], WireFault>
    ensures { Gives (λ rest. rest.now) result (fixed_at wanted fault bytes.now) }
{
    let (found, rest) = i16_at(bytes)?;
    if found != wanted {
        return Err(fault);
    }
    Ok(rest)
}

/// A position that is not below the least.
#[tactic(auto, unfolding(pc_model::specs::MessageReading::position_at))]
pub(crate) fn position(least: i64, bytes: &[u8]) -> Result<(i64, &[u8]), WireFault>
    ensures { Gives (λ x. (x.0, x.1.now)) result (position_at least bytes.now) }
{
    let (position, rest) = i64_at(bytes)?;
    if position < least {
        return Err(WireFault::BadOffset);
    }
    Ok((position, rest))
}

//! The fields of a frame, put one after the other.

ghost use Rattle.std.specs.Prelude.{◌≡◌, ◌++◌, ◌<◌, ◌^◌, ℕ, List, All, pos, length, map, OnOk, IfOk, Ok, Err};
ghost use Rattle.std.specs.Int.{w16, w32, w64};
ghost use Rattle.std.specs.List.{flat_map, AllByRecursion};
ghost use Rattle.std.specs.Option.{option_copied};
ghost use Rattle.pc_model.specs.Messages.{int_spelling, string_spelling, nullable_spelling, array_spelling, header_spelling, IsString, IsNullable, IsArray, IsFrame};
ghost use Rattle.pc_offset_wire.specs.declared.write_fault.WireWriteFault.TheVariants.{TooLong};
ghost use Rattle.pc_offset_wire.specs.Writing.{Puts};

use crate::write_fault::WireWriteFault;
use byteorder::{BigEndian, ByteOrder};
use std::alloc::{AllocError, Global};

/// The greatest length of a string.
const STRING_MAX: usize = i16::MAX as usize;

/// The greatest count of an array, and the greatest size of a frame.
const COUNT_MAX: usize = i32::MAX as usize;

/// What is put into an array.
pub(crate) trait PutItem {
    /// The item without where it lies in memory.
    ghost Plain: { Type 0 };

    ghost plain: { Self → Plain };

    /// Its spelling, and what has one.
    ghost spelled: { Plain → List ℕ };

    ghost IsItem: { Plain → Type 0 };

    /// What may be put.
    ghost IsPutable: { Self → Type 0 };

    fn put(&self, out: &mut Vec<u8>) -> Result<(), WireWriteFault>
        requires { IsPutable self.now }
        ensures { Puts (spelled (plain self.now)) (IsItem (plain self.now)) out.old.items
            out.new.items result };
}

/// Puts a number of 16 bits.
pub(crate) fn put_i16(out: &mut Vec<u8>, n: i16) -> Result<(), AllocError>
    ensures { OnOk result (out.new.items ≡ out.old.items ++ int_spelling w16 n) }
{
    let mut bytes = [0; 2];
    BigEndian::write_i16(&mut bytes, n);
    out.extend_from_slice(&bytes)
}

/// Puts a number of 32 bits.
pub(crate) fn put_i32(out: &mut Vec<u8>, n: i32) -> Result<(), AllocError>
    ensures { OnOk result (out.new.items ≡ out.old.items ++ int_spelling w32 n) }
{
    let mut bytes = [0; 4];
    BigEndian::write_i32(&mut bytes, n);
    out.extend_from_slice(&bytes)
}

/// Puts a number of 64 bits.
pub(crate) fn put_i64(out: &mut Vec<u8>, n: i64) -> Result<(), AllocError>
    ensures { OnOk result (out.new.items ≡ out.old.items ++ int_spelling w64 n) }
{
    let mut bytes = [0; 8];
    BigEndian::write_i64(&mut bytes, n);
    out.extend_from_slice(&bytes)
}

/// Puts a count.
pub(crate) fn put_count(out: &mut Vec<u8>, count: usize) -> Result<(), WireWriteFault>
    ensures { Puts (int_spelling w32 (pos count)) (count < 2 ^ 31) out.old.items out.new.items
        result }
{
    if count > COUNT_MAX {
        return Err(WireWriteFault::TooLong);
    }
    put_i32(out, count as i32)?;
    Ok(())
}

/// Puts a string: its length, and its bytes.
pub(crate) fn put_string(out: &mut Vec<u8>, text: &str) -> Result<(), WireWriteFault>
    ensures { Puts (string_spelling text.now) (IsString text.now) out.old.items out.new.items
        result }
{
    if text.len() > STRING_MAX {
        return Err(WireWriteFault::TooLong);
    }
    put_i16(out, text.len() as i16)?;
    out.extend_from_slice(text.as_bytes())?;
    Ok(())
}

/// Puts a string, or the length -1 for null.
pub(crate) fn put_nullable(out: &mut Vec<u8>, text: Option<&str>) -> Result<(), WireWriteFault>
    ensures { Puts (nullable_spelling (option_copied text.entry))
        (IsNullable (option_copied text.entry)) out.old.items out.new.items result }
{
    match text {
        Some(text) => put_string(out, text),
        None => {
            put_i16(out, -1)?;
            Ok(())
        }
    }
}

/// Puts this many items, one after the other.
fn put_items<T: PutItem>(out: &mut Vec<u8>, items: &[T]) -> Result<(), WireWriteFault>
    requires { All T.IsPutable items.now }
    ensures { Puts (flat_map T.spelled (map T.plain items.now))
        (AllByRecursion T.IsItem (map T.plain items.now)) out.old.items out.new.items result }
{
    for item in items {
        item.put(out)?;
    }
    Ok(())
}

/// Puts an array: the count of the items, and the items.
pub(crate) fn put_array<T: PutItem>(out: &mut Vec<u8>, items: &[T]) -> Result<(), WireWriteFault>
    requires { All T.IsPutable items.now }
    ensures { Puts (array_spelling T.spelled (map T.plain items.now))
        (IsArray T.IsItem (map T.plain items.now)) out.old.items out.new.items result }
{
    put_count(out, items.len())?;
    put_items(out, items)
}

/// Puts the header of a request.
pub(crate) fn put_header(
    out: &mut Vec<u8>,
    key: i16,
    version: i16,
    correlation: i32,
    client: Option<&str>,
) -> Result<(), WireWriteFault>
    ensures { Puts (header_spelling key version correlation (option_copied client.entry))
        (IsNullable (option_copied client.entry)) out.old.items out.new.items result }
{
    put_i16(out, key)?;
    put_i16(out, version)?;
    put_i32(out, correlation)?;
    put_nullable(out, client)
}

/// The frame with this body.
pub(crate) fn frame_of(alloc: Global, body: &[u8]) -> Result<Vec<u8>, WireWriteFault>
    ensures frame { IfOk result (λ frame. IsFrame frame.items body.now) }
    ensures too_long { result ≡ Err TooLong → length body.now < 2 ^ 31 → ⊥ }
{
    let mut frame = Vec::new(alloc);
    put_count(&mut frame, body.len())?;
    frame.extend_from_slice(body)?;
    Ok(frame)
}

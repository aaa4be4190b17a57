//! The fields of fixed width, put one after the other.

ghost use Rattle.std.specs.Prelude.{◌≡◌, ◌++◌, OnOk};
ghost use Rattle.std.specs.Int.{w16, w32, w64};
ghost use Rattle.byteorder.specs.Endian.{big_bytes};
ghost use Rattle.pc_model.specs.Messages.{int_spelling};

use byteorder::{BigEndian, ByteOrder};
use std::alloc::AllocError;

/// Puts a number of 16 bits.
pub(crate) fn put_i16(out: &mut Vec<u8>, n: i16) -> Result<(), AllocError>
    ensures { OnOk result (out.new.items ≡ out.old.items ++ int_spelling w16 n) }
{
    let mut bytes = [0; 2];
    BigEndian::write_i16(&mut bytes, n);
    out.extend_from_slice(&bytes)
}

/// Puts a number of 32 bits.
pub(crate) fn put_i32(out: &mut Vec<u8>, n: i32) -> Result<(), AllocError>
    ensures { OnOk result (out.new.items ≡ out.old.items ++ int_spelling w32 n) }
{
    let mut bytes = [0; 4];
    BigEndian::write_i32(&mut bytes, n);
    out.extend_from_slice(&bytes)
}

/// Puts an unsigned number of 32 bits.
pub(crate) fn put_u32(out: &mut Vec<u8>, n: u32) -> Result<(), AllocError>
    ensures { OnOk result (out.new.items ≡ out.old.items ++ big_bytes 4 n) }
{
    let mut bytes = [0; 4];
    BigEndian::write_u32(&mut bytes, n);
    out.extend_from_slice(&bytes)
}

/// Puts a number of 64 bits.
pub(crate) fn put_i64(out: &mut Vec<u8>, n: i64) -> Result<(), AllocError>
    ensures { OnOk result (out.new.items ≡ out.old.items ++ int_spelling w64 n) }
{
    let mut bytes = [0; 8];
    BigEndian::write_i64(&mut bytes, n);
    out.extend_from_slice(&bytes)
}

//! The number in front of the bits. Clauses have its width in bytes.

ghost use Rattle.std.specs.Prelude.{◌≡◌, ◌≤◌, ◌++◌, IsTrue, OnOk};
ghost use Rattle.byteorder.specs.Endian.{big_bytes};
ghost use Rattle.pc_bitset.specs.Number.{number_reading};
ghost use Rattle.pc_model.specs.MapSpelling.{number_fits};

use byteorder::{BigEndian, ByteOrder};
use pc_model::BitsFault;
use std::alloc::AllocError;

/// Whether `n` is held by a number of `width` bytes with its top bit 0.
pub fn fits(width: usize, n: u64) -> bool
    requires some { 1 ≤ width }
    requires few { width ≤ 4 }
    ensures { result ≡ number_fits width n }
{
    n < 1u64 << (8 * width - 1)
}

/// Appends the `width` bytes of `n`.
pub fn push(out: &mut Vec<u8>, width: usize, n: u64) -> Result<(), AllocError>
    requires some { 1 ≤ width }
    requires few { width ≤ 4 }
    requires fits { IsTrue (number_fits width n) }
    ensures { OnOk result (out.new.items ≡ out.old.items ++ big_bytes width n) }
{
    let mut bytes = [0u8; 8];
    BigEndian::write_uint(&mut bytes, n, width);
    out.extend_from_slice(&bytes[..width])
}

/// Reads the number in front of the bytes.
pub fn read(bytes: &[u8], width: usize) -> Result<u64, BitsFault>
    requires some { 1 ≤ width }
    requires few { width ≤ 4 }
    ensures { result ≡ number_reading width bytes.now }
{
    if bytes.len() < width {
        return Err(BitsFault::ShortNumber);
    }
    let n = BigEndian::read_uint(bytes, width);
    if !fits(width, n) {
        return Err(BitsFault::NegativeNumber);
    }
    Ok(n)
}

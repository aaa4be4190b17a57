//! Bits out of bytes, byte by byte.

ghost use Rattle.std.specs.Prelude.{◌≡◌, ◌<◌, ◌≤◌, ◌+◌, ◌/◌, ◌^◌, ◌++◌, length, IfOk, OnOk};
ghost use Rattle.pc_bitset.specs.Packing.{byte_bits};
ghost use Rattle.pc_model.specs.MapReading.{bits_in};
ghost use Rattle.pc_model.specs.MapSpelling.{byte_count};

use pc_model::Bits;
use std::alloc::{AllocError, Global};

/// The first `count` bits of the bytes; missing bytes hold 0 bits.
pub fn read_bits(alloc: Global, count: u64, bytes: &[u8]) -> Result<Bits, AllocError>
    requires small { count < 2 ^ 63 }
    requires needed { length bytes.now ≤ byte_count count }
    ensures { IfOk result (λ bits. bits ≡ bits_in count bytes.now) }
{
    let mut bits = Bits::new(alloc);
    for byte in bytes {
        let n = (count - bits.count()).min(8);
        push_byte(&mut bits, *byte, n)?;
    }
    let missing = count - bits.count();
    bits.push(false, missing)?;
    Ok(bits)
}

/// Appends the lowest `n` bits of a byte, the lowest first.
fn push_byte(bits: &mut Bits, byte: u8, n: u64) -> Result<(), AllocError>
    requires few { n ≤ 8 }
    requires small { length bits.old + n < 2 ^ 63 }
    ensures { OnOk result (bits.new ≡ bits.old ++ byte_bits n byte) }
{
    match byte {
        0x00 => bits.push(false, n),
        0xFF => bits.push(true, n),
        _ => push_mixed(bits, byte, n),
    }
}

/// Appends the lowest `n` bits of a byte, bit by bit.
fn push_mixed(bits: &mut Bits, byte: u8, n: u64) -> Result<(), AllocError>
    requires few { n ≤ 8 }
    requires small { length bits.old + n < 2 ^ 63 }
    ensures { OnOk result (bits.new ≡ bits.old ++ byte_bits n byte) }
{
    for i in 0..n {
        bits.push((byte >> i) & 1 == 1, 1)?;
    }
    Ok(())
}

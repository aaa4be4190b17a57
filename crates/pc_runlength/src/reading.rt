//! Bits out of the lengths of their runs.

ghost use Rattle.std.specs.Prelude.{◌≡◌, ◌≤◌, ◌<◌, ◌*◌, ◌+◌, ◌^◌, ◌⊎◌, false, length, drop, Ok, Err, IfOk, IfErr};
ghost use Rattle.byteorder.specs.Endian.{big_number};
ghost use Rattle.pc_model.specs.declared.bits_fault.BitsFault.TheVariants.{NoMemory};
ghost use Rattle.pc_model.specs.MapReading.{bits_in_turn, numbers_in, reading_from, run_reading};
ghost use Rattle.pc_runlength.specs.RunLengths.{checked_count};

use crate::number;
use byteorder::{BigEndian, ByteOrder};
use pc_model::{Bits, BitsFault};
use std::alloc::{AllocError, Global};

// The greatest number of bits.
const MOST_BITS: u64 = (1 << 63) - 1;

/// The bits whose runs have these lengths, in turn of 0 bits and of 1 bits.
pub fn decode(alloc: Global, bytes: &[u8], width: usize) -> Result<Bits, BitsFault>
    requires some { 1 ≤ width }
    requires few { width ≤ 4 }
    ensures ok { IfOk result (λ bits. reading_from 0 (run_reading width bytes.now) ≡ Ok bits) }
    ensures fault { IfErr result (λ e. (e ≡ NoMemory)
        ⊎ (reading_from 0 (run_reading width bytes.now) ≡ Err e)) }
{
    let count = bit_count(bytes, width)?;
    if count > MOST_BITS {
        return Err(BitsFault::TooManyBits);
    }
    Ok(read_bits(alloc, bytes, width)?)
}

/// How many bits the runs have, or 2^64 - 1 where it is more than that.
fn bit_count(bytes: &[u8], width: usize) -> Result<u64, BitsFault>
    requires some { 1 ≤ width }
    requires few { width ≤ 4 }
    ensures { result ≡ checked_count (run_reading width bytes.now) }
{
    let mut count = 0u64;
    for i in 0..bytes.len() / width {
        let n = number_at(bytes, width, i);
        if !number::fits(width, n) {
            return Err(BitsFault::NegativeNumber);
        }
        count = count.saturating_add(n);
    }
    let left = bytes.len() % width;
    if left > 0 {
        return Err(BitsFault::ShortNumber);
    }
    Ok(count)
}

/// The bits of the runs.
fn read_bits(alloc: Global, bytes: &[u8], width: usize) -> Result<Bits, AllocError>
    requires some { 1 ≤ width }
    requires few { width ≤ 4 }
    requires small { length (bits_in_turn false (numbers_in width bytes.now)) < 2 ^ 63 }
    ensures { IfOk result (λ bits. bits ≡ bits_in_turn false (numbers_in width bytes.now)) }
{
    let mut bits = Bits::new(alloc);
    let mut bit = false;
    for i in 0..bytes.len() / width {
        bits.push(bit, number_at(bytes, width, i))?;
        bit = !bit;
    }
    Ok(bits)
}

/// The number at an index.
fn number_at(bytes: &[u8], width: usize, i: usize) -> u64
    requires some { 1 ≤ width }
    requires few { width ≤ 4 }
    requires within { width * i + width ≤ length bytes.now }
    ensures { result ≡ big_number width (drop (width * i) bytes.now) }
{
    BigEndian::read_uint(&bytes[width * i..], width)
}

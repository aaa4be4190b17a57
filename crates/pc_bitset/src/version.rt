//! The two versions: one body over the width of the number.

ghost use Rattle.std.specs.Prelude.{◌≡◌, ◌≤◌, ◌⊎◌, length, Ok, Err, IfOk, IfErr, IfSome};
ghost use Rattle.std.specs.Option.{option_map};
ghost use Rattle.pc_model.specs.declared.bits_fault.BitsFault.TheVariants.{NoMemory};
ghost use Rattle.pc_model.specs.declared.map_letter.TheConstants.{BITSET, BITSET_2};
ghost use Rattle.pc_model.specs.MapReading.{bitset_reading, reading_from};
ghost use Rattle.pc_model.specs.MapSpelling.{bitset_spelling, spelling_of};

use crate::{number, packing, unpacking};
use pc_model::{Bits, BitsFault};
use std::alloc::{AllocError, Global};

// The bytes of the number.
const WIDTH_1: usize = 2;

const WIDTH_2: usize = 4;

/// How many bytes version 1 has. None where it cannot hold the bits: above 32,767 of them.
pub fn length_v1(bits: &Bits) -> Option<u64>
    ensures { result ≡ option_map length (spelling_of BITSET bits.now) }
{
    length(bits, WIDTH_1)
}

/// The bytes of version 1. None where it cannot hold the bits: above 32,767 of them.
pub fn encode_v1(alloc: Global, bits: &Bits) -> Result<Option<Vec<u8>>, AllocError>
    ensures spelled { IfOk result
        (λ bytes. option_map (λ v. v.items) bytes ≡ spelling_of BITSET bits.now) }
    ensures read_back { IfOk result
        (λ bytes. IfSome bytes (λ v. bitset_reading 2 v.items ≡ Ok bits.now)) }
{
    encode(alloc, bits, WIDTH_1)
}

/// The bits in the bytes of version 1, which may be fewer than the number needs: the bits that are
/// missing are 0. The faults stand in the order of `BitsFault`.
pub fn decode_v1(alloc: Global, bytes: &[u8]) -> Result<Bits, BitsFault>
    ensures ok { IfOk result (λ bits. reading_from 0 (bitset_reading 2 bytes.now) ≡ Ok bits) }
    ensures fault { IfErr result (λ e. (e ≡ NoMemory)
        ⊎ (reading_from 0 (bitset_reading 2 bytes.now) ≡ Err e)) }
{
    decode(alloc, bytes, WIDTH_1)
}

/// How many bytes version 2 has. None where it cannot hold the bits: above 2,147,483,647 of them.
pub fn length_v2(bits: &Bits) -> Option<u64>
    ensures { result ≡ option_map length (spelling_of BITSET_2 bits.now) }
{
    length(bits, WIDTH_2)
}

/// The bytes of version 2. None where it cannot hold the bits: above 2,147,483,647 of them.
pub fn encode_v2(alloc: Global, bits: &Bits) -> Result<Option<Vec<u8>>, AllocError>
    ensures spelled { IfOk result
        (λ bytes. option_map (λ v. v.items) bytes ≡ spelling_of BITSET_2 bits.now) }
    ensures read_back { IfOk result
        (λ bytes. IfSome bytes (λ v. bitset_reading 4 v.items ≡ Ok bits.now)) }
{
    encode(alloc, bits, WIDTH_2)
}

/// The bits in the bytes of version 2, which may be fewer than the number needs: the bits that are
/// missing are 0. The faults stand in the order of `BitsFault`.
pub fn decode_v2(alloc: Global, bytes: &[u8]) -> Result<Bits, BitsFault>
    ensures ok { IfOk result (λ bits. reading_from 0 (bitset_reading 4 bytes.now) ≡ Ok bits) }
    ensures fault { IfErr result (λ e. (e ≡ NoMemory)
        ⊎ (reading_from 0 (bitset_reading 4 bytes.now) ≡ Err e)) }
{
    decode(alloc, bytes, WIDTH_2)
}

fn length(bits: &Bits, width: usize) -> Option<u64>
    requires some { 1 ≤ width }
    requires few { width ≤ 4 }
    ensures { result ≡ option_map length (bitset_spelling width bits.now) }
{
    let count = bits.count();
    if !number::fits(width, count) {
        return None;
    }
    Some(width as u64 + count.div_ceil(8))
}

fn encode(alloc: Global, bits: &Bits, width: usize) -> Result<Option<Vec<u8>>, AllocError>
    requires some { 1 ≤ width }
    requires few { width ≤ 4 }
    ensures { IfOk result
        (λ bytes. option_map (λ v. v.items) bytes ≡ bitset_spelling width bits.now) }
{
    let count = bits.count();
    if !number::fits(width, count) {
        return Ok(None);
    }
    let mut out = Vec::new(alloc);
    number::push(&mut out, width, count)?;
    packing::push_bits(&mut out, bits)?;
    Ok(Some(out))
}

fn decode(alloc: Global, bytes: &[u8], width: usize) -> Result<Bits, BitsFault>
    requires some { 1 ≤ width }
    requires few { width ≤ 4 }
    ensures ok { IfOk result (λ bits. reading_from 0 (bitset_reading width bytes.now) ≡ Ok bits) }
    ensures fault { IfErr result (λ e. (e ≡ NoMemory)
        ⊎ (reading_from 0 (bitset_reading width bytes.now) ≡ Err e)) }
{
    let count = number::read(bytes, width)?;
    let body = &bytes[width..];
    if count.div_ceil(8) < body.len() as u64 {
        return Err(BitsFault::TooManyBytes);
    }
    Ok(unpacking::read_bits(alloc, count, body)?)
}

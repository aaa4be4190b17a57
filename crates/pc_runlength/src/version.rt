//! The two versions: one body over the width of a number.

ghost use Rattle.std.specs.Prelude.{◌≡◌, ◌≤◌, ◌⊎◌, length, Ok, Err, IfOk, IfErr, IfSome};
ghost use Rattle.std.specs.Option.{option_map};
ghost use Rattle.pc_model.specs.declared.bits_fault.BitsFault.TheVariants.{NoMemory};
ghost use Rattle.pc_model.specs.declared.map_letter.TheConstants.{RUN_LENGTH, RUN_LENGTH_2};
ghost use Rattle.pc_model.specs.MapReading.{reading_from, run_reading};
ghost use Rattle.pc_model.specs.MapSpelling.{run_spelling, spelling_of};

use crate::run_lengths::run_lengths;
use crate::{number, reading};
use pc_model::{Bits, BitsFault};
use std::alloc::{AllocError, Global};

// The bytes of a number.
const WIDTH_1: usize = 2;

const WIDTH_2: usize = 4;

/// How many bytes version 1 has. None where it cannot hold the bits: a run is above 32,767.
pub fn length_v1(bits: &Bits) -> Option<u64>
    ensures { result ≡ option_map length (spelling_of RUN_LENGTH bits.now) }
{
    length(bits, WIDTH_1)
}

/// The bytes of version 1. None where it cannot hold the bits: a run is above 32,767.
pub fn encode_v1(alloc: Global, bits: &Bits) -> Result<Option<Vec<u8>>, AllocError>
    ensures spelled { IfOk result
        (λ bytes. option_map (λ v. v.items) bytes ≡ spelling_of RUN_LENGTH bits.now) }
    ensures read_back { IfOk result
        (λ bytes. IfSome bytes (λ v. run_reading 2 v.items ≡ Ok bits.now)) }
{
    encode(alloc, bits, WIDTH_1)
}

/// The bits in the bytes of version 1. Empty runs are read wherever they stand. The faults stand in
/// the order of the bytes, and `TooManyBits` after all of them.
pub fn decode_v1(alloc: Global, bytes: &[u8]) -> Result<Bits, BitsFault>
    ensures ok { IfOk result (λ bits. reading_from 0 (run_reading 2 bytes.now) ≡ Ok bits) }
    ensures fault { IfErr result (λ e. (e ≡ NoMemory)
        ⊎ (reading_from 0 (run_reading 2 bytes.now) ≡ Err e)) }
{
    reading::decode(alloc, bytes, WIDTH_1)
}

/// How many bytes version 2 has. None where it cannot hold the bits: a run is above 2,147,483,647.
pub fn length_v2(bits: &Bits) -> Option<u64>
    ensures { result ≡ option_map length (spelling_of RUN_LENGTH_2 bits.now) }
{
    length(bits, WIDTH_2)
}

/// The bytes of version 2. None where it cannot hold the bits: a run is above 2,147,483,647.
pub fn encode_v2(alloc: Global, bits: &Bits) -> Result<Option<Vec<u8>>, AllocError>
    ensures spelled { IfOk result
        (λ bytes. option_map (λ v. v.items) bytes ≡ spelling_of RUN_LENGTH_2 bits.now) }
    ensures read_back { IfOk result
        (λ bytes. IfSome bytes (λ v. run_reading 4 v.items ≡ Ok bits.now)) }
{
    encode(alloc, bits, WIDTH_2)
}

/// The bits in the bytes of version 2. Empty runs are read wherever they stand. The faults stand in
/// the order of the bytes, and `TooManyBits` after all of them.
pub fn decode_v2(alloc: Global, bytes: &[u8]) -> Result<Bits, BitsFault>
    ensures ok { IfOk result (λ bits. reading_from 0 (run_reading 4 bytes.now) ≡ Ok bits) }
    ensures fault { IfErr result (λ e. (e ≡ NoMemory)
        ⊎ (reading_from 0 (run_reading 4 bytes.now) ≡ Err e)) }
{
    reading::decode(alloc, bytes, WIDTH_2)
}

fn length(bits: &Bits, width: usize) -> Option<u64>
    requires some { 1 ≤ width }
    requires few { width ≤ 4 }
    ensures { result ≡ option_map length (run_spelling width bits.now) }
{
    let mut length = 0;
    for n in run_lengths(bits) {
        if !number::fits(width, n) {
            return None;
        }
        length += width as u64;
    }
    Some(length)
}

fn encode(alloc: Global, bits: &Bits, width: usize) -> Result<Option<Vec<u8>>, AllocError>
    requires some { 1 ≤ width }
    requires few { width ≤ 4 }
    ensures { IfOk result (λ bytes. option_map (λ v. v.items) bytes ≡ run_spelling width bits.now) }
{
    let mut out = Vec::new(alloc);
    for n in run_lengths(bits) {
        if !number::fits(width, n) {
            return Ok(None);
        }
        number::push(&mut out, width, n)?;
    }
    Ok(Some(out))
}

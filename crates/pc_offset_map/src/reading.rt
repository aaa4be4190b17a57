//! The reading of a map's text: base64, a letter, and the bits.

ghost use Rattle.std.specs.Prelude.{◌≡◌, ◌⊎◌, Some, Ok, Err, IfOk, IfErr, IfSome};
ghost use Rattle.std.specs.Option.{option_map};
ghost use Rattle.base64.specs.Engines.{standard};
ghost use Rattle.base64.specs.GeneralPurpose.{decode_of};
ghost use Rattle.pc_model.specs.MapReading.{letter_reading, map_reading};
ghost use Rattle.pc_model.specs.declared.map_fault.MapFault.TheVariants.{NoMemory, NotBase64};
ghost use Rattle.pc_offset_map.specs.Offsets.{IsRefused};

use crate::OffsetMap;
use base64::DecodeAllocError;
use base64::engine::general_purpose::STANDARD;
use pc_model::{BITSET, BITSET_2, Bits, MapFault, RUN_LENGTH, RUN_LENGTH_2};
use std::alloc::Global;

// The greatest offset after which none stands.
const LAST_END: u64 = (1 << 63) - 1;

/// Reads a map's text, whose first bit is that of the offset `base`. The empty text is no map.
///
/// The first fault in the order of `MapFault` is returned.
pub fn read_map(alloc: Global, base: u64, text: &[u8]) -> Result<Option<OffsetMap>, MapFault>
    ensures bits { IfOk result
        (λ map. map_reading base text.now ≡ Ok (option_map (λ m. m.bits) map)) }
    ensures base { IfOk result (λ map. IfSome map (λ m. m.base ≡ base)) }
    ensures fault { IfErr result (λ e. (e ≡ NoMemory) ⊎ (map_reading base text.now ≡ Err e)) }
{
    if text.is_empty() {
        return Ok(None);
    }
    let bytes = decode(alloc, text)?;
    let Some((letter, body)) = bytes.as_slice().split_first() else {
        return Ok(None);
    };
    let bits = read_bits(alloc, *letter, body)?;
    if base > LAST_END || bits.count() > LAST_END - base {
        return Err(MapFault::PastLastOffset);
    }
    Ok(Some(OffsetMap { base, bits }))
}

/// The bytes of a text in base64.
fn decode(alloc: Global, text: &[u8]) -> Result<Vec<u8>, MapFault>
    ensures bytes { IfOk result (λ bytes. decode_of standard text.now ≡ Ok bytes.items) }
    ensures fault { IfErr result (λ e. (e ≡ NoMemory)
        ⊎ ((e ≡ NotBase64) × IsRefused text.now)) }
{
    match STANDARD.decode(alloc, text) {
        Ok(bytes) => Ok(bytes),
        Err(DecodeAllocError::OutOfMemory) => Err(MapFault::NoMemory),
        Err(DecodeAllocError::DecodeError(_)) => Err(MapFault::NotBase64),
    }
}

/// The bits of the bytes after a letter.
fn read_bits(alloc: Global, letter: u8, body: &[u8]) -> Result<Bits, MapFault>
    ensures bits { IfOk result (λ bits. letter_reading 0 letter body.now ≡ Ok (Some bits)) }
    ensures fault { IfErr result (λ e. (e ≡ NoMemory)
        ⊎ (letter_reading 0 letter body.now ≡ Err e)) }
{
    let bits = match letter {
        b'a' | b'J' | b's' | b'p' => return Err(MapFault::Compressed(letter)),
        BITSET => pc_bitset::decode_v1(alloc, body)?,
        RUN_LENGTH => pc_runlength::decode_v1(alloc, body)?,
        BITSET_2 => pc_bitset::decode_v2(alloc, body)?,
        RUN_LENGTH_2 => pc_runlength::decode_v2(alloc, body)?,
        _ => return Err(MapFault::UnknownLetter(letter)),
    };
    Ok(bits)
}

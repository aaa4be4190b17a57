//! The text of a map under a letter.

ghost use Rattle.std.specs.Prelude.{◌≡◌, IfOk};
ghost use Rattle.std.specs.Option.{option_map};
ghost use Rattle.pc_model.specs.BestMap.{map_text};
ghost use Rattle.pc_model.specs.MapSpelling.{spelling_of};

use base64::engine::general_purpose::STANDARD;
use pc_model::{BITSET, BITSET_2, Bits, MapText, RUN_LENGTH, RUN_LENGTH_2};
use std::alloc::{AllocError, Global};

/// The text of the bits. None where the letter's encoding cannot hold them.
pub fn spelled(alloc: Global, letter: u8, bits: &Bits) -> Result<Option<MapText>, AllocError>
    ensures { IfOk result
        (λ text. text ≡ option_map (map_text letter) (spelling_of letter bits.now)) }
{
    let Some(body) = encode(alloc, letter, bits)? else {
        return Ok(None);
    };
    let mut bytes = Vec::new(alloc);
    bytes.push(letter)?;
    bytes.extend_from_slice(body.as_slice())?;
    let text = STANDARD.encode(alloc, bytes.as_slice())?;
    Ok(Some(MapText::from_str(alloc, text.as_str())?))
}

/// The bytes after the letter.
#[tactic(auto, unfolding(pc_model::specs::MapSpelling::spelling_of))]
fn encode(alloc: Global, letter: u8, bits: &Bits) -> Result<Option<Vec<u8>>, AllocError>
    ensures { IfOk result
        (λ bytes. option_map (λ v. v.items) bytes ≡ spelling_of letter bits.now) }
{
    match letter {
        BITSET => pc_bitset::encode_v1(alloc, bits),
        RUN_LENGTH => pc_runlength::encode_v1(alloc, bits),
        BITSET_2 => pc_bitset::encode_v2(alloc, bits),
        RUN_LENGTH_2 => pc_runlength::encode_v2(alloc, bits),
        _ => Ok(None),
    }
}

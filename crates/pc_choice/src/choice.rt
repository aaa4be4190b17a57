//! The best map of completion bits.

ghost use Rattle.std.specs.Prelude.{◌≡◌, ◌≤◌, ◌+◌, ◌^◌, ◌<◌, ◌↔◌, ℕ, List, length, [], None, Some, Ok, IsSome, IfOk};
ghost use Rattle.pc_model.specs.BestMap.{best_map, is_pressed, text_of};
ghost use Rattle.pc_model.specs.MapReading.{map_reading};

use crate::{sizes, text};
use pc_model::{Bits, MapText};
use std::alloc::{AllocError, Global};

/// The map that a commit holds.
#[derive(Debug, Drop)]
pub struct Choice {
    /// The letter of the encoding. None exactly where the text is empty.
    pub letter: Option<u8>,
    /// The text of the map, which is empty where it would be longer than the limit.
    pub text: MapText,
    /// How many characters the shortest text has, also where it is left out: 0 where there are no
    /// bits, and 4,294,967,295 where no encoding can hold them in fewer characters.
    pub size: u32,
}

/// The shortest text among the encodings that can hold the bits. Ties go to `l`, `n`, `o` and `e`
/// in this order. A text of more than `limit` characters is left out whole.
///
/// The sizes are compared before anything is spelled, and only the chosen encoding is spelled.
pub fn choose(alloc: Global, bits: &Bits, limit: u32) -> Result<Choice, AllocError>
    ensures letter { IfOk result (λ choice. choice.letter ≡ (best_map bits.now limit).letter) }
    ensures text { IfOk result (λ choice. choice.text ≡ (best_map bits.now limit).text) }
    ensures size { IfOk result (λ choice. choice.size ≡ (best_map bits.now limit).size) }

    ensures empty { IfOk result (λ choice. (choice.letter ≡ None) ↔ (choice.text ≡ [])) }

    // No other text of the bits is shorter.
    ensures shortest { IfOk result (λ choice. (letter : ℕ) (other : ℕ × List ℕ)
        → text_of letter bits.now ≡ Some other → choice.size ≤ length other.1) }

    // The text is read again as the bits.
    ensures read_back { IfOk result (λ choice. (base : ℕ) → base + length bits.now < 2 ^ 63
        → IsSome choice.letter → map_reading base choice.text ≡ Ok (Some bits.now)) }
{
    if bits.count() == 0 {
        return left_out(alloc, 0);
    }
    let Some((letter, size)) = sizes::shortest(bits) else {
        return left_out(alloc, u32::MAX);
    };
    if size > limit {
        return left_out(alloc, size);
    }
    let Some(text) = text::spelled(alloc, letter, bits)? else {
        unreachable!();
    };
    Ok(Choice {
        letter: Some(letter),
        text,
        size,
    })
}

/// A choice without a text.
fn left_out(alloc: Global, size: u32) -> Result<Choice, AllocError>
    ensures letter { IfOk result (λ choice. choice.letter ≡ None) }
    ensures text { IfOk result (λ choice. choice.text ≡ []) }
    ensures size { IfOk result (λ choice. choice.size ≡ size) }
{
    Ok(Choice {
        letter: None,
        text: MapText::from_str(alloc, "")?,
        size,
    })
}

/// Whether a size is more than `percent` parts in a hundred of the limit.
pub fn pressed(size: u32, limit: u32, percent: u32) -> bool
    ensures { result ≡ is_pressed size limit percent }
{
    u64::from(limit) * u64::from(percent) < u64::from(size) * 100
}

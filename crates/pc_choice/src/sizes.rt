//! The sizes of the texts that a map could have, found without spelling any.

ghost use Rattle.std.specs.Prelude.{◌≡◌, Bool, List, length};
ghost use Rattle.std.specs.Option.{option_map};
ghost use Rattle.pc_model.specs.BestMap.{shortest_text};
ghost use Rattle.pc_model.specs.MapSpelling.{spelling_of};
ghost use Rattle.pc_model.specs.declared.map_letter.TheConstants.{BITSET, BITSET_2, RUN_LENGTH, RUN_LENGTH_2};
ghost use Rattle.pc_choice.specs.Sizes.{sized, smaller_size, text_size};

use pc_model::{BITSET, BITSET_2, Bits, RUN_LENGTH, RUN_LENGTH_2};

// The most bytes after the letter whose text has at most 4,294,967,294 characters.
const MOST_BYTES: u64 = 3_221_225_468;

/// The letter of the shortest text and how many characters that has. None where no encoding can
/// hold the bits in at most 4,294,967,294 characters. Ties go to `l`, `n`, `o` and `e` in this
/// order.
pub fn shortest(bits: &Bits) -> Option<(u8, u32)>
    ensures { result ≡ option_map sized (shortest_text bits.now) }
{
    shortest_of(
        pc_bitset::length_v1(bits),
        pc_runlength::length_v1(bits),
        pc_bitset::length_v2(bits),
        pc_runlength::length_v2(bits),
    )
}

/// The same, from nothing but the lengths of the four encodings in bytes, without the letter. None
/// where an encoding cannot hold them.
pub fn shortest_of(
    bitset: Option<u64>,
    runlength: Option<u64>,
    bitset2: Option<u64>,
    runlength2: Option<u64>,
) -> Option<(u8, u32)>
    ensures { (bits : List Bool) → bitset ≡ option_map length (spelling_of BITSET bits)
        → runlength ≡ option_map length (spelling_of RUN_LENGTH bits)
        → bitset2 ≡ option_map length (spelling_of BITSET_2 bits)
        → runlength2 ≡ option_map length (spelling_of RUN_LENGTH_2 bits)
        → result ≡ option_map sized (shortest_text bits) }
{
    let version_1 = smaller(size_of(BITSET, bitset), size_of(RUN_LENGTH, runlength));
    let with_bitset = smaller(version_1, size_of(BITSET_2, bitset2));
    smaller(with_bitset, size_of(RUN_LENGTH_2, runlength2))
}

/// How many characters the letter and this many bytes have in base64.
fn size_of(letter: u8, bytes: Option<u64>) -> Option<(u8, u32)>
    ensures { result ≡ text_size letter bytes }
{
    let bytes = bytes?;
    if bytes > MOST_BYTES {
        return None;
    }
    Some((letter, ((bytes + 3) / 3 * 4) as u32))
}

/// The smaller size, and of two equal ones the first.
fn smaller(first: Option<(u8, u32)>, second: Option<(u8, u32)>) -> Option<(u8, u32)>
    ensures { result ≡ smaller_size first second }
{
    match (first, second) {
        (Some(a), Some(b)) if b.1 < a.1 => Some(b),
        (None, _) => second,
        _ => first,
    }
}

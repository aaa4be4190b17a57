//! Lines that say what is wrong with a map.

ghost use Rattle.std.specs.Prelude.{◌≡◌, ◌++◌, ◌∷◌, [], OnOk, OnErr};
ghost use Rattle.pc_print.specs.Line.{spaced};
ghost use Rattle.pc_print.specs.MapFault.{map_words};
ghost use Rattle.pc_print.specs.Word.{word_text};

use crate::word::Word::{self, Name, Number};
use crate::word::put_line;
use pc_model::MapFault;
use std::alloc::AllocError;

/// Appends a line of a name, two more words, and the words of what is wrong with a map. Out of
/// memory, `out` is as before.
pub fn put_map_line<'a>(
    out: &mut Vec<u8>,
    first: &'a [u8],
    second: Word<'a>,
    third: Word<'a>,
    fault: MapFault,
) -> Result<(), AllocError>
    ensures ok { OnOk result (out.new.items ≡ out.old.items
        ++ (spaced (first.now ∷ word_text second.entry ∷ word_text third.entry ∷ map_words fault)
        ++ 10 ∷ [])) }
    ensures err { OnErr result (out.new.items ≡ out.old.items) }
{
    let (kind, letter): (&[u8], Option<u8>) = match fault {
        MapFault::NotBase64 => (b"not-base64", None),
        MapFault::Compressed(letter) => (b"compressed", Some(letter)),
        MapFault::UnknownLetter(letter) => (b"unknown-letter", Some(letter)),
        MapFault::ShortNumber => (b"short-number", None),
        MapFault::NegativeNumber => (b"negative-number", None),
        MapFault::TooManyBytes => (b"too-many-bytes", None),
        MapFault::PastLastOffset => (b"past-last-offset", None),
        MapFault::NoMemory => (b"no-memory", None),
    };
    match letter {
        Some(letter) => put_line(
            out,
            first,
            &[second, third, Name(kind), Number(u64::from(letter))],
        ),
        None => put_line(out, first, &[second, third, Name(kind)]),
    }
}

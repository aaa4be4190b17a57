//! The words of a line, and lines as words with one space between them.

ghost use Rattle.std.specs.Prelude.{◌≡◌, ◌++◌, ◌∷◌, [], length, map, take, vec_len, OnOk, OnErr};
ghost use Rattle.std.specs.Fmt.{decimal, signed_decimal};
ghost use Rattle.pc_print.specs.Line.{spaced};
ghost use Rattle.pc_print.specs.Word.{word_text};

use pc_lines::{put_decimal, put_escaped};
use std::alloc::AllocError;

/// A word of a line.
#[derive(Clone, Copy, Debug)]
pub enum Word<'a> {
    /// The text itself.
    Name(&'a [u8]),
    /// The decimal of a number.
    Number(u64),
    /// The decimal of a number and a colon.
    Label(u64),
    /// The decimal of a number, after a hyphen where it is negative.
    Signed(i64),
    /// The escaped text of bytes after an equals sign.
    Marked(&'a [u8]),
}

/// Appends a line of these words, the first of which is a name. Out of memory, `out` is as
/// before.
pub fn put_line(out: &mut Vec<u8>, first: &[u8], others: &[Word<'_>]) -> Result<(), AllocError>
    ensures ok { OnOk result (out.new.items
        ≡ out.old.items ++ (spaced (first.now ∷ map word_text others.now) ++ 10 ∷ [])) }
    ensures err { OnErr result (out.new.items ≡ out.old.items) }
{
    let before = out.len();
    let put = put_words(out, first, others);
    if put.is_err() {
        out.truncate(before);
    }
    put
}

/// As `put_line`, but when out of memory more bytes may stand after those of before.
fn put_words(out: &mut Vec<u8>, first: &[u8], others: &[Word<'_>]) -> Result<(), AllocError>
    ensures ok { OnOk result (out.new.items
        ≡ out.old.items ++ (spaced (first.now ∷ map word_text others.now) ++ 10 ∷ [])) }
    ensures err { OnErr result (take (vec_len out.old) out.new.items ≡ out.old.items) }
{
    out.extend_from_slice(first)?;
    for word in others {
        out.push(b' ')?;
        put_word(out, word)?;
    }
    out.push(b'\n')?;
    Ok(())
}

fn put_word(out: &mut Vec<u8>, word: &Word<'_>) -> Result<(), AllocError>
    ensures ok { OnOk result (out.new.items ≡ out.old.items ++ word_text word.now) }
    ensures err { OnErr result (take (vec_len out.old) out.new.items ≡ out.old.items) }
{
    match word {
        Word::Name(name) => out.extend_from_slice(name),
        Word::Number(n) => put_decimal(out, *n),
        Word::Label(n) => {
            put_decimal(out, *n)?;
            Ok(out.push(b':')?)
        }
        Word::Signed(n) => put_signed(out, *n),
        Word::Marked(bytes) => {
            out.push(b'=')?;
            put_escaped(out, bytes)
        }
    }
}

fn put_signed(out: &mut Vec<u8>, n: i64) -> Result<(), AllocError>
    ensures ok { OnOk result (out.new.items ≡ out.old.items ++ signed_decimal n) }
    ensures err { OnErr result (take (vec_len out.old) out.new.items ≡ out.old.items) }
{
    if n < 0 {
        out.push(b'-')?;
    }
    put_decimal(out, n.unsigned_abs())
}

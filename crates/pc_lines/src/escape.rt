//! Any bytes as a word of visible ASCII, and back.

ghost use Rattle.std.specs.Prelude.{◌≡◌, ◌≢◌, ◌++◌, ◌∷◌, [], ◌<◌, ◌+◌, ◌*◌, length, take, vec_len, OnOk, OnErr, IfOk, IfNone, IfSome, IsErrOf, Some, None};
ghost use Rattle.std.specs.Char.{digit_char};
ghost use Rattle.pc_lines.specs.Escape.{is_plain, escape_of, escaped_of, hex_value, coded_byte, onto, unescaped_of};
ghost use Rattle.pc_lines.specs.declared.escape.UnescapeFault.TheVariants.{NoMemory};

use std::alloc::{AllocError, AllocFailed, Global};
use std::error::Error;
use std::fmt;

/// Why a word gave no bytes.
#[derive(Clone, Copy, Debug, PartialEq, Eq)]
pub enum UnescapeFault {
    /// The word is not the escaped text of any bytes.
    Bad,
    /// Memory was wanting.
    NoMemory,
}

impl fmt::Display for UnescapeFault {
    fn fmt<W: fmt::Write>(&self, f: &mut fmt::Formatter<W>) -> fmt::Result {
        match self {
            UnescapeFault::Bad => write!(f, "not an escaped text"),
            UnescapeFault::NoMemory => write!(f, "out of memory"),
        }
    }
}

impl Error for UnescapeFault {}

impl<T: Drop> From<AllocFailed<T>> for UnescapeFault {
    ghost from_gives = { λ _ e. e ≡ NoMemory };

    fn from(_failed: AllocFailed<T>) -> UnescapeFault {
        UnescapeFault::NoMemory
    }
}

/// Appends the escaped text of bytes: a visible ASCII character other than `%` stands for itself,
/// another byte is `%` and two lower-case hexadecimal digits. Where memory is wanting `out` is as
/// before.
pub fn put_escaped(out: &mut Vec<u8>, bytes: &[u8]) -> Result<(), AllocError>
    ensures ok { OnOk result (out.new.items ≡ out.old.items ++ escaped_of bytes.now) }
    ensures err { OnErr result (out.new.items ≡ out.old.items) }
{
    let before = out.len();
    let put = put_escapes(out, bytes);
    if put.is_err() {
        out.truncate(before);
    }
    put
}

/// The bytes of which the word is the escaped text.
pub fn unescape(alloc: Global, word: &[u8]) -> Result<Vec<u8>, UnescapeFault>
    ensures ok { IfOk result (λ bytes. unescaped_of word.now ≡ Some bytes.items) }
    ensures spelled { IfOk result (λ bytes. escaped_of bytes.items ≡ word.now) }

    // Want of memory may come before the word is found bad.
    ensures bad { IsErrOf result UnescapeFault.Bad → unescaped_of word.now ≡ None }
{
    let mut bytes = Vec::new(alloc);
    let mut rest = word;
    while !rest.is_empty() {
        let Some((byte, after)) = first_byte(rest) else {
            return Err(UnescapeFault::Bad);
        };
        bytes.push(byte)?;
        rest = after;
    }
    Ok(bytes)
}

/// As `put_escaped`, but where memory is wanting more bytes may stand behind those of before.
fn put_escapes(out: &mut Vec<u8>, bytes: &[u8]) -> Result<(), AllocError>
    ensures ok { OnOk result (out.new.items ≡ out.old.items ++ escaped_of bytes.now) }
    ensures err { OnErr result (take (vec_len out.old) out.new.items ≡ out.old.items) }
{
    for byte in bytes {
        put_escape(out, *byte)?;
    }
    Ok(())
}

fn put_escape(out: &mut Vec<u8>, byte: u8) -> Result<(), AllocError>
    ensures ok { OnOk result (out.new.items ≡ out.old.items ++ escape_of byte) }
    ensures err { OnErr result (out.new.items ≡ out.old.items) }
{
    if is_plain(byte) {
        out.push(byte)?;
        Ok(())
    } else {
        out.extend_from_slice(&[b'%', hex_digit(byte / 16), hex_digit(byte % 16)])
    }
}

/// The byte that a word begins with, and the rest of the word.
fn first_byte(word: &[u8]) -> Option<(u8, &[u8])>
    requires { 0 < length word.now }
    ensures none { IfNone result (unescaped_of word.now ≡ None) }
    ensures first { IfSome result (λ x.
        unescaped_of word.now ≡ onto (Some x.0) (unescaped_of x.1.now)) }
    ensures shorter { IfSome result (λ x. length x.1.now < length word.now) }
{
    let (first, rest) = (word[0], &word[1..]);
    if first == b'%' {
        byte_of_code(rest)
    } else if is_plain(first) {
        Some((first, rest))
    } else {
        None
    }
}

/// The byte that two digits at the front stand for, and what is left.
fn byte_of_code(rest: &[u8]) -> Option<(u8, &[u8])>
    ensures none { IfNone result (unescaped_of (37 ∷ rest.now) ≡ None) }
    ensures first { IfSome result (λ x.
        unescaped_of (37 ∷ rest.now) ≡ onto (Some x.0) (unescaped_of x.1.now)) }
    ensures shorter { IfSome result (λ x. length x.1.now < length rest.now) }
{
    if rest.len() < 2 {
        return None;
    }
    let byte = coded_byte(rest[0], rest[1])?;
    Some((byte, &rest[2..]))
}

fn coded_byte(high: u8, low: u8) -> Option<u8>
    ensures { result ≡ coded_byte (hex_value high) (hex_value low) }
{
    let byte = 16 * hex_value(high)? + hex_value(low)?;
    if is_plain(byte) { None } else { Some(byte) }
}

fn is_plain(byte: u8) -> bool
    ensures { result ≡ is_plain byte }
{
    byte.is_ascii_graphic() && byte != b'%'
}

fn hex_digit(value: u8) -> u8
    requires { value < 16 }
    ensures { result ≡ digit_char value }
{
    if value < 10 {
        b'0' + value
    } else {
        b'a' + (value - 10)
    }
}

fn hex_value(digit: u8) -> Option<u8>
    ensures exact { result ≡ hex_value digit }
    ensures small { IfSome result (λ value. value < 16) }
{
    match digit {
        b'0'..=b'9' => Some(digit - b'0'),
        b'a'..=b'f' => Some(digit - b'a' + 10),
        _ => None,
    }
}

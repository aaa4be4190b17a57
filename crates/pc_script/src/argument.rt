//! The arguments of a script's line, and the lines that say nothing.

ghost use Rattle.std.specs.Prelude.{◌≡◌, ◌≤◌, IfOk, Ok, Err, length, nat_lt, if◌then◌else◌};
ghost use Rattle.pc_lines.specs.Pieces.{lines_of};
ghost use Rattle.pc_script.specs.Arguments.{Gives, argument_of, part_of, no_word_of, one_word_of, two_words_of, is_skipped};

use crate::fault::{ScriptKind, ScriptReadFault};
use pc_lines::{Words, decimal, lines, words};
use pc_model::limits::{MAX_PARTS, MAX_SCRIPT_LINES};

/// The greatest part that a script may name.
const LAST_PART: u64 = MAX_PARTS as u64 - 1;

/// The number of a word, from `least` to `most`.
#[tactic(auto, unfolding(crate::specs::Arguments::argument_of))]
pub(crate) fn argument(word: &[u8], least: u64, most: u64) -> Result<u64, ScriptKind>
    ensures read { result ≡ argument_of least most word.now }
    ensures small { IfOk result (λ n. n ≤ most) }
{
    let Ok(n) = decimal(word) else {
        return Err(ScriptKind::NotDecimal);
    };
    if least <= n && n <= most {
        Ok(n)
    } else {
        Err(ScriptKind::OutOfRange)
    }
}

/// The part that a word names.
pub(crate) fn part(word: &[u8]) -> Result<u32, ScriptKind>
    ensures { result ≡ part_of word.now }
{
    Ok(argument(word, 0, LAST_PART)? as u32)
}

/// Refuses words that are left.
pub(crate) fn no_word(mut words: Words<'_>) -> Result<(), ScriptKind>
    ensures { result ≡ no_word_of words.entry }
{
    match words.next() {
        None => Ok(()),
        Some(_) => Err(ScriptKind::WordCount),
    }
}

/// The one word that is left.
pub(crate) fn one_word<'a>(mut words: Words<'a>) -> Result<&'a [u8], ScriptKind>
    ensures { Gives (λ word. word.now) result (one_word_of words.entry) }
{
    match (words.next(), words.next()) {
        (Some(word), None) => Ok(word),
        _ => Err(ScriptKind::WordCount),
    }
}

/// The two words that are left.
pub(crate) fn two_words<'a>(mut words: Words<'a>) -> Result<(&'a [u8], &'a [u8]), ScriptKind>
    ensures { Gives (λ pair. (pair.0.now, pair.1.now)) result (two_words_of words.entry) }
{
    match (words.next(), words.next(), words.next()) {
        (Some(first), Some(second), None) => Ok((first, second)),
        _ => Err(ScriptKind::WordCount),
    }
}

/// Whether a line is a comment or blank.
pub(crate) fn is_skipped(line: &[u8]) -> bool
    ensures { result ≡ is_skipped line.now }
{
    line.first() == Some(&b'#') || words(line).next().is_none()
}

/// Refuses a text of more lines than a script may have.
pub(crate) fn check_size(bytes: &[u8]) -> Result<(), ScriptReadFault>
    ensures { let many = nat_lt MAX_SCRIPT_LINES (length (lines_of bytes.now)) in
        result ≡ (if many then Err ScriptReadFault.TooManyLines else Ok tt) }
{
    if lines(bytes).count() > MAX_SCRIPT_LINES {
        Err(ScriptReadFault::TooManyLines)
    } else {
        Ok(())
    }
}

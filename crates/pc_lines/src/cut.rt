//! Where a text is cut into lines, and a line into words.

ghost use Rattle.std.specs.Prelude.{◌≡◌, ◌==◌, ◌≤◌, length, position};
ghost use Rattle.std.specs.List.{before_first, after_first};
ghost use Rattle.pc_lines.specs.Pieces.{lines_of, words_of};

use crate::line::Lines;
use crate::word::Words;

/// The lines of a text: the pieces that line feeds end, without them. A last piece without a line
/// feed is a line too, unless it is empty. Takes no memory.
pub fn lines(bytes: &[u8]) -> Lines<'_>
    ensures lines { result ≡ lines_of bytes.now }
    ensures few { length result ≤ length bytes.now }
{
    Lines::new(bytes)
}

/// The words of a line: the pieces between spaces that are not empty. Takes no memory.
pub fn words(line: &[u8]) -> Words<'_>
    ensures { result ≡ words_of line.now }
{
    Words::new(line)
}

fn place_of(bytes: &[u8], mark: u8) -> Option<usize>
    ensures { result ≡ position (λ b. b == mark) bytes.now }
{
    bytes.iter().position(|b| *b == mark)
}

/// What stands before the first `mark`, and what stands after it; without one, all and nothing.
pub(crate) fn cut(bytes: &[u8], mark: u8) -> (&[u8], &[u8])
    ensures before { result.0.now ≡ before_first (λ b. b == mark) bytes.now }
    ensures after { result.1.now ≡ after_first (λ b. b == mark) bytes.now }
{
    match place_of(bytes, mark) {
        Some(at) => (&bytes[..at], &bytes[at + 1..]),
        None => bytes.split_at(bytes.len()),
    }
}

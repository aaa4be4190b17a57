//! The words of a line, one after the other; clauses see the list of those that are left.

ghost use Rattle.std.specs.Prelude.{◌≡◌, ◌==◌, not, position};

use crate::cut::cut;
use std::marker::Model;

/// The words of a line that are left.
#[derive(Debug, Drop)]
pub struct Words<'a> {
    rest: &'a [u8],
}

impl<'a> Model for Words<'a> {
    ghost use Rattle.std.specs.Prelude.{ℕ, List};
    ghost use Rattle.pc_lines.specs.Pieces.{words_of};

    ghost Value = { List (List ℕ) };

    ghost view = { λ s. words_of s.rest.now };
}

impl<'a> Words<'a> {
    ghost use Rattle.pc_lines.specs.Pieces.{words_of};

    pub(crate) fn new(rest: &'a [u8]) -> Words<'a>
        ensures { result ≡ words_of rest.now }
    {
        Words { rest }
    }
}

fn start_of(line: &[u8]) -> Option<usize>
    ensures { result ≡ position (λ b. not (b == 32)) line.now }
{
    line.iter().position(|b| *b != b' ')
}

impl<'a> Iterator for Words<'a> {
    ghost use Rattle.std.specs.Iterator.{YieldsFirstRef, item_count};

    type Item = &'a [u8];

    ghost next_gives = { YieldsFirstRef (λ s. s) };

    ghost remaining = { item_count (λ s. s) };

    fn next(&mut self) -> Option<&'a [u8]> {
        let start = start_of(self.rest)?;
        let (word, rest) = cut(&self.rest[start..], b' ');
        self.rest = rest;
        Some(word)
    }
}

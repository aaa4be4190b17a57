//! The lines of a text, one after the other; clauses see the list of those that are left.

ghost use Rattle.std.specs.Prelude.{◌≡◌};

use crate::cut::cut;
use std::marker::Model;

/// The lines of a text that are left, without their line feeds.
#[derive(Debug, Drop)]
pub struct Lines<'a> {
    rest: &'a [u8],
}

impl<'a> Model for Lines<'a> {
    ghost use Rattle.std.specs.Prelude.{ℕ, List};
    ghost use Rattle.pc_lines.specs.Pieces.{lines_of};

    ghost Value = { List (List ℕ) };

    ghost view = { λ s. lines_of s.rest.now };
}

impl<'a> Lines<'a> {
    ghost use Rattle.pc_lines.specs.Pieces.{lines_of};

    pub(crate) fn new(rest: &'a [u8]) -> Lines<'a>
        ensures { result ≡ lines_of rest.now }
    {
        Lines { rest }
    }
}

impl<'a> Iterator for Lines<'a> {
    ghost use Rattle.std.specs.Iterator.{YieldsFirstRef, item_count};

    type Item = &'a [u8];

    ghost next_gives = { YieldsFirstRef (λ s. s) };

    ghost remaining = { item_count (λ s. s) };

    fn next(&mut self) -> Option<&'a [u8]> {
        if self.rest.is_empty() {
            return None;
        }
        let (line, rest) = cut(self.rest, b'\n');
        self.rest = rest;
        Some(line)
    }
}

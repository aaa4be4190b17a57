//! The records of a held part that were not polled, with the offset of the first at hand: no question
//! for it reads a batch.

ghost use Rattle.std.specs.Prelude.{◌≡◌, option_map, slice_get};

use pc_cursor::Cursor;
use std::marker::Model;

/// What is left of a part's log, and the offset of its first record.
#[derive(Debug, Drop)]
pub struct Unread<'a> {
    cursor: Cursor<'a>,
    first: Option<u64>,
}

impl<'a> Model for Unread<'a> {
    ghost use Rattle.std.specs.Prelude.{◌≡◌, option_map, slice_get};
    ghost use Rattle.pc_cursor.specs.Cursor.{CursorView};

    ghost Value = { CursorView };

    ghost view = { λ u. u.cursor };

    ghost invariant = { λ u. u.first ≡ option_map (λ r. r.offset) (slice_get u.cursor.left 0) };
}

impl<'a> Unread<'a> {
    /// What the cursor has left.
    pub(crate) fn new(cursor: Cursor<'a>) -> Unread<'a>
        ensures { result ≡ cursor.entry }
    {
        let first = match cursor.again().next() {
            Some(record) => Some(record.offset),
            None => None,
        };
        Unread { cursor, first }
    }

    /// A cursor at the first record.
    pub(crate) fn again(&self) -> Cursor<'a>
        ensures { result ≡ self.now }
    {
        self.cursor.again()
    }

    /// The offset of the first record.
    pub(crate) fn first(&self) -> Option<u64>
        ensures { result ≡ option_map (λ r. r.offset) (slice_get self.now.left 0) }
    {
        self.first
    }
}

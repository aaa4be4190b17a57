//! The next records of a part: clauses see those that are still to be given, and all that are left
//! of the log.

ghost use Rattle.std.specs.Prelude.{◌≡◌};
ghost use Rattle.pc_broker_log.specs.Logs.{first_upto};

use pc_batch::RecordRef;
use pc_cursor::Cursor;
use std::marker::Model;

/// Records of a part's log that were not given yet, in the order of their offsets: at most `n`,
/// and none above an offset.
#[derive(Debug, Drop)]
pub struct Polled<'a> {
    cursor: Cursor<'a>,
    most: u64,
    upto: u64,
}

impl<'a> Model for Polled<'a> {
    ghost use Rattle.pc_broker_log.specs.Logs.{PolledView, first_upto};

    ghost Value = { PolledView };

    ghost view = { λ p. record { left = first_upto p.most p.upto p.cursor.left; log = p.cursor.left } };
}

impl<'a> Polled<'a> {
    /// The next records of the cursor, at most `most`, none above the offset `upto`.
    pub fn new(cursor: Cursor<'a>, most: u32, upto: u64) -> Polled<'a>
        ensures left { result.left ≡ first_upto most upto cursor.entry.left }
        ensures log { result.log ≡ cursor.entry.left }
    {
        Polled {
            cursor,
            most: u64::from(most),
            upto,
        }
    }

    /// Where the log is to be read on.
    pub fn rest(self) -> Cursor<'a>
        ensures { result.left ≡ self.entry.log }
    {
        self.cursor
    }
}

impl<'a> Iterator for Polled<'a> {
    ghost use Rattle.std.specs.Iterator.{item_count};
    ghost use Rattle.pc_broker_log.specs.Logs.{GivesPolled};

    type Item = RecordRef<'a>;

    ghost next_gives = { GivesPolled };

    ghost remaining = { item_count (λ p. p.left) };

    fn next(&mut self) -> Option<RecordRef<'a>> {
        if self.most == 0 {
            return None;
        }
        let record = self.cursor.next_upto(self.upto)?;
        self.most -= 1;
        Some(record)
    }
}

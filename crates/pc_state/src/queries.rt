//! What is asked of a state. No question goes by how many records are open.

ghost use Rattle.std.specs.Prelude.{◌≡◌, ◌≤◌, ◌-◌, ◌+◌, ◌==◌, ◌||◌, not, ℕ, List, Option, Some, None, true, false, IfSome, if◌then◌else◌};
ghost use Rattle.std.specs.List.{list_all, range_with_len};
ghost use Rattle.pc_model.specs.declared.event.Event.{Event};
ghost use Rattle.pc_model.specs.Given.{Given};
ghost use Rattle.pc_model.specs.Epochs.{is_held};
ghost use Rattle.pc_model.specs.Known.{position_of};
ghost use Rattle.pc_model.specs.Numbers.{first_some};
ghost use Rattle.pc_model.specs.Lawful.{held_parts, is_finished};
ghost use Rattle.pc_model.specs.Run.{is_commit_due, is_unsaved};
ghost use Rattle.pc_state.specs.Queries.{first_uncommitted, first_unfinished, other_stored, uncommitted_at, unfinished, unfinished_at, unfinished_part};
ghost use Rattle.pc_state.specs.Ledger.{CountsPart};
ghost use Rattle.pc_state.specs.State.{Knows, KnowsHeld};

use crate::ledger::PartLedger;
use crate::part::HeldPart;
use crate::state::State;

/// Why not all is done.
#[derive(Clone, Copy, Debug, PartialEq, Eq)]
pub enum Unfinished {
    /// The record at this offset of the part was not polled or is not complete.
    NotDone {
        part: u32,
        offset: u64,
    },
    /// The part's position is not certainly stored: `stored` may be.
    Uncommitted {
        part: u32,
        stored: u64,
        position: u64,
    },
}

impl<'a> State<'a> {
    /// Why not all is done yet: the first reason that applies.
    pub fn unfinished(&self) -> Option<Unfinished>
        ensures reason { (given : Given) (h : List Event) → Knows given h self.now
            → result ≡ unfinished_part given h }
        ensures finished { result ≡ None → (given : Given) (h : List Event) → Knows given h self.now
            → list_all (is_finished given h) (held_parts given h) ≡ true }
    {
        if let Some((part, offset)) = self.first_unfinished() {
            return Some(Unfinished::NotDone { part, offset });
        }
        let (part, stored) = self.first_uncommitted()?;
        Some(Unfinished::Uncommitted {
            part,
            stored,
            position: self.position(part),
        })
    }

    /// Whether a held part has something that is not stored for certain. Also false for a part that is
    /// not held.
    pub fn unsaved(&self, part: u32) -> bool
        ensures { (given : Given) (h : List Event) → Knows given h self.now
            → result ≡ is_unsaved given h part }
    {
        let Some((held, kept)) = self.held_part(part) else {
            return false;
        };
        kept.unstored || kept.stored != held.window.position()
    }

    /// Whether a commit of the part is due: it is held, and has enough new successes, or is blocked
    /// and has one.
    pub fn commit_due(&self, part: u32) -> bool
        ensures { (given : Given) (h : List Event) → Knows given h self.now
            → result ≡ is_commit_due given h part }
    {
        let Some((held, kept)) = self.held_part(part) else {
            return false;
        };
        kept.fresh >= u64::from(self.setup.settings.commit_every)
            || (held.is_blocked(self.setup) && kept.fresh > 0)
    }

    // The least held part with a record that is incomplete or was not polled, and the least offset of
    // one.
    fn first_unfinished(&self) -> Option<(u32, u64)>
        ensures { (given : Given) (h : List Event) → Knows given h self.now
            → result ≡ first_unfinished given h }
    {
        for part in 0..self.logs.parts() {
            if let Some(offset) = self.unfinished_at(part) {
                return Some((part, offset));
            }
        }
        None
    }

    // The least held part for which a commit may be stored that has another position than the part,
    // and the position of the first such commit.
    fn first_uncommitted(&self) -> Option<(u32, u64)>
        ensures { (given : Given) (h : List Event) → Knows given h self.now
            → result ≡ first_uncommitted given h }
    {
        for part in 0..self.logs.parts() {
            if let Some(stored) = self.uncommitted_at(part) {
                return Some((part, stored));
            }
        }
        None
    }

    // The least incomplete offset of a held part, or else the offset after the known ones; 0 of a part
    // that is not held.
    fn position(&self, part: u32) -> u64
        ensures { (given : Given) (h : List Event) → Knows given h self.now
            → is_held h part ≡ true → result ≡ position_of given h part }
    {
        match self.held(part) {
            Some(held) => held.window.position(),
            None => 0,
        }
    }

    // The offset of the first record of a held part that is incomplete or was not polled.
    fn unfinished_at(&self, part: u32) -> Option<u64>
        ensures { (given : Given) (h : List Event) → Knows given h self.now
            → result ≡ (if is_held h part then unfinished given h part else None) }
    {
        let _held = self.held(part)?;
        match self.shards.first(part) {
            Some(entry) => Some(entry.record.offset),
            None => self.first_left(part),
        }
    }

    // The position of the first commit that may be stored for a held part and has another position.
    fn uncommitted_at(&self, part: u32) -> Option<u64>
        ensures { (given : Given) (h : List Event) → Knows given h self.now
            → result ≡ (if is_held h part then other_stored given h part else None) }
    {
        let (held, kept) = self.held_part(part)?;
        if kept.stored == held.window.position() {
            None
        } else {
            Some(kept.stored)
        }
    }

    // What is known of a held part, and what of its commits.
    pub(crate) fn held_part(&self, part: u32) -> Option<(&HeldPart<'a>, &PartLedger)>
        ensures knows { IfSome result (λ it. (given : Given) (h : List Event)
            → Knows given h self.now
            → (is_held h part ≡ true) × KnowsHeld given h part it.0.now
            × CountsPart given h part it.1.now) }
        ensures free { result ≡ None → (given : Given) (h : List Event) → Knows given h self.now
            → is_held h part ≡ false }
    {
        let held = self.held(part)?;
        let kept = self.ledger.parts.as_slice().get(part as usize)?;
        Some((held, kept))
    }
}

//! The parts that a journal leaves held, with the first assignment of each.

ghost use Rattle.std.specs.Prelude.{◌≡◌, ◌≤◌, ◌<◌, ◌+◌, ◌-◌, ◌^◌, ◌∷◌, ℕ, List, Some, IfOk, IfSome, is_some, length};
ghost use Rattle.pc_model.specs.declared.event.Event.{Event};
ghost use Rattle.pc_model.specs.declared.event.Event.TheVariants.{Assign, Crash, Lost, Revoke};
ghost use Rattle.pc_model.specs.Epochs.{is_held};
ghost use Rattle.pc_print.specs.Summary.{first_assigned};

use pc_model::{Event, Journal, MapText};
use std::alloc::{AllocError, Global};
use std::marker::Model;

/// The commit that a part was first assigned with.
#[derive(Clone, Copy, Debug)]
pub(crate) struct First<'a> {
    pub(crate) position: u64,
    pub(crate) map: &'a MapText,
}

/// What a journal says of a part that it assigns.
#[derive(Clone, Copy, Debug)]
pub(crate) struct Assigned<'a> {
    first: First<'a>,
    /// How many crashes stood before the last assignment. None where the part was revoked or lost
    /// after it.
    after: Option<u64>,
}

/// What a journal says of the parts from 0 on.
#[derive(Debug, Drop)]
pub(crate) struct HeldParts<'a> {
    parts: Vec<Option<Assigned<'a>>>,
    crashes: u64,
}

impl<'a> Model for HeldParts<'a> {
    ghost use Rattle.pc_print.specs.HeldParts.{PartsView};

    ghost Value = { PartsView };

    ghost view = { λ p. record { parts = p.parts.items; crashes = p.crashes } };
}

impl<'a> HeldParts<'a> {
    ghost use Rattle.pc_print.specs.HeldParts.{AreKept, plain_first};

    /// What the journal says of this many parts.
    pub(crate) fn of(
        alloc: Global,
        parts: u32,
        journal: &'a Journal,
    ) -> Result<HeldParts<'a>, AllocError>
        ensures parts { IfOk result (λ kept. length kept.parts ≡ parts) }
        ensures kept { IfOk result (AreKept journal.now.events) }
    {
        let mut kept = HeldParts {
            parts: vec![in alloc; None; parts as usize]?,
            crashes: 0,
        };
        for event in journal.as_slice() {
            kept.follow(event);
        }
        Ok(kept)
    }

    /// The part's first assignment, if the part is held at the end.
    pub(crate) fn start(&self, part: u32) -> Option<First<'a>>
        ensures held { (h : List Event) → AreKept h self.now → part < length self.now.parts
            → is_some result ≡ is_held h part }
        ensures first { IfSome result (λ first. (h : List Event) → AreKept h self.now
            → part < length self.now.parts → first_assigned h part ≡ Some (plain_first first)) }
    {
        let assigned = self.parts.as_slice().get(part as usize)?.as_ref()?;
        if assigned.after == Some(self.crashes) {
            Some(assigned.first)
        } else {
            None
        }
    }

    /// Goes on to the next event.
    fn follow(&mut self, event: &'a Event)
        requires { self.old.crashes < 2 ^ 64 - 1 }
        ensures kept { (h : List Event) → AreKept h self.old → AreKept (event.now ∷ h) self.new }
        ensures parts { length self.new.parts ≡ length self.old.parts }
        ensures crashes { self.new.crashes ≤ self.old.crashes + 1 }
    {
        match event {
            Event::Assign {
                part,
                position,
                map,
                ..
            } => self.assign(
                *part,
                First {
                    position: *position,
                    map,
                },
            ),
            Event::Revoke { part, .. } | Event::Lost { part, .. } => self.drop_part(*part),
            Event::Crash => self.crashes += 1,
            _ => {}
        }
    }

    /// The part is assigned with this commit.
    fn assign(&mut self, part: u32, commit: First<'a>)
        ensures kept { (h : List Event) (epoch : ℕ) → AreKept h self.old
            → AreKept (Assign part epoch commit.entry.position commit.entry.map.now ∷ h) self.new }
        ensures parts { length self.new.parts ≡ length self.old.parts }
        ensures crashes { self.new.crashes ≡ self.old.crashes }
    {
        let at = part as usize;
        let Some(assigned) = self.parts.get(at) else {
            return;
        };
        let first = match assigned {
            Some(assigned) => assigned.first,
            None => commit,
        };
        self.parts[at] = Some(Assigned {
            first,
            after: Some(self.crashes),
        });
    }

    /// The part is revoked or lost.
    fn drop_part(&mut self, part: u32)
        ensures revoked { (h : List Event) (epoch : ℕ) → AreKept h self.old
            → AreKept (Revoke part epoch ∷ h) self.new }
        ensures lost { (h : List Event) (epoch : ℕ) → AreKept h self.old
            → AreKept (Lost part epoch ∷ h) self.new }
        ensures parts { length self.new.parts ≡ length self.old.parts }
        ensures crashes { self.new.crashes ≡ self.old.crashes }
    {
        let at = part as usize;
        let Some(Some(assigned)) = self.parts.get(at) else {
            return;
        };
        self.parts[at] = Some(Assigned {
            first: assigned.first,
            after: None,
        });
    }
}

//! The epochs of all parts. Clauses see a list with the epoch of each part, and `AreEpochs` says of
//! which history they are.

ghost use Rattle.std.specs.Prelude.{◌≡◌, ℕ, ◌+◌, ◌-◌, ◌^◌, ◌<◌, List, [], ◌∷◌, length, IfOk, OnErr, OnOk};
ghost use Rattle.std.specs.List.{All};

use crate::fault::EpochFault;
use std::alloc::{AllocError, Global};
use std::marker::Model;

/// What is known of a part's epochs.
#[derive(Clone, Copy, Debug, PartialEq, Eq)]
pub struct PartEpoch {
    /// How many assignments, revocations and losses of the part and crashes there were.
    pub epoch: u64,
    /// Whether the last of these was an assignment.
    pub is_held: bool,
}

/// The epochs of the parts from 0 on.
#[derive(Debug, Drop)]
pub struct Epochs {
    parts: Vec<PartEpoch>,
}

impl Model for Epochs {
    ghost use Rattle.std.specs.Prelude.{List};
    ghost use Rattle.pc_assignment.specs.declared.epochs.PartEpoch.{PartEpoch};

    ghost Value = { List PartEpoch };

    ghost view = { λ e. e.parts.items };
}

impl Epochs {
    ghost use Rattle.pc_model.specs.declared.event.Event.{Event};
    ghost use Rattle.pc_model.specs.declared.event.Event.TheVariants.{Assign, Crash, Lost, Revoke};
    ghost use Rattle.pc_model.specs.Epochs.{epoch_of, is_held};
    ghost use Rattle.pc_assignment.specs.Epochs.{AreEpochs, AreSmall, assign_answer, drop_answer, of_part};

    /// The epochs of this many parts before any event: each is 0, and none is held.
    pub fn new(alloc: Global, parts: u32) -> Result<Epochs, AllocError>
        ensures parts { IfOk result (λ epochs. length epochs ≡ parts) }
        ensures epochs { IfOk result (λ epochs. AreEpochs [] epochs) }
    {
        let first = PartEpoch {
            epoch: 0,
            is_held: false,
        };
        let parts = vec![in alloc; first; parts as usize]?;
        Ok(Epochs { parts })
    }

    /// The part's epoch. None exactly where the part is unknown.
    pub fn current(&self, part: u32) -> Option<u64>
        ensures { (h : List Event) → AreEpochs h self.now
            → result ≡ of_part (length self.now) part (epoch_of h part) }
    {
        let state = self.parts.as_slice().get(part as usize)?;
        Some(state.epoch)
    }

    /// Whether the part is held. None exactly where the part is unknown.
    pub fn held(&self, part: u32) -> Option<bool>
        ensures { (h : List Event) → AreEpochs h self.now
            → result ≡ of_part (length self.now) part (is_held h part) }
    {
        let state = self.parts.as_slice().get(part as usize)?;
        Some(state.is_held)
    }

    /// Begins an epoch of the part, and gives its number.
    ///
    /// Refuses with `UnknownPart` or `AlreadyHeld`, the first that applies.
    pub fn assign(&mut self, part: u32) -> Result<u64, EpochFault>
        requires { AreSmall self.old }
        ensures answer { (h : List Event) → AreEpochs h self.old
            → result ≡ assign_answer (length self.old) h part }
        ensures epochs { OnOk result ((h : List Event) (position : ℕ) (text : List ℕ)
            → AreEpochs h self.old
            → AreEpochs (Assign part (epoch_of h part + 1) position text ∷ h) self.new) }
        ensures parts { length self.new ≡ length self.old }
        ensures stays { OnErr result (self.new ≡ self.old) }
    {
        let at = part as usize;
        let Some(state) = self.parts.get(at) else {
            return Err(EpochFault::UnknownPart);
        };
        if state.is_held {
            return Err(EpochFault::AlreadyHeld);
        }
        let epoch = state.epoch + 1;
        self.parts[at] = PartEpoch {
            epoch,
            is_held: true,
        };
        Ok(epoch)
    }

    /// Ends the epoch of a part that was revoked or lost, and gives its number.
    ///
    /// Refuses with `UnknownPart` or `NotHeld`, the first that applies.
    pub fn drop_part(&mut self, part: u32) -> Result<u64, EpochFault>
        requires { AreSmall self.old }
        ensures answer { (h : List Event) → AreEpochs h self.old
            → result ≡ drop_answer (length self.old) h part }
        ensures revoked { OnOk result ((h : List Event) → AreEpochs h self.old
            → AreEpochs (Revoke part (epoch_of h part) ∷ h) self.new) }
        ensures lost { OnOk result ((h : List Event) → AreEpochs h self.old
            → AreEpochs (Lost part (epoch_of h part) ∷ h) self.new) }
        ensures parts { length self.new ≡ length self.old }
        ensures stays { OnErr result (self.new ≡ self.old) }
    {
        let at = part as usize;
        let Some(state) = self.parts.get(at) else {
            return Err(EpochFault::UnknownPart);
        };
        if !state.is_held {
            return Err(EpochFault::NotHeld);
        }
        let epoch = state.epoch;
        self.parts[at] = PartEpoch {
            epoch: epoch + 1,
            is_held: false,
        };
        Ok(epoch)
    }

    /// Ends the epochs of all parts: afterwards none is held.
    pub fn crash(&mut self)
        requires { AreSmall self.old }
        ensures epochs { (h : List Event) → AreEpochs h self.old → AreEpochs (Crash ∷ h) self.new }
        ensures parts { length self.new ≡ length self.old }
    {
        for part in self.parts.iter_mut() {
            *part = PartEpoch {
                epoch: part.epoch + 1,
                is_held: false,
            };
        }
    }
}

//! What ends a part's epoch: that it is given back or lost, or a crash.

ghost use Rattle.std.specs.Prelude.{◌≡◌, ◌<◌, ℕ, List, ◌∷◌, true, length, slice_index_or};
ghost use Rattle.pc_model.specs.declared.event.Event.{Event};
ghost use Rattle.pc_model.specs.declared.event.Event.TheVariants.{Crash, Lost, Revoke};
ghost use Rattle.pc_model.specs.Given.{Given};
ghost use Rattle.pc_model.specs.Epochs.{epoch_of, is_held};
ghost use Rattle.pc_state.specs.declared.part.PartState.{PartState};
ghost use Rattle.pc_state.specs.State.{AreReleased, Knows, MayCome};

use crate::part::PartState;
use crate::state::State;

impl<'a> State<'a> {
    /// A held part was given back or lost: its epoch is over, and nothing stays that was learnt of
    /// it but the jobs that are out. Returns the epoch that ended. Takes no memory.
    pub fn release(&mut self, part: u32) -> u64
        requires { (given : Given) × (h : List Event) × Knows given h self.old
            × (is_held h part ≡ true) }
        ensures epoch { (given : Given) (h : List Event) → Knows given h self.old
            → is_held h part ≡ true → result ≡ epoch_of h part }
        ensures lost { (given : Given) (h : List Event) → Knows given h self.old
            → is_held h part ≡ true → MayCome given (Lost part (epoch_of h part)) h
            → Knows given (Lost part (epoch_of h part) ∷ h) self.new }
        ensures revoked { (given : Given) (h : List Event) → Knows given h self.old
            → is_held h part ≡ true → MayCome given (Revoke part (epoch_of h part)) h
            → Knows given (Revoke part (epoch_of h part) ∷ h) self.new }
    {
        let state = &mut self.parts[part as usize];
        let epoch = state.epoch;
        state.epoch = epoch + 1;
        state.held = None;
        self.ledger.release(part);
        self.shards.drop_part(part);
        self.retries.drop_part(part);
        epoch
    }

    /// A crash: every epoch is over, no part is held, and nothing stays that was learnt but the
    /// jobs that are out. Takes no memory.
    pub fn crash(&mut self)
        requires { (given : Given) × (h : List Event) × Knows given h self.old }
        ensures { (given : Given) (h : List Event) → Knows given h self.old
            → MayCome given Crash h → Knows given (Crash ∷ h) self.new }
    {
        release_all(&mut self.parts);
        self.shards.clear();
        self.retries.clear();
        self.ledger.crash();
    }
}

/// Each part's epoch is over, and none is held.
fn release_all(parts: &mut [PartState<'_>])
    requires { (p : ℕ) (d : PartState) → p < length parts.old
        → (slice_index_or parts.old p d).epoch < 4000001 }
    ensures { AreReleased parts.old parts.new }
{
    for part in parts.iter_mut() {
        part.epoch += 1;
        part.held = None;
    }
}

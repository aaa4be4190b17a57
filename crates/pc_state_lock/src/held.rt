//! The value while a turn has it.

ghost use Rattle.std.specs.Prelude.{◌≡◌};
ghost use Rattle.std.specs.Borrow.{Lends, sem};
ghost use Rattle.pc_state_lock.specs.contracts.held.Held.{the_row};

/// The value of a lock, out for a turn. It cannot be dropped: `StateLock::lay` spends it.
pub struct Held<V> {
    pub(crate) value: V,
}

impl<V> Held<V> {
    /// Lends the value, to read and to change.
    pub fn value(&mut self) -> &mut V
        ensures* writes_back { sem 𝓛
            (Lends (the_row V.row) V.row self.entry result (λ w. record { value = w })) }
        ensures value { result.now ≡ self.old.value }
    {
        &mut self.value
    }
}

//! What a locked value is worth to contracts.

ghost use Rattle.std.specs.Prelude.{◌≡◌, List, length};
ghost use Rattle.pc_model.specs.declared.event.Event.{Event};
ghost use Rattle.pc_state_lock.specs.Heading.{Heading};

/// A value that stands for a heading and a list of events.
pub trait Shown {
    /// What no turn changes.
    ghost heading: { Self → Heading };

    /// The events so far, the newest first.
    ghost history: { Self → List Event };

    /// Returns the number of events.
    fn events(&self) -> u64
        ensures { result ≡ length (history self.now) };
}

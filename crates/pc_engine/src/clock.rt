//! The clock of an engine, which its caller moves.

ghost use Rattle.std.specs.Prelude.{◌≡◌};
ghost use Rattle.pc_model.specs.Retry.{now_of};

use crate::engine::Engine;
use crate::fault::EngineFault;
use pc_model::Event;
use pc_task::Task;
use pc_world::Link;

impl<'a, L: Link, T: Task> Engine<'a, L, T> {
    ghost use Rattle.std.specs.Prelude.{◌≡◌, ◌≤◌, Err};
    ghost use Rattle.pc_engine.specs.declared.fault.EngineFault.TheVariants.{NoMemory};
    ghost use Rattle.pc_engine.specs.Effect.{Does, spare, tick_step};
    ghost use Rattle.pc_engine.specs.Engine.{Keeps};

    /// The number of the last tick, or 0.
    pub fn now(&self) -> u64
        ensures { result ≡ now_of self.now.journal.events }
    {
        self.state.clock
    }

    /// Moves the clock on to a number of milliseconds, and returns true and adds Tick where it is
    /// above that of the last tick. Else it returns false and adds nothing. Takes no memory where
    /// the journal has a spare place.
    ///
    /// Refuses with `Closed`, and where an event is to be added with `JournalFull` or `NoMemory`, the
    /// first that applies.
    pub fn tick(&mut self, now: u64) -> Result<bool, EngineFault>
        ensures effect { Does result (tick_step self.old.journal.events now)
            self.old.journal.events self.new.journal.events }
        ensures memory { 1 ≤ spare self.old.journal → result ≡ Err NoMemory → ⊥ }
        ensures keeps { Keeps T.outcome self.old self.new }
    {
        self.runs()?;
        if now <= self.state.clock {
            return Ok(false);
        }
        self.has_room(1)?;
        self.journal.reserve(self.state.outstanding() + 1)?;
        self.state.tick(now);
        self.journal.push(Event::Tick { now });
        Ok(true)
    }
}

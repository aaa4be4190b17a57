//! The calls by which a run comes to its end: a drain begins, all is done, or the engine is closed.

ghost use Rattle.std.specs.Prelude.{◌≡◌};

use crate::engine::Engine;
use crate::fault::EngineFault;
use pc_model::Event;
use pc_task::Task;
use pc_world::Link;

impl<'a, L: Link, T: Task> Engine<'a, L, T> {
    ghost use Rattle.std.specs.Prelude.{◌≡◌, ◌≤◌, ℕ, Err};
    ghost use Rattle.pc_model.specs.Jobs.{has_ended, is_draining};
    ghost use Rattle.pc_engine.specs.declared.fault.EngineFault.TheVariants.{NoMemory, NotDone};
    ghost use Rattle.pc_engine.specs.Effect.{Does, spare};
    ghost use Rattle.pc_engine.specs.Engine.{Keeps, given_of};
    ghost use Rattle.pc_engine.specs.Ending.{close_step, drain_step, finish_step};
    ghost use Rattle.pc_engine.specs.Stall.{GoesOnUnlessDrained};

    /// Whether a drain was begun since the last crash.
    pub fn is_draining(&self) -> bool
        ensures { result ≡ is_draining self.now.journal.events }
    {
        self.state.ledger.drains
    }

    /// Whether the engine has ended.
    pub fn has_ended(&self) -> bool
        ensures { result ≡ has_ended self.now.journal.events }
    {
        self.state.ledger.ended
    }

    /// Begins a drain: adds Drain, after which nothing is assigned or polled before a crash. Takes no
    /// memory where the journal has a spare place.
    ///
    /// Refuses with `Closed`, `Draining`, `JournalFull` or `NoMemory`, the first that applies.
    pub fn begin_drain(&mut self) -> Result<(), EngineFault>
        ensures effect { Does result (drain_step self.old.journal.events)
            self.old.journal.events self.new.journal.events }
        ensures memory { 1 ≤ spare self.old.journal → result ≡ Err NoMemory → ⊥ }
        ensures keeps { Keeps T.outcome self.old self.new }
    {
        self.runs()?;
        self.flows()?;
        self.has_room(1)?;
        self.journal.reserve(self.state.outstanding() + 1)?;
        self.state.drain();
        self.journal.push(Event::Drain);
        Ok(())
    }

    /// All is done: adds Done, and the engine has ended. Takes no memory where the journal has a spare
    /// place.
    ///
    /// Refuses with `Closed`; `NotDone` with the least held part that has a record which is incomplete
    /// or was not polled, and the least such offset; `Uncommitted` with the least held part for which
    /// a commit may be stored that has another position than the part; `JournalFull` or `NoMemory`;
    /// the first that applies. The part of a `NotDone` goes on, unless the engine drains before all of
    /// its records were polled.
    pub fn finish(&mut self) -> Result<(), EngineFault>
        ensures effect { Does result (finish_step (given_of T.outcome self.old) self.old.journal.events)
            self.old.journal.events self.new.journal.events }
        ensures goes_on { (p o : ℕ) → result ≡ Err (NotDone p o)
            → GoesOnUnlessDrained (given_of T.outcome self.old) self.old.journal.events p }
        ensures memory { 1 ≤ spare self.old.journal → result ≡ Err NoMemory → ⊥ }
        ensures keeps { Keeps T.outcome self.old self.new }
    {
        self.runs()?;
        if let Some(reason) = self.state.unfinished() {
            return Err(EngineFault::from(reason));
        }
        self.has_room(1)?;
        self.journal.reserve(self.state.outstanding() + 1)?;
        self.state.end();
        self.journal.push(Event::Done);
        Ok(())
    }

    /// Closes the engine, whatever is left: adds Closed, and the engine has ended. Takes no memory
    /// where the journal has a spare place.
    ///
    /// Refuses with `Closed`, `JournalFull` or `NoMemory`, the first that applies.
    pub fn close(&mut self) -> Result<(), EngineFault>
        ensures effect { Does result (close_step self.old.journal.events)
            self.old.journal.events self.new.journal.events }
        ensures memory { 1 ≤ spare self.old.journal → result ≡ Err NoMemory → ⊥ }
        ensures keeps { Keeps T.outcome self.old self.new }
    {
        self.runs()?;
        self.has_room(1)?;
        self.journal.reserve(self.state.outstanding() + 1)?;
        self.state.end();
        self.journal.push(Event::Closed);
        Ok(())
    }
}

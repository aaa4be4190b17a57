//! The calls that end a part's epoch: it is given back or lost, or all crash.

ghost use Rattle.std.specs.Prelude.{◌≡◌, true, length};
ghost use Rattle.pc_model.specs.Epochs.{is_held};
ghost use Rattle.pc_engine.specs.Effect.{failure_of};

use crate::engine::{Committed, Engine};
use crate::fault::EngineFault;
use pc_model::Event;
use pc_offset_client::ClientFault;
use pc_task::Task;
use pc_world::Link;

impl<'a, L: Link, T: Task> Engine<'a, L, T> {
    ghost use Rattle.std.specs.Prelude.{◌≡◌, ◌≤◌, Ok, Err, Some, Result};
    ghost use Rattle.pc_model.specs.Given.{has_log};
    ghost use Rattle.pc_model.specs.Known.{commit_of};
    ghost use Rattle.pc_offset_client.specs.declared.fault.ClientFault.{ClientFault};
    ghost use Rattle.pc_offset_client.specs.declared.fault.ClientFault.TheVariants.{LinkFailed};
    ghost use Rattle.pc_world.specs.World.{HasRisen};
    ghost use Rattle.pc_engine.specs.declared.fault.EngineFault.{EngineFault};
    ghost use Rattle.pc_engine.specs.Effect.{Does, IsStored, KeepsStore, StoresOnly, crash_step, held_refusal, lose_step, refused_by, revoke_refusal, revoke_step, spare};
    ghost use Rattle.pc_engine.specs.declared.fault.EngineFault.TheVariants.{NoMemory};
    ghost use Rattle.pc_engine.specs.Engine.{Asks, Keeps, given_of};

    /// How many parts there are, with a log or without one.
    pub fn parts(&self) -> u32
        ensures { result ≡ length self.now.logs }
    {
        self.state.logs.parts()
    }

    /// Whether the part is held.
    pub fn held(&self, part: u32) -> bool
        ensures { result ≡ is_held self.now.journal.events part }
    {
        self.state.held(part).is_some()
    }

    /// The part was lost: adds Lost with its epoch, which is over. Nothing stays that was learnt of
    /// it but the jobs that are out, whose results will come too late. Takes no memory where
    /// the journal has a spare place.
    ///
    /// Refuses with `Closed`, `UnknownPart`, `NotHeld`, `JournalFull` or `NoMemory`, the first that
    /// applies.
    pub fn lose(&mut self, part: u32) -> Result<(), EngineFault>
        ensures effect { Does result
            (lose_step (given_of T.outcome self.old) self.old.journal.events part)
            self.old.journal.events self.new.journal.events }
        ensures memory { 1 ≤ spare self.old.journal → result ≡ Err NoMemory → ⊥ }
        ensures keeps { Keeps T.outcome self.old self.new }
    {
        self.may_release(part, 1)?;
        self.journal.reserve(self.state.outstanding() + 1)?;
        let epoch = self.state.release(part);
        self.journal.push(Event::Lost { part, epoch });
        Ok(())
    }

    /// A crash: adds Crash. No part is held afterwards, and nothing stays that was learnt but the
    /// journal, the jobs that are out, and the link. Takes no memory where the journal has
    /// a spare place.
    ///
    /// Refuses with `Closed`, `JournalFull` or `NoMemory`, the first that applies.
    pub fn crash(&mut self) -> Result<(), EngineFault>
        ensures effect { Does result (crash_step self.old.journal.events)
            self.old.journal.events self.new.journal.events }
        ensures memory { 1 ≤ spare self.old.journal → result ≡ Err NoMemory → ⊥ }
        ensures keeps { Keeps T.outcome self.old self.new }
    {
        self.runs()?;
        self.has_room(1)?;
        self.journal.reserve(self.state.outstanding() + 1)?;
        self.state.crash();
        self.journal.push(Event::Crash);
        Ok(())
    }

    /// Gives the part back: has its commit stored, as `commit` does, and adds Commit or
    /// CommitFailed, and then Revoke with the part's epoch, which is over. Returns why the commit
    /// failed, if it did.
    ///
    /// Refuses with `Closed`, `UnknownPart`, `NotHeld`, `JournalFull` or `NoMemory`, the first that
    /// applies.
    pub fn revoke(&mut self, part: u32) -> Result<Option<ClientFault>, EngineFault>
        ensures effect { (outcome : Result (Unit {0}) ClientFault) × IsStored
            (L.is_told self.old.link) (L.store self.old.link) (L.store self.new.link)
            (L.faults self.old.link) (L.faults self.new.link) part
            (commit_of (given_of T.outcome self.old) self.old.journal.events part).commit outcome × Does result
            (revoke_step (given_of T.outcome self.old) self.old.journal.events part outcome)
            self.old.journal.events self.new.journal.events }
        ensures refused { (fault : EngineFault) →
            revoke_refusal (given_of T.outcome self.old) self.old.journal.events part ≡ Some fault
            → (result ≡ Err fault) × (self.new.journal.events ≡ self.old.journal.events)
            × (self.new.link ≡ self.old.link) }
        ensures stays { L.is_told self.old.link ≡ true
            → KeepsStore result (L.store self.old.link) (L.store self.new.link) }
        ensures cause { result ≡ Ok (Some LinkFailed) → HasRisen (L.faults self.old.link)
            (L.faults self.new.link) }
        ensures others { L.is_told self.old.link ≡ true → StoresOnly (has_log (given_of T.outcome self.old))
            (L.store self.old.link) (L.store self.new.link) }
        ensures asks { Asks T.outcome L.is_told L.faults self.old self.new }
    {
        self.may_release(part, 2)?;
        self.journal.reserve(self.state.outstanding() + 2)?;
        let failed = failure(self.store(part))?;
        let epoch = self.state.release(part);
        self.journal.push(Event::Revoke { part, epoch });
        Ok(failed)
    }

    // Why a call is refused that gives the part back and adds this many events, at most 2.
    fn may_release(&self, part: u32, events: u64) -> Result<(), EngineFault>
        requires { events ≤ 2 }
        ensures { result ≡ refused_by
            (held_refusal (given_of T.outcome self.now) self.now.journal.events part events) }
    {
        self.runs()?;
        if self.part(part)?.held.is_none() {
            return Err(EngineFault::NotHeld);
        }
        self.has_room(events)
    }
}

/// Why a commit failed, if it did, where it was made.
fn failure(stored: Result<Committed, EngineFault>) -> Result<Option<ClientFault>, EngineFault>
    ensures { result ≡ failure_of stored }
{
    match stored {
        Ok(_) => Ok(None),
        Err(EngineFault::Client(fault)) => Ok(Some(fault)),
        Err(fault) => Err(fault),
    }
}

//! The engine. Clauses see what it was given, its journal, and its link.

ghost use Rattle.std.specs.Prelude.{◌≡◌, IfOk, List, OnErr, map};
ghost use Rattle.pc_offset_client.specs.declared.fault.ClientFault.TheVariants.{NoMemory as Forgot};
ghost use Rattle.pc_model.specs.Record.{Record};
ghost use Rattle.pc_batch.specs.Record.{plain};
ghost use Rattle.pc_engine.specs.Effect.{last_offset};

use crate::fault::EngineFault;
use crate::polls::unpressed;
use crate::settled::Settled;
use pc_broker_log::BrokerLogs;
use pc_commit::{commit_of, resume};
use pc_model::limits::{MAX_EVENTS, MAX_RECORDS};
use pc_model::{Commit as StoredCommit, Event, Journal, Outcome, Setup, SizedCommit};
use pc_offset_client::{Client, ClientFault};
use pc_partition::PartitionState;
use pc_state::{PartState, State, ready_after};
use pc_task::{Finished, Job, RuleTask, Task};
use pc_world::Link;
use std::alloc::{AllocError, Global};
use std::marker::Model;

/// What a commit stored.
#[derive(Clone, Copy, Debug, PartialEq, Eq)]
pub struct Committed {
    /// The offset of the next record to be read.
    pub position: u64,
    /// The characters of the best map's text.
    pub size: u32,
}

/// The core over one link, which has one function run on the records.
#[derive(Drop)]
pub struct Engine<'a, L: Link, T: Task = RuleTask> {
    pub(crate) alloc: Global,
    pub(crate) task: &'a T,
    pub(crate) state: State<'a>,
    pub(crate) journal: Journal,
    pub(crate) client: Client<L>,
}

impl<'a, L: Link, T: Task> Model for Engine<'a, L, T> {
    ghost use Rattle.std.specs.Prelude.{length};
    ghost use Rattle.pc_offset_client.specs.Client.{kept_for};
    ghost use Rattle.pc_engine.specs.Engine.{EngineView, IsEngine, given_by, starts_of};

    ghost Value = { EngineView L T };

    ghost view = { λ e. record {
      setup = e.state.setup.now;
      logs = e.state.logs.now;
      start = starts_of e.journal.events (L.is_told e.client.link)
          (kept_for (L.store e.client.link)) (length e.state.logs.now);
      is_told = L.is_told e.client.link;
      task = e.task.now;
      journal = e.journal;
      link = e.client.link;
    } };

    ghost invariant = { λ e. IsEngine
        (given_by e.state.setup.now e.state.logs.now e.journal.events (L.is_told e.client.link)
        (T.outcome e.task.now) (kept_for (L.store e.client.link)))
        (kept_for (L.store e.client.link)) e.state e.journal.room e.journal.events };
}

impl<'a, L: Link> Engine<'a, L, RuleTask> {
    ghost use Rattle.std.specs.Prelude.{◌≡◌, [], IfOk, IfErr};
    ghost use Rattle.pc_model.specs.Lawful.{IsLegal};
    ghost use Rattle.pc_model.specs.Outcomes.{outcome_of};
    ghost use Rattle.pc_offset_client.specs.Client.{kept_for};
    ghost use Rattle.pc_engine.specs.Engine.{given_by, given_of};

    /// An engine over these logs, without an event, which has the function of the setup's rules
    /// run. The error is out of memory and gives the link back.
    pub fn start(
        alloc: Global,
        setup: &'a Setup,
        logs: &'a BrokerLogs<'a>,
        link: L,
    ) -> Result<Engine<'a, L>, L>
        ensures given { IfOk result
            (λ e. given_of (λ _. outcome_of) e ≡ given_by setup.now logs.now [] (L.is_told link)
            outcome_of (kept_for (L.store link))) }
        ensures empty { IfOk result (λ e. e.journal.events ≡ []) }
        ensures link { IfOk result (λ e. e.link ≡ link) }
        ensures back { IfErr result (λ l. l ≡ link) }

        // With an engine or without one, no event is a legal history of what it is given.
        ensures legal { IsLegal (given_by setup.now logs.now [] (L.is_told link) outcome_of
            (kept_for (L.store link))) [] }
    {
        Engine::with_task(alloc, setup, logs, &RuleTask, link)
    }
}

impl<'a, L: Link, T: Task> Engine<'a, L, T> {
    ghost use Rattle.std.specs.Prelude.{◌≡◌, ◌≤◌, ◌<◌, ◌+◌, ◌^◌, ◌⊎◌, ◌↔◌, ◌&&◌, ◌==◌, IsTrue, ℕ, true, false, [], IfOk, IfErr, IfSome, IsOk, OnOk, OnErr, Err, Ok, Some, None, Result, if◌then◌else◌, length};
    ghost use Rattle.pc_model.specs.declared.commit.Commit.{Commit};
    ghost use Rattle.pc_model.specs.Known.{commit_of};
    ghost use Rattle.pc_offset_client.specs.declared.fault.ClientFault.{ClientFault};
    ghost use Rattle.pc_offset_client.specs.declared.fault.ClientFault.TheVariants.{LinkFailed};
    ghost use Rattle.pc_offset_client.specs.Client.{kept_for};
    ghost use Rattle.pc_engine.specs.declared.fault.EngineFault.{EngineFault};
    ghost use Rattle.pc_engine.specs.declared.fault.EngineFault.TheVariants.{BadMap, Client as Failed, Closed, Draining, NoMemory, UnknownPart};
    ghost use Rattle.pc_model.specs.declared.map_fault.MapFault.{MapFault};
    ghost use Rattle.pc_commit.specs.Resume.{map_refusal, resumed_marks};
    ghost use Rattle.pc_partition.specs.Window.{StandsFor};
    ghost use Rattle.pc_model.specs.Epochs.{is_held};
    ghost use Rattle.pc_model.specs.Jobs.{has_ended, is_draining};
    ghost use Rattle.pc_world.specs.World.{HasRisen};
    ghost use Rattle.pc_model.specs.Given.{has_log, records_of};
    ghost use Rattle.pc_model.specs.Lawful.{IsLegal};
    ghost use Rattle.pc_model.specs.Stored.{may_store};
    ghost use Rattle.pc_laws.specs.Lists.{In};
    ghost use Rattle.pc_engine.specs.Effect.{Does, IsFetched, IsStored, KeepsStore, StoresOnly, assign_refusal, assign_step, commit_refusal, commit_step, is_full, refused_by};
    ghost use Rattle.pc_engine.specs.Engine.{Asks, Expects, Keeps, given_by, given_of};
    ghost use Rattle.pc_state.specs.State.{PartKeeps};
    ghost use Rattle.pc_model.specs.Jobs.{open_jobs};
    ghost use Rattle.pc_model.specs.Epochs.{epoch_of};
    ghost use Rattle.pc_task.specs.Results.{finished_job};
    ghost use Rattle.pc_engine.specs.declared.settled.Settled.TheVariants.{Closed as Late, Stranger};
    ghost use Rattle.pc_state.specs.Calls.{IsExpected};
    ghost use Rattle.pc_engine.specs.Effect.{Settles, poll_refusal, poll_step, settle_step, spare, take_step, taken};
    ghost use Rattle.pc_engine.specs.Stall.{NoneStalls};

    /// An engine over these logs, without an event, which has this function run. The error is out
    /// of memory and gives the link back.
    pub fn with_task(
        alloc: Global,
        setup: &'a Setup,
        logs: &'a BrokerLogs<'a>,
        task: &'a T,
        link: L,
    ) -> Result<Engine<'a, L, T>, L>
        ensures given { IfOk result
            (λ e. given_of T.outcome e ≡ given_by setup.now logs.now [] (L.is_told link)
            (T.outcome task.now) (kept_for (L.store link))) }
        ensures task { IfOk result (λ e. e.task ≡ task.now) }
        ensures empty { IfOk result (λ e. e.journal.events ≡ []) }
        ensures link { IfOk result (λ e. e.link ≡ link) }
        ensures back { IfErr result (λ l. l ≡ link) }

        // With an engine or without one, no event is a legal history of what it is given.
        ensures legal { IsLegal (given_by setup.now logs.now [] (L.is_told link) (T.outcome task.now)
            (kept_for (L.store link))) [] }
    {
        let Ok(state) = State::new(alloc, setup, logs) else {
            return Err(link);
        };
        Ok(Engine {
            alloc,
            task,
            state,
            journal: Journal::new(alloc),
            client: Client::new(alloc, link),
        })
    }

    /// The events so far, a legal history: with a place for the result of each job that is out, they
    /// are at most 4,000,000.
    pub fn journal(&self) -> &Journal
        ensures value { result.now ≡ self.now.journal }
        ensures legal { IsLegal (given_of T.outcome self.now) self.now.journal.events }
        ensures limit { length self.now.journal.events
            + length (open_jobs self.now.journal.events) ≤ MAX_EVENTS }
    {
        &self.journal
    }

    /// The journal and the link. The journal is legal, and a link that tells its store has for each
    /// part one of the commits that may be stored.
    pub fn into_parts(self) -> (Journal, L)
        ensures journal { result.0 ≡ self.entry.journal }
        ensures link { result.1 ≡ self.entry.link }
        ensures told { self.entry.is_told ≡ L.is_told self.entry.link }
        ensures legal { IsLegal (given_of T.outcome self.entry) self.entry.journal.events }
        ensures stored { self.entry.is_told ≡ true → (p : ℕ) → has_log (given_of T.outcome self.entry) p ≡ true
            → In (kept_for (L.store self.entry.link) p) (may_store (given_of T.outcome self.entry) self.entry.journal.events p) }
    {
        let Engine {
            alloc: _,
            task: _,
            state: _,
            journal,
            client,
        } = self;
        (journal, client.into_link())
    }

    /// Assigns the part: fetches the commit that is stored for it, and adds Assign with that.
    ///
    /// Refuses with `Closed`, `UnknownPart`, `Draining`, `AlreadyHeld`, `JournalFull`, `NoMemory`,
    /// `Client` or `BadMap`, the first that applies. Over a link that does not tell its store, the
    /// commit is what the link gave.
    pub fn assign(&mut self, part: u32) -> Result<(), EngineFault>
        ensures effect { (outcome : Result Commit ClientFault) × IsFetched
            (L.is_told self.old.link) (L.store self.old.link) (L.faults self.old.link)
            (L.faults self.new.link) part outcome × Does result
            (assign_step (given_of T.outcome self.old) self.old.journal.events part outcome)
            self.old.journal.events self.new.journal.events }
        ensures refused { (fault : EngineFault) →
            assign_refusal (given_of T.outcome self.old) self.old.journal.events part ≡ Some fault
            → (result ≡ Err fault) × (self.new.journal.events ≡ self.old.journal.events)
            × (self.new.link ≡ self.old.link) }
        ensures stays { OnErr result (self.new.journal.events ≡ self.old.journal.events) }
        ensures cause { result ≡ Err (Failed LinkFailed) → HasRisen (L.faults self.old.link)
            (L.faults self.new.link) }
        ensures keeps { L.is_told self.old.link ≡ true
            → L.store self.new.link ≡ L.store self.old.link }
        ensures asks { Asks T.outcome L.is_told L.faults self.old self.new }
    {
        self.may_assign(part)?;
        self.journal.reserve(self.state.outstanding() + 1)?;
        let stored = self.client.fetch(part)?;
        let window = self.resumed(part, &stored)?;
        let epoch = self.state.assign(part, stored.position, window);
        self.journal.push(Event::Assign {
            part,
            epoch,
            position: stored.position,
            map: stored.map,
        });
        Ok(())
    }

    /// Commits the part: has its commit stored and adds Commit, or CommitFailed where the client
    /// failed for another cause than memory.
    ///
    /// Refuses with `Closed`, `UnknownPart`, `NotHeld`, `JournalFull`, `NoMemory` or `Client`, the
    /// first that applies.
    pub fn commit(&mut self, part: u32) -> Result<Committed, EngineFault>
        ensures effect { (outcome : Result (Unit {0}) ClientFault) × IsStored
            (L.is_told self.old.link) (L.store self.old.link) (L.store self.new.link)
            (L.faults self.old.link) (L.faults self.new.link) part
            (commit_of (given_of T.outcome self.old) self.old.journal.events part).commit outcome × Does result
            (commit_step (given_of T.outcome self.old) self.old.journal.events part outcome)
            self.old.journal.events self.new.journal.events }
        ensures refused { (fault : EngineFault) →
            commit_refusal (given_of T.outcome self.old) self.old.journal.events part ≡ Some fault
            → (result ≡ Err fault) × (self.new.journal.events ≡ self.old.journal.events)
            × (self.new.link ≡ self.old.link) }
        ensures stays { L.is_told self.old.link ≡ true
            → KeepsStore result (L.store self.old.link) (L.store self.new.link) }
        ensures cause { result ≡ Err (Failed LinkFailed) → HasRisen (L.faults self.old.link)
            (L.faults self.new.link) }
        ensures others { L.is_told self.old.link ≡ true → StoresOnly (has_log (given_of T.outcome self.old))
            (L.store self.old.link) (L.store self.new.link) }
        ensures asks { Asks T.outcome L.is_told L.faults self.old self.new }
    {
        self.may_commit(part)?;
        self.journal.reserve(self.state.outstanding() + 1)?;
        self.store(part)
    }

    /// Polls the next records of the part, at most `max`, and adds Poll. Returns how many; 0,
    /// without an event, exactly where none is left.
    ///
    /// Refuses with `Closed`, `UnknownPart`, `NotHeld`, `Draining`; then returns 0; then refuses
    /// with `Pressed` where the part is blocked and the next record is above its greatest complete
    /// offset, `JournalFull` or `NoMemory`.
    pub fn poll(&mut self, part: u32, max: u32) -> Result<u32, EngineFault>
        requires some { 0 < max }
        requires few { max ≤ MAX_RECORDS }
        ensures effect { Does result
            (poll_step (given_of T.outcome self.old) self.old.journal.events part max)
            self.old.journal.events self.new.journal.events }
        ensures keeps { Keeps T.outcome self.old self.new }
    {
        self.may_poll(part)?;
        let Some(first) = self.state.first_left(part) else {
            return Ok(0);
        };
        unpressed(&self.state, part, first)?;
        self.has_room(1)?;
        self.journal.reserve(self.state.outstanding() + 1)?;
        let taken = self.state.poll(self.alloc, part, max)?;
        self.journal.push(Event::Poll {
            part,
            count: taken.count,
            last: taken.last,
        });
        Ok(taken.count)
    }

    /// Takes the next record for a worker, below 256, and adds Dispatch. None exactly where no record
    /// may be dispatched: then each held part with a record left goes on by another cause, unless the
    /// engine drains.
    ///
    /// Refuses with `Closed`, `JournalFull` or `NoMemory`, the first that applies. Makes the place
    /// that `settle` will need.
    pub fn take(&mut self, worker: u32) -> Result<Option<Job<'a, T>>, EngineFault>
        requires { worker < 256 }
        ensures task { IfOk result (λ taken. IfSome taken (λ job. job.task.now ≡ self.old.task)) }
        ensures effect { Does (taken result)
            (take_step (given_of T.outcome self.old) self.old.journal.events worker)
            self.old.journal.events self.new.journal.events }
        ensures goes_on { result ≡ Ok None
            → NoneStalls (given_of T.outcome self.old) self.old.journal.events }
        ensures keeps { Keeps T.outcome self.old self.new }
    {
        self.runs()?;
        self.has_room(2)?;
        let Some((part, offset)) = self.state.next() else {
            return Ok(None);
        };
        self.journal.reserve(self.state.outstanding() + 2)?;
        let job = self.state.dispatch(self.task, worker, part, offset)?;
        self.journal.push(Event::Dispatch {
            ticket: job.ticket,
            worker,
            part,
            offset,
            epoch: job.epoch,
            attempt: job.attempt,
        });
        Ok(Some(job))
    }

    /// Settles a result: adds Success, Failure or Stale, unless the engine has ended or expects no
    /// such result. Takes no memory.
    pub fn settle(&mut self, done: Finished<'a, T>) -> Settled<'a, T>
        ensures closed { has_ended self.old.journal.events ≡ true → result ≡ Late done.entry
            × self.new.journal.events ≡ self.old.journal.events }
        ensures stranger { has_ended self.old.journal.events ≡ false
            → (Expects T.outcome T.same self.old done.entry → ⊥)
            → result ≡ Stranger done.entry
            × self.new.journal.events ≡ self.old.journal.events }
        ensures settles { has_ended self.old.journal.events ≡ false
            → Expects T.outcome T.same self.old done.entry → Settles result (settle_step (given_of T.outcome self.old) self.old.journal.events
            (finished_job done.entry) done.entry.outcome)
            self.old.journal.events self.new.journal.events }
        ensures keeps { Keeps T.outcome self.old self.new }
    {
        if self.state.ledger.ended {
            return Settled::Closed(done);
        }
        if !done.task.is_same(self.task) || !self.state.expects(&done) {
            return Settled::Stranger(done);
        }
        if !self.state.is_current(done.part, done.epoch) {
            let ticket = done.ticket;
            self.state.forget(ticket);
            self.journal.push(Event::Stale { ticket });
            return Settled::Stale;
        }
        self.conclude(done)
    }

    /// Whether `settle` would answer neither `Closed` nor `Stranger`.
    pub fn expects(&self, done: &Finished<'a, T>) -> bool
        ensures expects { IsTrue result ↔ ((has_ended self.now.journal.events ≡ false)
            × Expects T.outcome T.same self.now done.now) }
        ensures outcomes { IsTrue result → T.outcome done.now.task.now ≡ T.outcome self.now.task }
    {
        !self.state.ledger.ended && done.task.is_same(self.task) && self.state.expects(done)
    }

    /// Makes room for `n` events beyond those kept for the jobs that are out. Fails only where
    /// there is no such room yet and it is out of memory.
    pub fn reserve(&mut self, n: u32) -> Result<(), AllocError>
        ensures enough { n ≤ spare self.old.journal → IsOk result }
        ensures room { OnOk result (n ≤ spare self.new.journal) }
        ensures events { self.new.journal.events ≡ self.old.journal.events }
        ensures keeps { Keeps T.outcome self.old self.new }
    {
        self.journal
            .reserve(self.state.outstanding() + u64::from(n))
    }

    // Has the commit of a held part stored: adds Commit, or CommitFailed where the client failed for
    // another cause than memory. There has to be a place for the event.
    pub(crate) fn store(&mut self, part: u32) -> Result<Committed, EngineFault>
        requires may { commit_refusal (given_of T.outcome self.old) self.old.journal.events part ≡ None }
        requires room { length (open_jobs self.old.journal.events) + 1 ≤ self.old.journal.room }
        ensures effect { (outcome : Result (Unit {0}) ClientFault) × IsStored
            (L.is_told self.old.link) (L.store self.old.link) (L.store self.new.link)
            (L.faults self.old.link) (L.faults self.new.link) part
            (commit_of (given_of T.outcome self.old) self.old.journal.events part).commit outcome × Does result
            (commit_step (given_of T.outcome self.old) self.old.journal.events part outcome)
            self.old.journal.events self.new.journal.events }
        ensures stays { L.is_told self.old.link ≡ true
            → KeepsStore result (L.store self.old.link) (L.store self.new.link) }
        ensures cause { result ≡ Err (Failed LinkFailed) → HasRisen (L.faults self.old.link)
            (L.faults self.new.link) }
        ensures others { L.is_told self.old.link ≡ true → StoresOnly (has_log (given_of T.outcome self.old))
            (L.store self.old.link) (L.store self.new.link) }
        ensures asks { Asks T.outcome L.is_told L.faults self.old self.new }
        ensures room { (result ≡ Err NoMemory)
            ⊎ (self.new.journal.room + 1 ≡ self.old.journal.room) }
    {
        let sized = self.commit_of(part)?;
        match self.client.commit(part, &sized.commit) {
            Ok(()) => {
                let position = sized.commit.position;
                let size = sized.size;
                self.state.committed(part, position, size);
                self.journal.push(Event::Commit {
                    part,
                    position,
                    map: sized.commit.map,
                    size,
                });
                Ok(Committed { position, size })
            }
            Err(fault) => {
                let fault = lasting(fault)?;
                self.state.commit_failed(part, sized.size);
                self.journal.push(Event::CommitFailed {
                    part,
                    position: sized.commit.position,
                    map: sized.commit.map,
                    size: sized.size,
                });
                Err(EngineFault::Client(fault))
            }
        }
    }

    // Adds Success or Failure for the result of a current job.
    fn conclude(&mut self, done: Finished<'a, T>) -> Settled<'a, T>
        requires expected { IsExpected (given_of T.outcome self.old) self.old.journal.events (finished_job done) }
        requires same { T.outcome done.task.now ≡ T.outcome self.old.task }
        requires runs { has_ended self.old.journal.events ≡ false }
        requires current { (is_held self.old.journal.events done.part
            && (done.epoch == epoch_of self.old.journal.events done.part)) ≡ true }
        ensures settles { Settles result (settle_step (given_of T.outcome self.old) self.old.journal.events
            (finished_job done.entry) done.entry.outcome)
            self.old.journal.events self.new.journal.events }
        ensures keeps { Keeps T.outcome self.old self.new }
    {
        let Finished {
            ticket,
            worker: _,
            part,
            epoch: _,
            attempt,
            entry,
            rules: _,
            task: _,
            outcome,
        } = done;
        match outcome {
            Outcome::Good(answer) => {
                self.state.succeed(ticket, part, entry.offset);
                self.journal.push(Event::Success { ticket, answer });
                Settled::Succeeded
            }
            Outcome::Bad(code) => {
                let delays = self.state.setup.settings.delays.as_slice();
                let ready_at = ready_after(delays, attempt, self.state.clock);
                self.state.fail(ticket, part, entry.offset, ready_at);
                self.journal.push(Event::Failure {
                    ticket,
                    code,
                    ready_at,
                });
                Settled::Failed { ready_at }
            }
        }
    }

    // The state of a part that is assigned with this commit.
    fn resumed(&self, part: u32, stored: &StoredCommit) -> Result<PartitionState, EngineFault>
        requires known { has_log (given_of T.outcome self.now) part ≡ true }
        requires small { stored.now.position < 2 ^ 63 }
        ensures state { IfOk result (λ state. StandsFor state.window stored.now.position 0
            (resumed_marks stored.now (records_of (given_of T.outcome self.now) part))) }
        ensures read { OnOk result (map_refusal self.now.setup.settings.bad_map stored.now ≡ None) }
        ensures fault { IfErr result (λ e. (e ≡ NoMemory) ⊎ ((f : MapFault) × (e ≡ BadMap f) ×
            (map_refusal self.now.setup.settings.bad_map stored.now ≡ Some f))) }
    {
        let Some(log) = self.state.logs.log(part) else {
            unreachable!();
        };
        Ok(resume(self.alloc, log, stored, self.state.setup.settings.bad_map)?)
    }

    // The commit of a held part in its present state.
    fn commit_of(&self, part: u32) -> Result<SizedCommit, AllocError>
        requires held { is_held self.now.journal.events part ≡ true }
        requires known { has_log (given_of T.outcome self.now) part ≡ true }
        ensures commit { IfOk result (λ c. c ≡ commit_of (given_of T.outcome self.now) self.now.journal.events part) }
        ensures position { IfOk result (λ c. c.commit.position < 2 ^ 63) }
        ensures map { IfOk result (λ c. length c.commit.map ≤ self.now.setup.settings.map_limit) }
    {
        let Some(held) = self.state.held(part) else {
            unreachable!();
        };
        commit_of(
            self.alloc,
            &held.window,
            self.state.setup.settings.map_limit,
        )
    }

    // Refuses where the engine has ended.
    pub(crate) fn runs(&self) -> Result<(), EngineFault>
        ensures runs { OnOk result (has_ended self.now.journal.events ≡ false) }
        ensures ended { IfErr result (λ e. e ≡ Closed × has_ended self.now.journal.events ≡ true) }
    {
        if self.state.ledger.ended {
            return Err(EngineFault::Closed);
        }
        Ok(())
    }

    // Refuses where the engine drains.
    pub(crate) fn flows(&self) -> Result<(), EngineFault>
        ensures flows { OnOk result (is_draining self.now.journal.events ≡ false) }
        ensures drains { IfErr result (λ e. e ≡ Draining × is_draining self.now.journal.events ≡ true) }
    {
        if self.state.ledger.drains {
            return Err(EngineFault::Draining);
        }
        Ok(())
    }

    // What is known of a part with a log.
    pub(crate) fn part(&self, part: u32) -> Result<&PartState<'a>, EngineFault>
        ensures knows { IfOk result (λ state. has_log (given_of T.outcome self.now) part ≡ true
            × PartKeeps (given_of T.outcome self.now) self.now.journal.events part state.now) }
        ensures unknown { IfErr result (λ e. e ≡ UnknownPart × has_log (given_of T.outcome self.now) part ≡ false) }
    {
        match self.state.part(part) {
            Some(state) => Ok(state),
            None => Err(EngineFault::UnknownPart),
        }
    }

    // Why an assignment of the part is refused before the link is asked.
    fn may_assign(&self, part: u32) -> Result<(), EngineFault>
        ensures { result ≡ refused_by (assign_refusal (given_of T.outcome self.now) self.now.journal.events part) }
    {
        self.runs()?;
        let state = self.part(part)?;
        self.flows()?;
        if state.held.is_some() {
            return Err(EngineFault::AlreadyHeld);
        }
        self.has_room(1)
    }

    // Why a commit of the part is refused before the link is asked.
    fn may_commit(&self, part: u32) -> Result<(), EngineFault>
        ensures { result ≡ refused_by (commit_refusal (given_of T.outcome self.now) self.now.journal.events part) }
    {
        self.runs()?;
        if self.part(part)?.held.is_none() {
            return Err(EngineFault::NotHeld);
        }
        self.has_room(1)
    }

    // Why a poll of the part is refused, whatever is left of it.
    fn may_poll(&self, part: u32) -> Result<(), EngineFault>
        ensures { result ≡ refused_by (poll_refusal (given_of T.outcome self.now) self.now.journal.events part) }
    {
        self.runs()?;
        if self.part(part)?.held.is_none() {
            return Err(EngineFault::NotHeld);
        }
        self.flows()
    }

    // Whether this many more events are within the limit, at most 2.
    pub(crate) fn has_room(&self, more: u64) -> Result<(), EngineFault>
        requires { more ≤ 2 }
        ensures { result ≡ (if is_full self.now.journal.events more
            then Err EngineFault.JournalFull else Ok tt) }
    {
        if self.journal.len() + self.state.outstanding() + more <= MAX_EVENTS {
            Ok(())
        } else {
            Err(EngineFault::JournalFull)
        }
    }
}

/// Why a commit failed, unless it ran out of memory.
fn lasting(fault: ClientFault) -> Result<ClientFault, AllocError>
    ensures lasts { IfOk result (λ f. (f ≡ fault) × (fault ≡ Forgot → ⊥)) }
    ensures memory { OnErr result (fault ≡ Forgot) }
{
    match fault {
        ClientFault::NoMemory => Err(AllocError),
        fault => Ok(fault),
    }
}

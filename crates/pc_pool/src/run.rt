//! What the workers share: a run, which one of them at a time takes on. Clauses see its engine, the
//! link at its start, its steps, its workers, and how far it is.

ghost use Rattle.std.specs.Prelude.{◌≤◌, ◌+◌, length};
ghost use Rattle.pc_model.specs.Jobs.{open_jobs};
ghost use Rattle.pc_model.specs.Lawful.{IsLegal};
ghost use Rattle.pc_engine.specs.Engine.{given_of};

use crate::ending::Ending;
use crate::jobs::counted;
use crate::report::Report;
use pc_engine::Engine;
use pc_mailbox::{Inbox, Mailbox};
use pc_model::limits::MAX_EVENTS;
use pc_script::Steps;
use pc_state_lock::Shown;
use pc_task::{Finished, Task};
use pc_world::Link;
use std::alloc::Global;
use std::marker::Model;
use std::snapshot::Snapshot;

/// What keeps a link as it was at the start of a run, for clauses alone.
pub(crate) trait Origin<L> {
    /// The link at the start.
    ghost link: { Self → L };
}

impl<L> Origin<L> for Snapshot<L> {
    ghost link = { λ s. s.value };
}

/// A run of these steps.
#[derive(Drop)]
pub(crate) struct Run<'m, 'a, L: Link, T: Task, O: Origin<L>> {
    pub(crate) alloc: Global,
    pub(crate) engine: Engine<'a, L, T>,
    pub(crate) mail: &'m Mailbox<Finished<'a, T>>,
    pub(crate) inbox: Inbox<Finished<'a, T>>,
    pub(crate) steps: &'m Steps,
    /// How many of the steps are used up.
    pub(crate) used: u64,
    /// How many workers there are.
    pub(crate) workers: u32,
    /// How many results the mailbox handed back, which were then settled.
    pub(crate) returned: u64,
    /// Why the run ended, if it did.
    pub(crate) ended: Option<Ending>,
    /// The link at the start. Its type is a parameter, so that a run is known to cross threads.
    pub(crate) origin: O,
}

impl<'m, 'a, L: Link, T: Task, O: Origin<L>> Model for Run<'m, 'a, L, T, O> {
    ghost use Rattle.pc_pool.specs.Run.{CountsResults, IsConsuming, RunView, heading_by};

    ghost Value = { RunView L T };

    ghost view = { λ r. record {
      engine = r.engine;
      entry = O.link r.origin;
      steps = r.steps.now;
      workers = r.workers;
      used = r.used;
      ended = r.ended;
    } };

    ghost invariant = { λ r. IsConsuming
        (heading_by T.outcome L.store L.faults r.engine (O.link r.origin) r.steps.now r.workers)
        (L.is_told r.engine.link) r.engine.journal.events (L.store r.engine.link)
        (L.faults r.engine.link) r.used r.ended
        × CountsResults r.mail.now r.inbox r.returned r.engine.journal.events };
}

impl<L: Link, T: Task, O: Origin<L>> Shown for Run<'_, '_, L, T, O> {
    ghost use Rattle.pc_pool.specs.Run.{heading_of};

    ghost heading = { heading_of T.outcome L.store L.faults };

    ghost history = { λ r. r.engine.journal.events };

    fn events(&self) -> u64 {
        self.engine.events()
    }
}

/// The history of an engine is legal, which its type keeps.
pub(crate) fn legal<L: Link, T: Task>(engine: &Engine<'_, L, T>)
    ensures legal { IsLegal (given_of T.outcome engine.now) engine.now.journal.events }
    ensures limit { length engine.now.journal.events
        + length (open_jobs engine.now.journal.events) ≤ MAX_EVENTS }
{
    let _journal = engine.journal();
}

impl<'m, 'a, L: Link, T: Task, O: Origin<L> + Drop> Run<'m, 'a, L, T, O> {
    ghost use Rattle.std.specs.Prelude.{◌≡◌, is_some, replicate, true};
    ghost use Rattle.pc_pool.specs.Report.{IsReport};
    ghost use Rattle.pc_pool.specs.Run.{heading_of};

    /// The run, which has ended for want of memory if it did not end.
    pub(crate) fn without_memory(mut self) -> Run<'m, 'a, L, T, O>
        ensures heading { heading_of T.outcome L.store L.faults result
            ≡ heading_of T.outcome L.store L.faults self.entry }
        ensures ended { is_some result.ended ≡ true }
    {
        if self.ended.is_none() {
            self.ended = Some(Ending::NoMemory);
        }
        self
    }

    /// What the run ended with. The jobs of its workers are counted in the place of as many zeros.
    pub(crate) fn report(self, zeros: Vec<u64>) -> Report<'a, L, T>
        requires ended { is_some self.ended ≡ true }
        requires zeros { zeros.items ≡ replicate self.workers 0 }
        ensures report { IsReport (heading_of T.outcome L.store L.faults self.entry)
            (L.is_told result.link) result.journal.events result.inbox result.returned
            (L.store result.link) (L.faults result.link) result.ended result.jobs.items }
        ensures told { L.is_told result.link ≡ L.is_told self.entry.engine.link }
    {
        let Run {
            alloc: _,
            engine,
            mail: _,
            inbox,
            steps: _,
            used: _,
            workers,
            returned,
            ended,
            origin: _,
        } = self;
        let (journal, link) = engine.into_parts();
        let jobs = counted(&journal, workers, zeros);
        Report {
            journal,
            inbox: Some(inbox),
            jobs,
            returned,
            link,
            ended: ended.unwrap(),
        }
    }
}

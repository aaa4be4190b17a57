//! A worker's turn at the run.

ghost use Rattle.std.specs.Prelude.{◌≡◌, ◌<◌, ◌≤◌, ◌+◌, ◌∷◌, false, length};
ghost use Rattle.pc_model.specs.Jobs.{has_ended, open_jobs};
ghost use Rattle.pc_model.specs.Lawful.{IsLegal};
ghost use Rattle.pc_task.specs.Results.{finished_job};
ghost use Rattle.pc_engine.specs.Effect.{settle_event};
ghost use Rattle.pc_engine.specs.Engine.{Expects, Keeps, given_of};
ghost use Rattle.pc_pool.specs.declared.turn.Progress.TheVariants.{Idle};
ghost use Rattle.pc_pool.specs.Run.{GoesFrom, IsIdle, IsTakeRefusal, heading_of, take_ending};

use crate::ending::Ending;
use crate::run::{Origin, Run, legal};
use pc_engine::{Engine, EngineFault};
use pc_model::limits::MAX_EVENTS;
use pc_run_laws::events_are_bounded;
use pc_task::{Finished, Job, Task};
use pc_world::{Clock, Link};
use std::sync::Wait;

/// What a worker does after its turn.
pub(crate) enum Next<'a, T: Task> {
    /// It calls the function of this job.
    Work(Job<'a, T>),
    /// There is no job: it rests.
    Rest,
    /// The run has ended.
    End,
}

/// What came of an action of the run.
#[derive(Clone, Copy, Debug, PartialEq, Eq)]
pub(crate) enum Progress {
    /// Another action may apply.
    Went,
    /// None applies.
    Idle,
    /// The run has ended.
    Ended,
}

impl<'a, L: Link, T: Task + Drop, O: Origin<L>> Run<'_, 'a, L, T, O> {
    /// A turn of a worker: settles the result that the mailbox handed back to it, makes control turns
    /// until none applies, before each of them the steps that are due, and then takes a job. It
    /// changes nothing once the run has ended.
    pub(crate) fn turn<R: Wait, C: Clock>(
        &mut self,
        rt: &R,
        clock: &C,
        worker: u32,
        back: Option<Finished<'a, T>>,
    ) -> Next<'a, T>
        requires { worker < self.old.workers }
        ensures { GoesFrom T.outcome L.store L.faults self.old self.new }
    {
        self.settle_handed(back);
        for _ in rt.forever() {
            match self.advance(rt, clock.now()) {
                Progress::Went => (),
                Progress::Idle => return self.take(worker),
                Progress::Ended => return Next::End,
            }
        }
        unreachable!()
    }

    /// Ends the run, for which there is no memory.
    pub(crate) fn give_up(&mut self)
        ensures { GoesFrom T.outcome L.store L.faults self.old self.new }
    {
        if self.ended.is_none() {
            self.ended = Some(Ending::NoMemory);
        }
    }

    /// Settles the result that the mailbox handed back, if there is one.
    fn settle_handed(&mut self, back: Option<Finished<'a, T>>)
        ensures { GoesFrom T.outcome L.store L.faults self.old self.new }
    {
        match back {
            Some(done) => self.settle_back(done),
            None => (),
        }
    }

    /// Settles a result that the mailbox handed back, if the run goes on and its engine expects it.
    fn settle_back(&mut self, done: Finished<'a, T>)
        ensures { GoesFrom T.outcome L.store L.faults self.old self.new }
    {
        if self.ended.is_some() || !self.engine.expects(&done) {
            return;
        }
        settle_expected(&mut self.engine, done);
        self.returned += 1;
    }

    /// Applies the steps that are due and makes a control turn.
    fn advance<R: Wait>(&mut self, rt: &R, now: u64) -> Progress
        ensures from { GoesFrom T.outcome L.store L.faults self.old self.new }
        ensures idle { result ≡ Idle → IsIdle (heading_of T.outcome L.store L.faults self.new)
            self.new.engine.journal.events self.new.used self.new.ended }
    {
        self.apply_due();
        if self.ended.is_some() {
            return Progress::Ended;
        }
        self.control(rt, now)
    }

    /// Takes a job.
    fn take(&mut self, worker: u32) -> Next<'a, T>
        requires worker { worker < self.old.workers }
        requires idle { IsIdle (heading_of T.outcome L.store L.faults self.old)
            self.old.engine.journal.events self.old.used self.old.ended }
        ensures { GoesFrom T.outcome L.store L.faults self.old self.new }
    {
        events_are_bounded();
        let taken = self.engine.take(worker);
        legal(&self.engine);
        match taken {
            Ok(Some(job)) => Next::Work(job),
            Ok(None) => Next::Rest,
            Err(fault) => {
                self.ended = Some(refused(fault));
                Next::End
            }
        }
    }
}

/// Why no job was taken, as an ending.
fn refused(fault: EngineFault) -> Ending
    requires { IsTakeRefusal fault }
    ensures { result ≡ take_ending fault }
{
    match fault {
        EngineFault::JournalFull => Ending::JournalFull,
        EngineFault::NoMemory => Ending::NoMemory,
        _ => unreachable!(),
    }
}

/// Settles a result that the engine expects.
fn settle_expected<'a, L: Link, T: Task>(engine: &mut Engine<'a, L, T>, done: Finished<'a, T>)
    requires goes_on { has_ended engine.old.journal.events ≡ false }
    requires expected { Expects T.outcome T.same engine.old done }
    ensures event { engine.new.journal.events
        ≡ settle_event (given_of T.outcome engine.old) engine.old.journal.events
        (finished_job done.entry) done.entry.outcome ∷ engine.old.journal.events }
    ensures keeps { Keeps T.outcome engine.old engine.new }
    ensures legal { IsLegal (given_of T.outcome engine.new) engine.new.journal.events }
    ensures limit { length engine.new.journal.events
        + length (open_jobs engine.new.journal.events) ≤ MAX_EVENTS }
{
    let _settled = engine.settle(done);
    legal(engine);
}

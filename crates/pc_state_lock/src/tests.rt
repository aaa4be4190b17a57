//! That threads take turns, and that each turn's event is in the list once.

ghost use Rattle.std.specs.Prelude.{◌≡◌};
ghost use Rattle.std.specs.Thread.{IsSync};
ghost use Rattle.pc_state_lock.specs.History.{Continues};
ghost use Rattle.pc_state_lock.specs.Passes.{IsPassOf, IsAtRest};

use crate::{Pass, Shown, StateLock};
use pc_model::{Event, Journal, Setup};
use std::alloc::{AllocError, Global};
use std::sync::Wait;
use std::test::Fail;
use std::thread::{Threads, join_mut};

/// A journal of ticks, whose heading has a setup that is lent.
#[derive(Drop)]
pub(crate) struct Ticks<'a> {
    setup: &'a Setup,
    journal: Journal,
}

impl Shown for Ticks<'_> {
    ghost use Rattle.std.specs.Prelude.{[], false};
    ghost use Rattle.pc_model.specs.Outcomes.{outcome_of};

    ghost heading = { λ t. record {
      given = record {
        setup = t.setup.now;
        logs = [];
        start = [];
        is_told = false;
        outcome = outcome_of t.setup.now.settings.rules;
      };
      store = record { topic = []; parts = 0; commits = []; memberships = [] };
      steps = [];
      workers = 0;
      faults = 0;
    } };

    ghost history = { λ t. t.journal.events };

    fn events(&self) -> u64 {
        self.journal.len()
    }
}

impl<'a> Ticks<'a> {
    fn new(alloc: Global, setup: &'a Setup) -> Ticks<'a> {
        let journal = Journal::new(alloc);
        Ticks { setup, journal }
    }

    /// Adds a tick, where there is memory for it.
    fn add(&mut self, now: u64)
        ensures setup { self.new.setup ≡ self.old.setup }
        ensures events { Continues self.new.journal.events self.old.journal.events }
    {
        if self.journal.reserve(1).is_ok() {
            self.journal.push(Event::Tick { now });
        }
    }

    /// Returns how many of the events are this tick.
    fn count(&self, number: u64) -> usize {
        self.journal
            .as_slice()
            .iter()
            .filter(|event| matches!(event, Event::Tick { now } if *now == number))
            .count()
    }
}

/// What a thread works with.
#[derive(Drop)]
struct Worker<'l, 'a> {
    lock: &'l StateLock<Ticks<'a>>,
    pass: Pass<Ticks<'a>>,
    number: u64,
    ghost ready: { IsPassOf lock.now pass × IsAtRest pass },
}

/// Takes this many turns, each of which adds one tick.
fn take_turns<'a, R: Wait>(
    rt: &R,
    lock: &StateLock<Ticks<'a>>,
    pass: &mut Pass<Ticks<'a>>,
    number: u64,
    turns: u64,
)
    requires pass { IsPassOf lock.now pass.old }
    requires rests { IsAtRest pass.old }
    ensures pass { IsPassOf lock.now pass.new }
    ensures rests { IsAtRest pass.new }
{
    for _ in 0..turns {
        let mut held = lock.turn(rt, pass);
        held.value().add(number);
        lock.lay(pass, held);
    }
}

impl Worker<'_, '_> {
    fn work(&mut self, rt: &impl Wait) {
        take_turns(rt, self.lock, &mut self.pass, self.number, 500);
    }
}

/// Makes sixteen workers, with passes that are split from this one.
fn hire<'l, 'a>(
    alloc: Global,
    lock: &'l StateLock<Ticks<'a>>,
    pass: &mut Pass<Ticks<'a>>,
) -> Result<Vec<Worker<'l, 'a>>, AllocError>
    requires pass { IsPassOf lock.now pass.old }
    requires rests { IsAtRest pass.old }
    ensures pass { IsPassOf lock.now pass.new }
    ensures rests { IsAtRest pass.new }
{
    let mut workers = Vec::new(alloc);
    for number in 0..16 {
        let pass = lock.split(pass);
        workers.push(Worker { lock, pass, number })?;
    }
    Ok(workers)
}

/// Lets each worker take its turns, in a thread of its own.
fn run<R: Threads + Wait + Sync>(rt: &R, workers: &mut [Worker<'_, '_>]) {
    if let [worker] = workers {
        return worker.work(rt);
    }
    if workers.is_empty() {
        return;
    }
    let (left, right) = workers.split_at_mut(workers.len() / 2);
    join_mut(
        rt,
        &mut ||
            requires { IsSync R.row }
        { run(rt, left) },
        &mut ||
            requires { IsSync R.row }
        { run(rt, right) },
    );
}

#[test]
fn two_passes_take_turns(rt: HostRuntime) -> Result<(), Fail> {
    let setup = Setup::with_defaults(rt.alloc())?;
    let Ok((lock, mut pass)) = StateLock::new(rt.alloc(), Ticks::new(rt.alloc(), &setup)) else {
        return Err(AllocError.into());
    };
    let mut other = lock.split(&mut pass);
    join_mut(
        &rt,
        &mut || take_turns(&rt, &lock, &mut pass, 1, 1000),
        &mut || take_turns(&rt, &lock, &mut other, 2, 1000),
    );
    lock.join(&mut pass, other);
    let ticks = lock.close(&rt, pass);
    assert_eq!(rt; ticks.events(), 2000);
    assert_eq!(rt; ticks.count(1), 1000);
    assert_eq!(rt; ticks.count(2), 1000);
    Ok(())
}

#[test]
fn sixteen_threads_take_turns(rt: HostRuntime) -> Result<(), Fail> {
    let setup = Setup::with_defaults(rt.alloc())?;
    let Ok((lock, mut pass)) = StateLock::new(rt.alloc(), Ticks::new(rt.alloc(), &setup)) else {
        return Err(AllocError.into());
    };
    let mut workers = hire(rt.alloc(), &lock, &mut pass)?;
    run(&rt, workers.as_mut_slice());
    drop(workers);
    let ticks = lock.close(&rt, pass);
    assert_eq!(rt; ticks.events(), 8000);
    for number in 0..16 {
        assert_eq!(rt; ticks.count(number), 500, "tick {number}");
    }
    Ok(())
}

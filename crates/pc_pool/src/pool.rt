//! A run from its start to its end.

ghost use Rattle.std.specs.Prelude.{◌≡◌, ◌≤◌, ◌<◌, ℕ, [], All, IfOk, None, is_some, length, slice_get, true, vec_len};
ghost use Rattle.std.specs.Option.{option_flatten};
ghost use Rattle.pc_script.specs.Steps.{AreAllowed};
ghost use Rattle.pc_offset_client.specs.Client.{kept_for};
ghost use Rattle.pc_engine.specs.Engine.{given_by};
ghost use Rattle.pc_state_lock.specs.Passes.{IsAtRest, IsPassOf};
ghost use Rattle.pc_pool.specs.declared.ending.Ending.TheVariants.{NoMemory};
ghost use Rattle.pc_pool.specs.Report.{IsReport};
ghost use Rattle.pc_pool.specs.Run.{IsFresh, heading_of, workers_of};

use crate::ending::Ending;
use crate::report::Report;
use crate::run::{Origin, Run};
use crate::worker::{Worker, work_all};
use pc_broker_log::BrokerLogs;
use pc_engine::Engine;
use pc_mailbox::{Mailbox, Sender};
use pc_model::{Journal, Setup};
use pc_script::Steps;
use pc_state_lock::{Pass, StateLock};
use pc_task::{Finished, Task};
use pc_world::{Clock, Link};
use std::alloc::{AllocError, Global};
use std::snapshot::Snapshot;
use std::sync::Wait;
use std::thread::Threads;

/// Runs the logs by the steps of a script, with so many workers, and reports how it ended. Each worker
/// has a thread of its own; where no thread can be made, the workers run one after the other. It may
/// wait.
///
/// There are 1 to 256 workers, each part below `parts` of the logs has a log, and the steps were read
/// for so many parts.
pub fn consume<
    'a,
    R: Threads + Wait + Sync,
    L: Link + Send + Drop,
    C: Clock + Sync,
    T: Task + Sync + Drop,
>(
    rt: &R,
    alloc: Global,
    setup: &'a Setup,
    logs: &'a BrokerLogs<'a>,
    steps: &Steps,
    link: L,
    clock: &C,
    task: &'a T,
    workers: u32,
) -> Report<'a, L, T>
    requires some { 0 < workers }
    requires few { workers ≤ 256 }
    requires allowed { AreAllowed (length logs.now) [] steps.now }
    requires logged { (p : ℕ) → p < length logs.now
        → is_some (option_flatten (slice_get logs.now p)) ≡ true }
    ensures report { IsReport (record {
      given = given_by setup.now logs.now [] (L.is_told link) (T.outcome task.now)
          (kept_for (L.store link));
      store = L.store link;
      steps = steps.now;
      workers = workers;
      faults = L.faults link;
    })
        (L.is_told result.link) result.journal.events result.inbox result.returned
        (L.store result.link) (L.faults result.link) result.ended result.jobs.items }
{
    let origin = Snapshot::of(&link);
    let engine = match Engine::with_task(alloc, setup, logs, task, link) {
        Ok(engine) => engine,
        Err(link) => return unstarted(alloc, link),
    };
    let Ok(zeros) = vec![in alloc; 0; workers as usize] else {
        return unstarted(alloc, engine.into_parts().1);
    };
    let Ok((mail, senders, inbox)) = Mailbox::new(alloc, workers) else {
        return unstarted(alloc, engine.into_parts().1);
    };
    let run = Run {
        alloc,
        engine,
        mail: &mail,
        inbox,
        steps,
        used: 0,
        workers,
        returned: 0,
        ended: None,
        origin,
    };
    run_all(rt, alloc, run, &mail, senders, clock).report(zeros)
}

/// Lets the workers of a run work, each with one of these senders, until it has ended.
fn run_all<
    'm,
    'a,
    R: Threads + Wait + Sync,
    L: Link + Send + Drop,
    C: Clock + Sync,
    T: Task + Sync + Drop,
    O: Origin<L> + Send + Drop,
>(
    rt: &R,
    alloc: Global,
    run: Run<'m, 'a, L, T, O>,
    mail: &'m Mailbox<Finished<'a, T>>,
    senders: Vec<Sender<Finished<'a, T>>>,
    clock: &C,
) -> Run<'m, 'a, L, T, O>
    requires senders { All (λ s. IsFresh mail.now s) senders.items }
    requires each { vec_len senders ≡ run.workers }
    ensures heading { heading_of T.outcome L.store L.faults result
        ≡ heading_of T.outcome L.store L.faults run.entry }
    ensures ended { is_some result.ended ≡ true }
{
    let workers = run.workers;
    let (lock, mut pass) = match StateLock::new(alloc, run) {
        Ok(made) => made,
        Err(run) => return run.without_memory(),
    };
    if let Ok(mut hired) = hire(alloc, &lock, &mut pass, mail, senders, clock, workers) {
        work_all(rt, hired.as_mut_slice());
    }
    lock.close(rt, pass).without_memory()
}

/// Makes the workers, one for each of the senders, with a pass that is split from this one.
fn hire<'l, 'm, 'a, L: Link, C: Clock, T: Task + Drop, O: Origin<L>>(
    alloc: Global,
    lock: &'l StateLock<Run<'m, 'a, L, T, O>>,
    pass: &mut Pass<Run<'m, 'a, L, T, O>>,
    mail: &'m Mailbox<Finished<'a, T>>,
    mut senders: Vec<Sender<Finished<'a, T>>>,
    clock: &'l C,
    workers: u32,
) -> Result<Vec<Worker<'l, 'm, 'a, L, T, O, C>>, AllocError>
    requires pass { IsPassOf lock.now pass.old }
    requires rests { IsAtRest pass.old }
    requires senders { All (λ s. IsFresh mail.now s) senders.items }
    requires each { vec_len senders ≡ workers }
    requires few { workers ≤ workers_of lock.now }
    ensures hired { IfOk result (λ hired. vec_len hired ≡ workers) }
    ensures pass { IsPassOf lock.now pass.new }
    ensures rests { IsAtRest pass.new }
{
    let mut hired = Vec::with_capacity(alloc, workers as usize)?;
    for number in 0..workers {
        let Some(sender) = senders.pop() else {
            unreachable!();
        };
        let pass = lock.split(pass);
        hired.push_reserved(Worker {
            alloc,
            lock,
            pass,
            mail,
            sender,
            puts: 0,
            clock,
            number,
        });
    }
    Ok(hired)
}

/// What is reported where memory ran out before the first turn.
fn unstarted<'a, L: Link, T: Task>(alloc: Global, link: L) -> Report<'a, L, T>
    ensures empty { result.journal.events ≡ [] }
    ensures inbox { (result.inbox ≡ None) × (result.returned ≡ 0) }
    ensures jobs { result.jobs.items ≡ [] }
    ensures link { result.link ≡ link }
    ensures ended { result.ended ≡ NoMemory }
{
    Report {
        journal: Journal::new(alloc),
        inbox: None,
        jobs: Vec::new(alloc),
        returned: 0,
        link,
        ended: Ending::NoMemory,
    }
}

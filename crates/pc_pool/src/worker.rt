//! A worker: it takes turns at the run, and calls the function outside of them.

ghost use Rattle.std.specs.Prelude.{◌≡◌, ◌<◌, ◌≤◌, ◌^◌, length, IfErr, OnErr};
ghost use Rattle.std.specs.Thread.{IsSend, IsSync};
ghost use Rattle.pc_state_lock.specs.Passes.{IsAtRest, IsPassOf};
ghost use Rattle.pc_pool.specs.Run.{workers_of};

use crate::run::{Origin, Run};
use crate::turn::Next;
use pc_mailbox::{Mailbox, Sender};
use pc_state_lock::{Pass, Shown, StateLock};
use pc_task::{Finished, Job, Task};
use pc_world::{Clock, Link};
use std::alloc::{AllocError, Global};
use std::sync::Wait;
use std::thread::{Threads, join_mut};

/// How many results a sender of a mailbox may put.
const MAX_PUTS: u64 = 1 << 40;

/// One of the workers of a run.
#[derive(Drop)]
pub(crate) struct Worker<'l, 'm, 'a, L: Link, T: Task, O: Origin<L>, C: Clock> {
    pub(crate) alloc: Global,
    pub(crate) lock: &'l StateLock<Run<'m, 'a, L, T, O>>,
    pub(crate) pass: Pass<Run<'m, 'a, L, T, O>>,
    pub(crate) mail: &'m Mailbox<Finished<'a, T>>,
    pub(crate) sender: Sender<Finished<'a, T>>,
    /// How many results it put.
    pub(crate) puts: u64,
    pub(crate) clock: &'l C,
    pub(crate) number: u32,
    pub(crate) ghost ready: { IsPassOf lock.now pass × IsAtRest pass },
    pub(crate) ghost asked: { number < workers_of lock.now },
    pub(crate) ghost own: { sender.mailbox ≡ mail.now },
    pub(crate) ghost counted: { length sender.put ≤ puts },
    pub(crate) ghost few: { puts ≤ 2 ^ 40 },
}

impl<'a, L: Link, T: Task + Drop, O: Origin<L>, C: Clock> Worker<'_, '_, 'a, L, T, O, C> {
    /// Works until the run has ended.
    fn work<R: Wait>(&mut self, rt: &R) {
        let mut back = None;
        for _ in rt.forever() {
            match self.turn(rt, back) {
                Next::Work(job) => match self.result_of(job) {
                    Ok(done) => back = self.put(rt, done),
                    Err(_) => return self.give_up(rt),
                },
                Next::Rest => {
                    back = None;
                    self.clock.rest(1);
                }
                Next::End => return,
            }
        }
    }

    /// Takes a turn at the run, in which a result that the mailbox handed back is settled first.
    fn turn<R: Wait>(&mut self, rt: &R, back: Option<Finished<'a, T>>) -> Next<'a, T> {
        let mut held = self.lock.turn(rt, &mut self.pass);
        let next = held.value().turn(rt, self.clock, self.number, back);
        self.lock.lay(&mut self.pass, held);
        next
    }

    /// Ends the run, for which there is no memory.
    fn give_up<R: Wait>(&mut self, rt: &R) {
        let mut held = self.lock.turn(rt, &mut self.pass);
        held.value().give_up();
        self.lock.lay(&mut self.pass, held);
    }

    /// Calls the job's function.
    fn result_of(&self, job: Job<'a, T>) -> Result<Finished<'a, T>, AllocError> {
        match job.task.call(self.alloc, &job) {
            Ok(outcome) => Ok(job.finish(outcome)),
            Err(error) => {
                job.abandon();
                Err(error)
            }
        }
    }

    /// Puts a result into the mailbox, and returns it where there is no memory for that.
    fn put<R: Wait>(&mut self, rt: &R, done: Finished<'a, T>) -> Option<Finished<'a, T>> {
        if self.puts == MAX_PUTS {
            return Some(done);
        }
        match self.mail.put(rt, &mut self.sender, done) {
            Ok(()) => {
                self.puts += 1;
                None
            }
            Err(done) => Some(done),
        }
    }
}

/// Lets the workers work, each in a thread of its own. Where no thread can be made, they work one
/// after the other.
pub(crate) fn work_all<
    R: Threads + Wait + Sync,
    L: Link + Send,
    T: Task + Sync + Drop,
    O: Origin<L> + Send,
    C: Clock + Sync,
>(rt: &R, workers: &mut [Worker<'_, '_, '_, L, T, O, C>]) {
    if let [worker] = workers {
        return worker.work(rt);
    }
    if workers.is_empty() {
        return;
    }
    let (left, right) = workers.split_at_mut(workers.len() / 2);
    join_mut(
        rt,
        &mut ||
            requires { IsSync R.row × IsSend L.row × IsSync T.row × IsSend O.row × IsSync C.row }
        { work_all(rt, left) },
        &mut ||
            requires { IsSync R.row × IsSend L.row × IsSync T.row × IsSend O.row × IsSync C.row }
        { work_all(rt, right) },
    );
}

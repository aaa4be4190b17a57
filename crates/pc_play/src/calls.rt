//! The calls of the engine, one for each line of a script, and what is to be remarked of each.

ghost use Rattle.std.specs.Prelude.{◌≡◌, ◌≤◌, ◌<◌, ◌++◌, ℕ, List, true, IfOk, MatchResult, OnErr, Some, Ok, Err};
ghost use Rattle.pc_model.specs.Given.{has_log};
ghost use Rattle.pc_script.specs.PlayScript.{IsPlayable};
ghost use Rattle.pc_script.specs.declared.play.PlayAct.TheVariants.{Assign, Commit, Poll, Take, End, Tick, Revoke, Lose, Crash, Drain, Done, Close};
ghost use Rattle.pc_task.specs.Jobs.{PlainJob, plain_job};
ghost use Rattle.pc_engine.specs.declared.fault.EngineFault.TheVariants.{NoMemory};
ghost use Rattle.pc_state.specs.Calls.{IsExpected};
ghost use Rattle.pc_engine.specs.Effect.{StoresOnly};
ghost use Rattle.pc_play.specs.declared.hand.Hand.{Hand};
ghost use Rattle.pc_play.specs.declared.remark.Notice.TheVariants.{Refused};
ghost use Rattle.pc_play.specs.Play.{given_by_rules, Calls, call_notice, end_job, moment, poll_notice, settled_notice};

use crate::hand::Hand;
use crate::remark::Notice;
use pc_engine::{Engine, EngineFault, Settled};
use pc_script::PlayAct;
use pc_task::{Job, RuleTask, Task};
use pc_world::Link;
use std::alloc::{AllocError, Global};

/// Makes the call that a line asks for, and returns what is to be remarked of it. Fails when out of
/// memory.
pub(crate) fn call<'a, L: Link>(
    alloc: Global,
    engine: &mut Engine<'a, L>,
    hand: &mut Hand<'a>,
    act: PlayAct,
) -> Result<Option<Notice>, AllocError>
    requires { IsPlayable act }
    ensures effect { Calls (L.is_told engine.old.link) (given_by_rules engine.old) engine.old.journal.events
        act
        (moment (L.store engine.old.link) (L.faults engine.old.link))
        (moment (L.store engine.new.link) (L.faults engine.new.link))
        engine.new.journal.events hand.old hand.new result }
    ensures keeps { L.is_told engine.old.link ≡ true → StoresOnly (has_log (given_by_rules engine.old))
        (L.store engine.old.link) (L.store engine.new.link) }
    ensures given { (given_by_rules engine.new) ≡ (given_by_rules engine.old) }
    ensures told { L.is_told engine.new.link ≡ L.is_told engine.old.link }
    ensures count { L.faults engine.old.link ≤ L.faults engine.new.link }
{
    match act {
        PlayAct::Assign(part) => assign(engine, part),
        PlayAct::Commit(part) => commit(engine, part),
        PlayAct::Poll { part, max } => poll(engine, part, max),
        PlayAct::Take(worker) => take(engine, hand, worker),
        PlayAct::End(ticket) => end(alloc, engine, hand, ticket),
        PlayAct::Tick(now) => tick(engine, now),
        PlayAct::Revoke(part) => revoke(engine, part),
        PlayAct::Lose(part) => lose(engine, part),
        PlayAct::Crash => crash(engine),
        PlayAct::Drain => drain(engine),
        PlayAct::Done => done(engine),
        PlayAct::Close => close(engine),
    }
}

/// Assigns a part.
fn assign<L: Link>(engine: &mut Engine<'_, L>, part: u32) -> Result<Option<Notice>, AllocError>
    ensures effect { (hand : Hand) → Calls (L.is_told engine.old.link) (given_by_rules engine.old)
        engine.old.journal.events (Assign part)
        (moment (L.store engine.old.link) (L.faults engine.old.link))
        (moment (L.store engine.new.link) (L.faults engine.new.link))
        engine.new.journal.events hand hand result }
    ensures keeps { L.is_told engine.old.link ≡ true → StoresOnly (has_log (given_by_rules engine.old))
        (L.store engine.old.link) (L.store engine.new.link) }
    ensures given { (given_by_rules engine.new) ≡ (given_by_rules engine.old) }
    ensures told { L.is_told engine.new.link ≡ L.is_told engine.old.link }
    ensures count { L.faults engine.old.link ≤ L.faults engine.new.link }
{
    match engine.assign(part) {
        Ok(()) => Ok(None),
        Err(fault) => refused(fault),
    }
}

/// Commits a part.
fn commit<L: Link>(engine: &mut Engine<'_, L>, part: u32) -> Result<Option<Notice>, AllocError>
    ensures effect { (hand : Hand) → Calls (L.is_told engine.old.link) (given_by_rules engine.old)
        engine.old.journal.events (Commit part)
        (moment (L.store engine.old.link) (L.faults engine.old.link))
        (moment (L.store engine.new.link) (L.faults engine.new.link))
        engine.new.journal.events hand hand result }
    ensures keeps { L.is_told engine.old.link ≡ true → StoresOnly (has_log (given_by_rules engine.old))
        (L.store engine.old.link) (L.store engine.new.link) }
    ensures given { (given_by_rules engine.new) ≡ (given_by_rules engine.old) }
    ensures told { L.is_told engine.new.link ≡ L.is_told engine.old.link }
    ensures count { L.faults engine.old.link ≤ L.faults engine.new.link }
{
    match engine.commit(part) {
        Ok(_) => Ok(None),
        Err(fault) => refused(fault),
    }
}

/// Polls the next records of a part.
fn poll<L: Link>(
    engine: &mut Engine<'_, L>,
    part: u32,
    max: u32,
) -> Result<Option<Notice>, AllocError>
    requires { IsPlayable (Poll part max) }
    ensures effect { (hand : Hand) → Calls (L.is_told engine.old.link) (given_by_rules engine.old)
        engine.old.journal.events (Poll part max)
        (moment (L.store engine.old.link) (L.faults engine.old.link))
        (moment (L.store engine.new.link) (L.faults engine.new.link))
        engine.new.journal.events hand hand result }
    ensures given { (given_by_rules engine.new) ≡ (given_by_rules engine.old) }
    ensures link { engine.new.link ≡ engine.old.link }
{
    match engine.poll(part, max) {
        Ok(count) => Ok(polled(count)),
        Err(fault) => refused(fault),
    }
}

/// What is to be remarked of a poll of this many records.
fn polled(count: u32) -> Option<Notice>
    ensures { result ≡ poll_notice (Ok count) }
{
    if count == 0 {
        Some(Notice::AtEnd)
    } else {
        None
    }
}

/// Takes a job into hand.
fn take<'a, L: Link>(
    engine: &mut Engine<'a, L>,
    hand: &mut Hand<'a>,
    worker: u32,
) -> Result<Option<Notice>, AllocError>
    requires { worker < 256 }
    ensures effect { Calls (L.is_told engine.old.link) (given_by_rules engine.old) engine.old.journal.events
        (Take worker)
        (moment (L.store engine.old.link) (L.faults engine.old.link))
        (moment (L.store engine.new.link) (L.faults engine.new.link))
        engine.new.journal.events hand.old hand.new result }
    ensures given { (given_by_rules engine.new) ≡ (given_by_rules engine.old) }
    ensures link { engine.new.link ≡ engine.old.link }
{
    match engine.take(worker) {
        Ok(Some(job)) => {
            hand.add(job)?;
            Ok(None)
        }
        Ok(None) => Ok(Some(Notice::NoJob)),
        Err(fault) => refused(fault),
    }
}

/// Ends the job in hand with a ticket.
fn end<'a, L: Link>(
    alloc: Global,
    engine: &mut Engine<'a, L>,
    hand: &mut Hand<'a>,
    ticket: u64,
) -> Result<Option<Notice>, AllocError>
    ensures effect { Calls (L.is_told engine.old.link) (given_by_rules engine.old) engine.old.journal.events
        (End ticket)
        (moment (L.store engine.old.link) (L.faults engine.old.link))
        (moment (L.store engine.new.link) (L.faults engine.new.link))
        engine.new.journal.events hand.old hand.new result }
    ensures given { (given_by_rules engine.new) ≡ (given_by_rules engine.old) }
    ensures link { engine.new.link ≡ engine.old.link }
{
    match hand.remove(ticket) {
        Some(job) => settle(alloc, engine, job),
        None => Ok(Some(Notice::Stranger)),
    }
}

/// Settles a job with the outcome that its rules give.
fn settle<'a, L: Link>(
    alloc: Global,
    engine: &mut Engine<'a, L>,
    job: Job<'a>,
) -> Result<Option<Notice>, AllocError>
    ensures settles { IfOk result (λ notice. (others : List PlainJob)
        → IsExpected (given_by_rules engine.old) engine.old.journal.events (plain_job job.entry)
        → let step = end_job (given_by_rules engine.old) engine.old.journal.events others
        (plain_job job.entry) in
        (engine.new.journal.events ≡ step.events ++ engine.old.journal.events)
        × (notice ≡ step.notice)) }
    ensures stays { OnErr result (engine.new.journal.events ≡ engine.old.journal.events) }
    ensures given { (given_by_rules engine.new) ≡ (given_by_rules engine.old) }
    ensures link { engine.new.link ≡ engine.old.link }
{
    match RuleTask.call(alloc, &job) {
        Ok(outcome) => Ok(settled(engine.settle(job.finish(outcome)))),
        Err(error) => {
            job.abandon();
            Err(error)
        }
    }
}

/// What is to be remarked of a result that was settled, or not.
fn settled(settled: Settled<'_>) -> Option<Notice>
    ensures { result ≡ settled_notice settled.entry }
{
    match settled {
        Settled::Closed(_) => Some(Notice::Refused(EngineFault::Closed)),
        Settled::Stranger(_) => Some(Notice::Stranger),
        Settled::Stale | Settled::Succeeded | Settled::Failed { .. } => None,
    }
}

/// Moves the clock on.
fn tick<L: Link>(engine: &mut Engine<'_, L>, now: u64) -> Result<Option<Notice>, AllocError>
    ensures effect { (hand : Hand) → Calls (L.is_told engine.old.link) (given_by_rules engine.old)
        engine.old.journal.events (Tick now)
        (moment (L.store engine.old.link) (L.faults engine.old.link))
        (moment (L.store engine.new.link) (L.faults engine.new.link))
        engine.new.journal.events hand hand result }
    ensures given { (given_by_rules engine.new) ≡ (given_by_rules engine.old) }
    ensures link { engine.new.link ≡ engine.old.link }
{
    match engine.tick(now) {
        Ok(true) => Ok(None),
        Ok(false) => Ok(Some(Notice::OldTime)),
        Err(fault) => refused(fault),
    }
}

/// Gives a part back. Where its commit failed, the events say so.
fn revoke<L: Link>(engine: &mut Engine<'_, L>, part: u32) -> Result<Option<Notice>, AllocError>
    ensures effect { (hand : Hand) → Calls (L.is_told engine.old.link) (given_by_rules engine.old)
        engine.old.journal.events (Revoke part)
        (moment (L.store engine.old.link) (L.faults engine.old.link))
        (moment (L.store engine.new.link) (L.faults engine.new.link))
        engine.new.journal.events hand hand result }
    ensures keeps { L.is_told engine.old.link ≡ true → StoresOnly (has_log (given_by_rules engine.old))
        (L.store engine.old.link) (L.store engine.new.link) }
    ensures given { (given_by_rules engine.new) ≡ (given_by_rules engine.old) }
    ensures told { L.is_told engine.new.link ≡ L.is_told engine.old.link }
    ensures count { L.faults engine.old.link ≤ L.faults engine.new.link }
{
    match engine.revoke(part) {
        Ok(_) => Ok(None),
        Err(fault) => refused(fault),
    }
}

/// Loses a part.
fn lose<L: Link>(engine: &mut Engine<'_, L>, part: u32) -> Result<Option<Notice>, AllocError>
    ensures effect { (hand : Hand) → Calls (L.is_told engine.old.link) (given_by_rules engine.old)
        engine.old.journal.events (Lose part)
        (moment (L.store engine.old.link) (L.faults engine.old.link))
        (moment (L.store engine.new.link) (L.faults engine.new.link))
        engine.new.journal.events hand hand result }
    ensures given { (given_by_rules engine.new) ≡ (given_by_rules engine.old) }
    ensures link { engine.new.link ≡ engine.old.link }
{
    answered(engine.lose(part))
}

/// Lets the engine crash. The jobs in hand stay there.
fn crash<L: Link>(engine: &mut Engine<'_, L>) -> Result<Option<Notice>, AllocError>
    ensures effect { (hand : Hand) → Calls (L.is_told engine.old.link) (given_by_rules engine.old)
        engine.old.journal.events Crash
        (moment (L.store engine.old.link) (L.faults engine.old.link))
        (moment (L.store engine.new.link) (L.faults engine.new.link))
        engine.new.journal.events hand hand result }
    ensures given { (given_by_rules engine.new) ≡ (given_by_rules engine.old) }
    ensures link { engine.new.link ≡ engine.old.link }
{
    answered(engine.crash())
}

/// Begins a drain.
fn drain<L: Link>(engine: &mut Engine<'_, L>) -> Result<Option<Notice>, AllocError>
    ensures effect { (hand : Hand) → Calls (L.is_told engine.old.link) (given_by_rules engine.old)
        engine.old.journal.events Drain
        (moment (L.store engine.old.link) (L.faults engine.old.link))
        (moment (L.store engine.new.link) (L.faults engine.new.link))
        engine.new.journal.events hand hand result }
    ensures given { (given_by_rules engine.new) ≡ (given_by_rules engine.old) }
    ensures link { engine.new.link ≡ engine.old.link }
{
    answered(engine.begin_drain())
}

/// Ends the engine, where all is done. The jobs in hand stay there.
fn done<L: Link>(engine: &mut Engine<'_, L>) -> Result<Option<Notice>, AllocError>
    ensures effect { (hand : Hand) → Calls (L.is_told engine.old.link) (given_by_rules engine.old)
        engine.old.journal.events Done
        (moment (L.store engine.old.link) (L.faults engine.old.link))
        (moment (L.store engine.new.link) (L.faults engine.new.link))
        engine.new.journal.events hand hand result }
    ensures given { (given_by_rules engine.new) ≡ (given_by_rules engine.old) }
    ensures link { engine.new.link ≡ engine.old.link }
{
    answered(engine.finish())
}

/// Closes the engine, whatever is left. The jobs in hand stay there.
fn close<L: Link>(engine: &mut Engine<'_, L>) -> Result<Option<Notice>, AllocError>
    ensures effect { (hand : Hand) → Calls (L.is_told engine.old.link) (given_by_rules engine.old)
        engine.old.journal.events Close
        (moment (L.store engine.old.link) (L.faults engine.old.link))
        (moment (L.store engine.new.link) (L.faults engine.new.link))
        engine.new.journal.events hand hand result }
    ensures given { (given_by_rules engine.new) ≡ (given_by_rules engine.old) }
    ensures link { engine.new.link ≡ engine.old.link }
{
    answered(engine.close())
}

/// What is to be remarked of a call that only returns whether it was refused.
fn answered(answer: Result<(), EngineFault>) -> Result<Option<Notice>, AllocError>
    ensures { MatchResult result
        (λ notice. (answer ≡ Err NoMemory → ⊥) × (notice ≡ call_notice answer))
        (λ _. answer ≡ Err NoMemory) }
{
    match answer {
        Ok(()) => Ok(None),
        Err(fault) => refused(fault),
    }
}

/// A refusal, which is to be remarked unless it is out of memory.
fn refused(fault: EngineFault) -> Result<Option<Notice>, AllocError>
    ensures { MatchResult result
        (λ notice. (fault ≡ NoMemory → ⊥) × (notice ≡ Some (Refused fault)))
        (λ _. fault ≡ NoMemory) }
{
    match fault {
        EngineFault::NoMemory => Err(AllocError),
        fault => Ok(Some(Notice::Refused(fault))),
    }
}

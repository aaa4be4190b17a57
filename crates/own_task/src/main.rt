//! own_task: a user of the core who brings a function of their own. docs/LIBRARY.md walks through it.
#![tactic(auto)]

ghost use Rattle.std.specs.Prelude.{◌≡◌, ◌==◌, IfOk, position};
ghost use Rattle.own_task.specs.Doubled.{number_in};
ghost use Rattle.own_task.specs.Consume.{IsConsumed, given_in, given_to};

use anyhow::{anyhow, bail};
use pc_broker_log::BrokerLogs;
use pc_cursor::Log;
use pc_engine::{Engine, EngineFault, Settled};
use pc_lines::decimal;
use pc_model::{Answer, Journal, Outcome, Setup, limits};
use pc_offset_client::TOPIC;
use pc_offset_store::OffsetBroker;
use pc_print::put_event;
use pc_task::{Job, Task};
use std::alloc::{AllocError, Global};

/// The one part.
const PART: u32 = 0;

/// One batch of five records: `tea=21`, `egg=0`, `rice`, `soup=18446744073709551615`, `stew=500`.
const LOG: &[u8] = b"\0\0\0\0\0\0\0\0\0\0\0\x89\0\0\0\0\x02\xef\x80\xd5>\
\0\0\0\0\0\x04\0\0\0\0\0\0\0\0\0\0\0\0\0\0\0\0\
\xff\xff\xff\xff\xff\xff\xff\xff\xff\xff\xff\xff\xff\xff\0\0\0\x05\
\x1a\0\0\0\x02a\x0ctea=21\0\x18\0\0\x02\x02b\x0aegg=0\0\x16\0\0\x04\x02a\x08rice\0\
@\0\0\x06\x02b2soup=18446744073709551615\0\x1e\0\0\x08\x02a\x10stew=500\0";

/// The code of a failure: the value does not read.
const UNREADABLE: u32 = 2;

/// Answers the doubled number as a decimal. A value that does not read fails at the first attempt,
/// and a later one answers `unread`.
#[derive(Clone, Copy, Debug, Drop)]
pub struct Doubled;

impl Task for Doubled {
    ghost use Rattle.std.specs.Prelude.{true};
    ghost use Rattle.own_task.specs.Doubled.{outcome_of};

    ghost outcome = { λ _. outcome_of };

    ghost same = { λ _ _. true };

    fn call(&self, alloc: Global, job: &Job<'_, Doubled>) -> Result<Outcome, AllocError> {
        match job.entry.value.and_then(number) {
            Some(n) => {
                let text = format!(in alloc; "{}", 2 * u128::from(n))?;
                Ok(Outcome::Good(Answer::from_slice(alloc, text.as_bytes())?))
            },
            None if job.attempt <= 1 => Ok(Outcome::Bad(UNREADABLE)),
            None => Ok(Outcome::Good(Answer::from_slice(alloc, b"unread")?)),
        }
    }

    fn is_same(&self, _other: &Doubled) -> bool {
        true
    }
}

/// The number after the first `=`, if it is a decimal below 2^64.
#[tactic(auto, unfolding(pc_lines::specs::Decimal::number_of))]
fn number(value: &[u8]) -> Option<u64>
    ensures { result ≡ number_in value.now }
{
    let at = place_of_sign(value)?;
    decimal(&value[at + 1..]).ok()
}

/// Where the first `=` stands.
fn place_of_sign(value: &[u8]) -> Option<usize>
    ensures { result ≡ position (λ b. b == 61) value.now }
{
    value.iter().position(|byte| *byte == b'=')
}

fn main(rt: HostRuntime) -> anyhow::Result<()> {
    let mut logs = BrokerLogs::new(rt.alloc());
    let log = Log::check(rt.alloc(), LOG)?;
    logs.add(PART, log)?;
    let setup = Setup::with_defaults(rt.alloc())?;
    let link = OffsetBroker::new(rt.alloc(), TOPIC, PART + 1)?;
    let Ok((end, journal, _)) = consume(rt.alloc(), &setup, &logs, link) else {
        bail!("out of memory");
    };
    let mut text = Vec::new(rt.alloc());
    for event in journal.as_slice() {
        put_event(&mut text, event)?;
    }
    print!(rt; "{}", String::from_utf8(text)?)?;
    end.map_err(|fault| anyhow!("stopped: {fault:?}"))
}

/// Runs `Doubled` on the records of the part and commits them, or stops where a call is refused.
fn consume(
    alloc: Global,
    setup: &Setup,
    logs: &BrokerLogs<'_>,
    link: OffsetBroker,
) -> Result<(Result<(), EngineFault>, Journal, OffsetBroker), OffsetBroker>
    ensures { IfOk result (λ left. IsConsumed (given_to setup.now logs.now link) left.2 left.1.events) }
{
    let mut engine = Engine::with_task(alloc, setup, logs, &Doubled, link)?;
    let end = work(alloc, &mut engine);
    let (journal, link) = engine.into_parts();
    Ok((end, journal, link))
}

/// Assigns the part, works until no record is left and none waits for its next attempt, and commits.
fn work(alloc: Global, engine: &mut Engine<'_, OffsetBroker, Doubled>) -> Result<(), EngineFault>
    ensures { given_in engine.new ≡ given_in engine.old }
{
    engine.assign(PART)?;
    let mut ready_at = 0;
    // Each round but the last adds an event, and a journal has no more than these.
    for _ in 0..limits::MAX_EVENTS {
        match engine.take(0)? {
            Some(job) => ready_at = ready_at.max(work_on(alloc, engine, job)?),
            None => {
                if engine.poll(PART, limits::MAX_RECORDS)? == 0 && !engine.tick(ready_at)? {
                    break;
                }
            }
        }
    }
    engine.commit(PART)?;
    Ok(())
}

/// Runs the function and settles the result. Returns when the record may run again, or 0.
fn work_on<'a>(
    alloc: Global,
    engine: &mut Engine<'a, OffsetBroker, Doubled>,
    job: Job<'a, Doubled>,
) -> Result<u64, AllocError>
    ensures { given_in engine.new ≡ given_in engine.old }
{
    match job.task.call(alloc, &job) {
        Ok(outcome) => match engine.settle(job.finish(outcome)) {
            Settled::Failed { ready_at } => Ok(ready_at),
            _ => Ok(0),
        },
        Err(error) => {
            job.abandon();
            Err(error)
        }
    }
}

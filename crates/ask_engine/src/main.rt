//! ask_engine RECORDS ROUNDS: an engine over made-up logs polls all of their records and has some
//! out, and is then asked everything that a run asks, ROUNDS times. `bench/questions` measures it.
#![tactic(auto)]

use anyhow::bail;
use pc_batch_writer::{Generated, generate};
use pc_broker_log::BrokerLogs;
use pc_cursor::Log;
use pc_engine::{Engine, EngineFault};
use pc_lines::decimal;
use pc_model::Setup;
use pc_model::limits::MAX_RECORDS;
use pc_offset_client::TOPIC;
use pc_offset_store::OffsetBroker;
use std::alloc::Global;
use std::env;

/// The parts of the made-up logs.
const PARTS: u32 = 8;

/// How many jobs are out.
const OUT: u32 = 100;

/// The engine of this program.
type Core<'a> = Engine<'a, OffsetBroker>;

fn main(rt: HostRuntime) -> anyhow::Result<()> {
    let (records, rounds) = numbers(&rt)?;
    let made = generate(rt.alloc(), 7, records)?;
    let logs = checked(rt.alloc(), &made)?;
    let setup = Setup::with_defaults(rt.alloc())?;
    let link = OffsetBroker::new(rt.alloc(), TOPIC, PARTS)?;
    match asked(rt.alloc(), &setup, &logs, link, rounds) {
        Ok(answers) => Ok(println!(rt; "{answers}")?),
        Err(fault) => bail!("stopped: {fault:?}"),
    }
}

/// The two numbers after the program's name.
fn numbers(rt: &HostRuntime) -> anyhow::Result<(u32, u32)> {
    let mut words = env::args(rt)?.skip(1);
    let (Some(records), Some(rounds)) = (words.next(), words.next()) else {
        bail!("ask_engine RECORDS ROUNDS");
    };
    let (Ok(records), Ok(rounds)) = (decimal(records.as_bytes()), decimal(rounds.as_bytes())) else {
        bail!("no decimal");
    };
    Ok((u32::try_from(records)?, u32::try_from(rounds)?))
}

/// The logs of all parts.
fn checked(alloc: Global, made: &Generated) -> anyhow::Result<BrokerLogs<'_>> {
    let mut logs = BrokerLogs::new(alloc);
    for (part, bytes) in (0..PARTS).zip(made.logs.iter()) {
        let log = Log::check(alloc, bytes)?;
        logs.add(part, log)?;
    }
    Ok(logs)
}

/// Fills an engine, and counts the questions that it answers with yes or with a number.
fn asked(
    alloc: Global,
    setup: &Setup,
    logs: &BrokerLogs<'_>,
    link: OffsetBroker,
    rounds: u32,
) -> Result<u64, EngineFault> {
    let Ok(mut engine) = Engine::start(alloc, setup, logs, link) else {
        return Err(EngineFault::NoMemory);
    };
    let filled = fill(&mut engine);
    let answers = ask(&engine, rounds);
    let (_journal, _link) = engine.into_parts();
    filled.map(|_| answers)
}

/// Assigns and polls all parts, and takes some jobs, which stay out.
fn fill(engine: &mut Core<'_>) -> Result<(), EngineFault> {
    for part in 0..PARTS {
        engine.assign(part)?;
        engine.poll(part, MAX_RECORDS)?;
    }
    for _ in 0..OUT {
        if let Some(job) = engine.take(0)? {
            job.abandon();
        }
    }
    Ok(())
}

/// Asks all questions of all parts, `rounds` times.
fn ask(engine: &Core<'_>, rounds: u32) -> u64 {
    let mut answers = 0u64;
    for round in 0..rounds {
        answers = answers.wrapping_add(answers_of(engine, round % PARTS));
    }
    answers
}

/// What is asked of a part and of the engine.
fn answers_of(engine: &Core<'_>, part: u32) -> u64 {
    u64::from(engine.poll_open(part).is_some())
        + u64::from(engine.commit_due(part))
        + u64::from(engine.unsaved(part))
        + u64::from(engine.held(part))
        + u64::from(engine.failures(part, 0))
        + u64::from(engine.next_time().is_some())
        + u64::from(engine.at_rest())
        + u64::from(engine.successes() == 0)
        + u64::from(engine.outstanding() == u64::from(OUT))
}

//! Each question to an engine, along a run of three records of which the first fails once.

use crate::records_tests::{REPLIES, THREE_RECORDS, one_log, some_result};
use crate::tests::Scripted;
use crate::{Engine, Settled};
use pc_broker_log::BrokerLogs;
use pc_model::{
    BadMapRule, Delays, FailRule, FailRules, Journal, Order, Rules, Settings, Setup, Starts, Work,
};
use std::alloc::{AllocError, Global};
use std::process::Abort;
use std::test::Fail;

/// What an engine answers, of part 0 and its record 0 where one is asked for.
#[derive(Clone, Copy, Debug, PartialEq, Eq)]
struct Answers {
    events: u64,
    outstanding: u64,
    successes: u64,
    poll_open: Option<u32>,
    commit_due: bool,
    unsaved: bool,
    next_time: Option<u64>,
    at_rest: bool,
    failures: u32,
}

fn asked(engine: &Engine<'_, Scripted>) -> Answers {
    Answers {
        events: engine.events(),
        outstanding: engine.outstanding(),
        successes: engine.successes(),
        poll_open: engine.poll_open(0),
        commit_due: engine.commit_due(0),
        unsaved: engine.unsaved(0),
        next_time: engine.next_time(),
        at_rest: engine.at_rest(),
        failures: engine.failures(0, 0),
    }
}

/// Before the first event.
const NOTHING: Answers = Answers {
    events: 0,
    outstanding: 0,
    successes: 0,
    poll_open: None,
    commit_due: false,
    unsaved: false,
    next_time: None,
    at_rest: true,
    failures: 0,
};

/// Polls of at most 2 records, and commits after 2 successes; record 0 fails once, and waits 100 ms.
fn setup_of(alloc: Global) -> Result<Setup, Fail> {
    let rule = FailRule {
        part: 0,
        offset: 0,
        times: 1,
    };
    Ok(Setup::new(Settings {
        order: Order::None,
        rules: Rules {
            work: Work::Length,
            fails: FailRules::from_slice(alloc, &[rule])?,
        },
        map_limit: 4_096,
        press_percent: 75,
        delays: Delays::from_slice(alloc, &[100])?,
        give_up: 10,
        buffer: 5_000,
        poll_max: 2,
        commit_every: 2,
        bad_map: BadMapRule::Redo,
        starts: Starts::from_slice(alloc, &[])?,
    })?)
}

/// The part is assigned and polled to its end.
fn poll_all(rt: &impl Abort, engine: &mut Engine<'_, Scripted>) -> Result<(), Fail> {
    assert_eq!(rt; asked(engine), NOTHING);
    engine.assign(0)?;
    let begun = Answers {
        events: 1,
        poll_open: Some(2),
        at_rest: false,
        ..NOTHING
    };
    assert_eq!(rt; asked(engine), begun);
    assert_eq!(rt; engine.poll(0, 2), Ok(2));
    assert_eq!(rt; asked(engine), Answers { events: 2, ..begun });
    assert_eq!(rt; engine.poll(0, 2), Ok(1));
    let polled = Answers {
        events: 3,
        at_rest: false,
        ..NOTHING
    };
    assert_eq!(rt; asked(engine), polled);
    Ok(())
}

/// The first record fails, and the others succeed and are committed.
fn settle_all(
    rt: &impl Abort,
    alloc: Global,
    engine: &mut Engine<'_, Scripted>,
) -> Result<(), Fail> {
    let first = some_result(alloc, engine)?;
    let second = some_result(alloc, engine)?;
    let third = some_result(alloc, engine)?;
    let taken = Answers {
        events: 6,
        outstanding: 3,
        at_rest: false,
        ..NOTHING
    };
    assert_eq!(rt; asked(engine), taken);
    assert!(rt; matches!(engine.settle(first), Settled::Failed { .. }));
    assert!(rt; matches!(engine.settle(second), Settled::Succeeded));
    assert!(rt; matches!(engine.settle(third), Settled::Succeeded));
    let settled = Answers {
        events: 9,
        successes: 2,
        commit_due: true,
        unsaved: true,
        next_time: Some(100),
        at_rest: false,
        failures: 1,
        ..NOTHING
    };
    assert_eq!(rt; asked(engine), settled);
    engine.commit(0)?;
    let saved = Answers {
        events: 10,
        commit_due: false,
        unsaved: false,
        ..settled
    };
    assert_eq!(rt; asked(engine), saved);
    Ok(())
}

/// The first record is free again, and succeeds.
fn settle_the_first(
    rt: &impl Abort,
    alloc: Global,
    engine: &mut Engine<'_, Scripted>,
) -> Result<(), Fail> {
    assert_eq!(rt; engine.tick(100), Ok(true));
    let free = Answers {
        events: 11,
        successes: 2,
        at_rest: false,
        failures: 1,
        ..NOTHING
    };
    assert_eq!(rt; asked(engine), free);
    let first = some_result(alloc, engine)?;
    assert!(rt; matches!(engine.settle(first), Settled::Succeeded));
    let rests = Answers {
        events: 13,
        successes: 3,
        unsaved: true,
        failures: 1,
        ..NOTHING
    };
    assert_eq!(rt; asked(engine), rests);
    Ok(())
}

/// All of it.
fn ask_along(
    rt: &impl Abort,
    alloc: Global,
    engine: &mut Engine<'_, Scripted>,
) -> Result<(), Fail> {
    poll_all(rt, engine)?;
    settle_all(rt, alloc, engine)?;
    settle_the_first(rt, alloc, engine)
}

/// What is left of that over these logs.
fn ask_over(
    rt: &impl Abort,
    alloc: Global,
    logs: &BrokerLogs<'_>,
) -> Result<(Result<(), Fail>, Journal), Fail> {
    let setup = setup_of(alloc)?;
    let link = Scripted {
        alloc,
        replies: &REPLIES,
        faults: 0,
    };
    let Ok(mut engine) = Engine::start(alloc, &setup, logs, link) else {
        return Err(Fail::from(AllocError));
    };
    let along = ask_along(rt, alloc, &mut engine);
    Ok((along, engine.into_parts().0))
}

#[test]
fn each_question_has_its_answer_along_a_run(rt: HostRuntime) -> Result<(), Fail> {
    let logs = one_log(rt.alloc(), &THREE_RECORDS)?;
    let (along, journal) = ask_over(&rt, rt.alloc(), &logs)?;
    along?;
    assert_eq!(rt; journal.len(), 13);
    Ok(())
}

//! Records through the engine: polled, taken, settled and committed.

use crate::tests::Scripted;
use crate::{Committed, Engine, EngineFault, Settled};
use pc_broker_log::BrokerLogs;
use pc_cursor::Log;
use pc_model::{Event, Journal, Setup};
use pc_task::{Finished, RuleTask, Task};
use std::alloc::{AllocError, Global};
use std::process::Abort;
use std::test::Fail;

// One batch with the records (0, "a", "x"), (1, "b", "yy") and (2, "a", "zzz").
pub(crate) const THREE_RECORDS: [u8; 91] = [
    0x00, 0x00, 0x00, 0x00, 0x00, 0x00, 0x00, 0x00, //
    0x00, 0x00, 0x00, 0x4F, 0x00, 0x00, 0x00, 0x00, 0x02, 0xD6, 0xFC, 0x11, 0xEE, //
    0x00, 0x00, 0x00, 0x00, 0x00, 0x02, //
    0x00, 0x00, 0x00, 0x00, 0x00, 0x00, 0x00, 0x00, //
    0x00, 0x00, 0x00, 0x00, 0x00, 0x00, 0x00, 0x00, //
    0xFF, 0xFF, 0xFF, 0xFF, 0xFF, 0xFF, 0xFF, 0xFF, //
    0xFF, 0xFF, 0xFF, 0xFF, 0xFF, 0xFF, 0x00, 0x00, 0x00, 0x03, //
    0x10, 0x00, 0x00, 0x00, 0x02, 0x61, 0x02, 0x78, 0x00, //
    0x12, 0x00, 0x00, 0x02, 0x02, 0x62, 0x04, 0x79, 0x79, 0x00, //
    0x14, 0x00, 0x00, 0x04, 0x02, 0x61, 0x06, 0x7A, 0x7A, 0x7A, 0x00,
];

/// Replies by their correlation ids: nothing is stored for part 0, and its commits are stored.
pub(crate) const REPLIES: [&[u8]; 3] = [
    b"\0\0\0\x21\0\0\0\x01\0\0\0\x01\0\x03log\0\0\0\x01\0\0\0\0\xff\xff\xff\xff\xff\xff\xff\xff\0\0\0\0",
    b"\0\0\0\x17\0\0\0\x02\0\0\0\x01\0\x03log\0\0\0\x01\0\0\0\0\0\0",
    b"\0\0\0\x17\0\0\0\x03\0\0\0\x01\0\x03log\0\0\0\x01\0\0\0\0\0\0",
];

/// The result of the next record, and its offset, if a record may be taken.
fn next_result<'a>(
    alloc: Global,
    engine: &mut Engine<'a, Scripted>,
) -> Result<Option<Finished<'a>>, AllocError> {
    let job = match engine.take(7) {
        Ok(Some(job)) => job,
        Ok(None) => return Ok(None),
        Err(_) => return Err(AllocError),
    };
    match RuleTask.call(alloc, &job) {
        Ok(outcome) => Ok(Some(job.finish(outcome))),
        Err(error) => {
            job.abandon();
            Err(error)
        }
    }
}

/// The result of the next record, which there has to be.
pub(crate) fn some_result<'a>(
    alloc: Global,
    engine: &mut Engine<'a, Scripted>,
) -> Result<Finished<'a>, AllocError> {
    next_result(alloc, engine)?.ok_or(AllocError)
}

/// The logs of one part.
pub(crate) fn one_log<'a>(alloc: Global, bytes: &'a [u8]) -> Result<BrokerLogs<'a>, Fail> {
    let mut logs = BrokerLogs::new(alloc);
    let log = Log::check(alloc, bytes)?;
    logs.add(0, log)?;
    Ok(logs)
}

/// The text of the last commit's map.
fn last_map<'b>(engine: &'b Engine<'_, Scripted>) -> Option<&'b str> {
    match engine.journal().as_slice().last()? {
        Event::Commit { map, .. } => Some(map.as_str()),
        _ => None,
    }
}

/// Three records are polled and taken, and the second is settled before the others.
fn settle_the_second_first(
    rt: &impl Abort,
    alloc: Global,
    engine: &mut Engine<'_, Scripted>,
) -> Result<(), Fail> {
    let polls = [
        engine.poll(0, 3),
        engine.assign(0).map(|()| 0),
        engine.poll(0, 2),
        engine.poll(0, 2),
        engine.poll(0, 2),
    ];
    let wanted = [Err(EngineFault::NotHeld), Ok(0), Ok(2), Ok(1), Ok(0)];
    assert_eq!(rt; polls, wanted);
    let first = some_result(alloc, engine)?;
    let second = some_result(alloc, engine)?;
    let third = some_result(alloc, engine)?;
    assert!(rt; next_result(alloc, engine)?.is_none());
    let again = second.copy(alloc)?;
    assert!(rt; matches!(engine.settle(second), Settled::Succeeded));
    assert!(rt; !engine.expects(&again));
    assert!(rt; matches!(engine.settle(again), Settled::Stranger(_)));
    let (position, size) = (0, 8);
    assert_eq!(rt; engine.commit(0), Ok(Committed { position, size }));
    assert_eq!(rt; last_map(engine), Some("bAACAg=="));
    engine.reserve(3)?;
    assert!(rt; matches!(engine.settle(first), Settled::Succeeded));
    assert!(rt; matches!(engine.settle(third), Settled::Succeeded));
    let (position, size) = (3, 0);
    assert_eq!(rt; engine.commit(0), Ok(Committed { position, size }));
    Ok(())
}

/// What is left of that over these logs.
fn journal_of_three(
    rt: &impl Abort,
    alloc: Global,
    logs: &BrokerLogs<'_>,
) -> Result<(Result<(), Fail>, Journal), AllocError> {
    let setup = Setup::with_defaults(alloc)?;
    let link = Scripted {
        alloc,
        replies: &REPLIES,
        faults: 0,
    };
    let Ok(mut engine) = Engine::start(alloc, &setup, logs, link) else {
        return Err(AllocError);
    };
    let settled = settle_the_second_first(rt, alloc, &mut engine);
    Ok((settled, engine.into_parts().0))
}

#[test]
fn a_later_success_stands_in_the_map(rt: HostRuntime) -> Result<(), Fail> {
    let logs = one_log(rt.alloc(), &THREE_RECORDS)?;
    let (settled, journal) = journal_of_three(&rt, rt.alloc(), &logs)?;
    settled?;
    assert_eq!(rt; journal.len(), 11);
    Ok(())
}

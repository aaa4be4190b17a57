//! That memory is found, which of the faults a step answers, at which part, and when a step is due.

use crate::{apply, assigned_parts, due, first_free};
use pc_broker_log::BrokerLogs;
use pc_cursor::Log;
use pc_engine::{Engine, EngineFault};
use pc_model::{Act, Event, Journal, Setup, Step};
use pc_offset_client::{ClientFault, TOPIC};
use pc_offset_store::OffsetBroker;
use pc_world::FailingLink;
use std::alloc::{AllocError, Global};
use std::test::Fail;

/// One batch with the records (0, "a", "x"), (1, "b", "yy") and (2, "a", "zzz").
const THREE_RECORDS: [u8; 91] = [
    // baseOffset, batchLength, partitionLeaderEpoch, magic, crc
    0x00, 0x00, 0x00, 0x00, 0x00, 0x00, 0x00, 0x00, //
    0x00, 0x00, 0x00, 0x4F, 0x00, 0x00, 0x00, 0x00, 0x02, 0xD6, 0xFC, 0x11, 0xEE, //
    // attributes, lastOffsetDelta, baseTimestamp, maxTimestamp
    0x00, 0x00, 0x00, 0x00, 0x00, 0x02, //
    0x00, 0x00, 0x00, 0x00, 0x00, 0x00, 0x00, 0x00, //
    0x00, 0x00, 0x00, 0x00, 0x00, 0x00, 0x00, 0x00, //
    // producerId, producerEpoch, baseSequence, recordsCount
    0xFF, 0xFF, 0xFF, 0xFF, 0xFF, 0xFF, 0xFF, 0xFF, //
    0xFF, 0xFF, 0xFF, 0xFF, 0xFF, 0xFF, 0x00, 0x00, 0x00, 0x03, //
    // the records
    0x10, 0x00, 0x00, 0x00, 0x02, 0x61, 0x02, 0x78, 0x00, //
    0x12, 0x00, 0x00, 0x02, 0x02, 0x62, 0x04, 0x79, 0x79, 0x00, //
    0x14, 0x00, 0x00, 0x04, 0x02, 0x61, 0x06, 0x7A, 0x7A, 0x7A, 0x00,
];

/// What an act answers, whether a step after one success is due then, and the first of the parts
/// that it was to assign which is not held then.
type Answer = (Result<(), EngineFault>, bool, Option<u32>);

/// Acts over two parts, and their answers: no record succeeds, and the run is at rest while part 0 is
/// not held. The link's seventh call fails, which is the fetch of part 1 after the first crash.
const ACTS: [(Act, Answer); 11] = [
    (Act::Revoke(0), (Err(EngineFault::NotHeld), true, None)),
    (Act::Assign(0), (Ok(()), false, None)),
    (Act::Assign(1), (Ok(()), false, None)),
    (Act::Revoke(0), (Ok(()), true, None)),
    (Act::Assign(0), (Ok(()), false, None)),
    (Act::Lose(1), (Ok(()), false, None)),
    (Act::Assign(1), (Ok(()), false, None)),
    (
        Act::Crash,
        (
            Err(EngineFault::Client(ClientFault::LinkFailed)),
            false,
            Some(1),
        ),
    ),
    (Act::Assign(1), (Ok(()), false, None)),
    (Act::Crash, (Ok(()), false, None)),
    (
        Act::Assign(2),
        (Err(EngineFault::UnknownPart), false, Some(2)),
    ),
];

/// Their events, each with its part.
const EVENTS: [(&str, u32); 13] = [
    ("assign", 0),
    ("assign", 1),
    ("commit", 0),
    ("revoke", 0),
    ("assign", 0),
    ("lost", 1),
    ("assign", 1),
    ("crash", 0),
    ("assign", 0),
    ("assign", 1),
    ("crash", 0),
    ("assign", 0),
    ("assign", 1),
];

/// The name of an event of these acts, and its part, or 0.
fn seen(event: &Event) -> (&'static str, u32) {
    match event {
        Event::Assign { part, .. } => ("assign", *part),
        Event::Commit { part, .. } => ("commit", *part),
        Event::Revoke { part, .. } => ("revoke", *part),
        Event::Lost { part, .. } => ("lost", *part),
        Event::Crash => ("crash", 0),
        _ => ("another", 0),
    }
}

/// The logs of parts 0 and 1, the second of which is empty.
fn two_logs<'a>(alloc: Global) -> Result<BrokerLogs<'a>, Fail> {
    let mut logs = BrokerLogs::new(alloc);
    let first = Log::check(alloc, &THREE_RECORDS)?;
    logs.add(0, first)?;
    let second = Log::check(alloc, b"")?;
    logs.add(1, second)?;
    Ok(logs)
}

/// A broker of two parts whose seventh call fails.
fn link(alloc: Global) -> Result<FailingLink<OffsetBroker>, AllocError> {
    let broker = OffsetBroker::new(alloc, TOPIC, 2)?;
    match FailingLink::new(alloc, broker, &[7], &[]) {
        Ok(link) => Ok(link),
        Err(_) => Err(AllocError),
    }
}

/// What an act answers.
fn answer(
    alloc: Global,
    engine: &mut Engine<'_, FailingLink<OffsetBroker>>,
    act: Act,
) -> Result<Answer, AllocError> {
    let step = Step { count: 1, act };
    let parts = assigned_parts(alloc, engine, act)?;
    let result = apply(alloc, engine, &step);
    Ok((
        result,
        due(engine, &step),
        first_free(engine, parts.as_slice()),
    ))
}

/// What the acts answer over these logs, and the journal that they leave.
fn answers(alloc: Global, logs: &BrokerLogs<'_>) -> Result<([Answer; 11], Journal), AllocError> {
    let setup = Setup::with_defaults(alloc)?;
    let Ok(mut engine) = Engine::start(alloc, &setup, logs, link(alloc)?) else {
        return Err(AllocError);
    };
    let mut answers = [(Ok(()), false, None); 11];
    for i in 0..11 {
        answers[i] = answer(alloc, &mut engine, ACTS[i].0)?;
    }
    Ok((answers, engine.into_parts().0))
}

#[test]
fn a_refusal_ends_a_step(rt: HostRuntime) -> Result<(), Fail> {
    let logs = two_logs(rt.alloc())?;
    let (answers, journal) = answers(rt.alloc(), &logs)?;
    for i in 0..11 {
        let (act, answer) = ACTS[i];
        assert_eq!(rt; answers[i], answer, "at {i}, {act:?}");
    }
    assert_eq!(rt; journal.len(), 13);
    for i in 0..13 {
        assert_eq!(rt; journal.get(i as u64).map(seen), Some(EVENTS[i]), "at {i}");
    }
    Ok(())
}

//! That memory is found, and that one and sixteen workers consume a log to its end.

ghost use Rattle.std.specs.Prelude.{◌≡◌, ◌≤◌, ◌<◌, [], ◌∷◌, List, Some, IfOk};
ghost use Rattle.pc_model.specs.Record.{Record};
ghost use Rattle.pc_script.specs.Steps.{AreAllowed};

use crate::{Ending, consume};
use pc_broker_log::BrokerLogs;
use pc_cursor::Log;
use pc_model::Setup;
use pc_offset_client::TOPIC;
use pc_offset_store::OffsetBroker;
use pc_script::{Steps, every_step_is_allowed, read_steps};
use pc_task::RuleTask;
use pc_world::StepClock;
use std::alloc::{AllocError, Global};
use std::sync::Wait;
use std::test::Fail;
use std::thread::Threads;

/// One batch with the records (0, "a", "x"), (1, "b", "yy") and (2, "a", "zzz").
const THREE_RECORDS: [u8; 91] = [
    // baseOffset, batchLength, partitionLeaderEpoch, magic, crc
    0x00, 0x00, 0x00, 0x00, 0x00, 0x00, 0x00, 0x00, //
    0x00, 0x00, 0x00, 0x4F, 0x00, 0x00, 0x00, 0x00, 0x02, 0xD6, 0xFC, 0x11, 0xEE, //
    // attributes, lastOffsetDelta, baseTimestamp, maxTimestamp
    0x00, 0x00, 0x00, 0x00, 0x00, 0x02, //
    0x00, 0x00, 0x00, 0x00, 0x00, 0x00, 0x00, 0x00, //
    0x00, 0x00, 0x00, 0x00, 0x00, 0x00, 0x00, 0x00, //
    // producerId, producerEpoch, baseSequence, recordsCount
    0xFF, 0xFF, 0xFF, 0xFF, 0xFF, 0xFF, 0xFF, 0xFF, //
    0xFF, 0xFF, 0xFF, 0xFF, 0xFF, 0xFF, 0x00, 0x00, 0x00, 0x03, //
    // the records
    0x10, 0x00, 0x00, 0x00, 0x02, 0x61, 0x02, 0x78, 0x00, //
    0x12, 0x00, 0x00, 0x02, 0x02, 0x62, 0x04, 0x79, 0x79, 0x00, //
    0x14, 0x00, 0x00, 0x04, 0x02, 0x61, 0x06, 0x7A, 0x7A, 0x7A, 0x00,
];

/// These logs have one part.
fn one_log<'a>(alloc: Global) -> Result<BrokerLogs<'a>, AllocError>
    ensures { IfOk result (λ logs. (rs : List Record) × (logs ≡ Some rs ∷ [])) }
{
    let mut logs = BrokerLogs::new(alloc);
    let Ok(log) = Log::check(alloc, &THREE_RECORDS) else {
        return Err(AllocError);
    };
    match logs.add(0, log) {
        Ok(()) => Ok(logs),
        Err(_) => Err(AllocError),
    }
}

/// The part is assigned at once.
fn one_step(alloc: Global) -> Result<Steps, AllocError>
    ensures { IfOk result (λ steps. AreAllowed 1 [] steps) }
{
    every_step_is_allowed();
    match read_steps(alloc, b"at 0 assign 0", 1) {
        Ok(steps) => Ok(steps),
        Err(_) => Err(AllocError),
    }
}

/// How so many workers end the log.
fn ending<R: Threads + Wait + Sync>(
    rt: &R,
    alloc: Global,
    setup: &Setup,
    logs: &BrokerLogs<'_>,
    steps: &Steps,
    workers: u32,
) -> Result<Ending, AllocError>
    requires some { 0 < workers }
    requires few { workers ≤ 256 }
    requires one { (rs : List Record) × (logs.now ≡ Some rs ∷ []) }
    requires allowed { AreAllowed 1 [] steps.now }
{
    let broker = OffsetBroker::new(alloc, TOPIC, 1)?;
    let clock = StepClock::new();
    let report = consume(
        rt, alloc, setup, logs, steps, broker, &clock, &RuleTask, workers,
    );
    Ok(report.ended)
}

#[test]
fn a_log_is_consumed(rt: HostRuntime) -> Result<(), Fail> {
    let setup = Setup::with_defaults(rt.alloc())?;
    let logs = one_log(rt.alloc())?;
    let steps = one_step(rt.alloc())?;
    let by_one = ending(&rt, rt.alloc(), &setup, &logs, &steps, 1)?;
    let by_many = ending(&rt, rt.alloc(), &setup, &logs, &steps, 16)?;
    assert_eq!(rt; by_one, Ending::Done);
    assert_eq!(rt; by_many, Ending::Done);
    Ok(())
}

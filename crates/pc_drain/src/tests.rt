//! What each turn of a run answers, and the events that it adds.

ghost use Rattle.std.specs.Prelude.{◌≡◌, [], All};

use crate::{Turn, control_turn};
use pc_broker_log::BrokerLogs;
use pc_cursor::Log;
use pc_engine::Engine;
use pc_mailbox::{Inbox, Mailbox, Sender};
use pc_model::{
    BadMapRule, Delays, Event, FailRule, FailRules, Journal, Order, Rules, Settings, Setup, Starts,
    Work,
};
use pc_offset_client::{ClientFault, TOPIC};
use pc_offset_store::OffsetBroker;
use pc_task::{Finished, RuleTask, Task};
use pc_world::FailingLink;
use std::alloc::{AllocError, Global};
use std::sync::Wait;
use std::test::Fail;

/// One batch with the records (0, "a", "x"), (1, "b", "yy") and (2, "a", "zzz").
const THREE_RECORDS: [u8; 91] = [
    // baseOffset, batchLength, partitionLeaderEpoch, magic, crc
    0x00, 0x00, 0x00, 0x00, 0x00, 0x00, 0x00, 0x00, //
    0x00, 0x00, 0x00, 0x4F, 0x00, 0x00, 0x00, 0x00, 0x02, 0xD6, 0xFC, 0x11, 0xEE, //
    // attributes, lastOffsetDelta, baseTimestamp, maxTimestamp
    0x00, 0x00, 0x00, 0x00, 0x00, 0x02, //
    0x00, 0x00, 0x00, 0x00, 0x00, 0x00, 0x00, 0x00, //
    0x00, 0x00, 0x00, 0x00, 0x00, 0x00, 0x00, 0x00, //
    // producerId, producerEpoch, baseSequence, recordsCount
    0xFF, 0xFF, 0xFF, 0xFF, 0xFF, 0xFF, 0xFF, 0xFF, //
    0xFF, 0xFF, 0xFF, 0xFF, 0xFF, 0xFF, 0x00, 0x00, 0x00, 0x03, //
    // the records
    0x10, 0x00, 0x00, 0x00, 0x02, 0x61, 0x02, 0x78, 0x00, //
    0x12, 0x00, 0x00, 0x02, 0x02, 0x62, 0x04, 0x79, 0x79, 0x00, //
    0x14, 0x00, 0x00, 0x04, 0x02, 0x61, 0x06, 0x7A, 0x7A, 0x7A, 0x00,
];

/// What is done in a row.
#[derive(Clone, Copy, Debug)]
enum Move {
    Assign,
    Lose,
    /// The next job is worked on, and its result put twice.
    Work,
    /// A control turn at this time, and whether the steps are used up.
    Turn(u64, bool),
}

/// Moves on the one part, what a turn answers, and how many events there are then. Record 1 fails
/// and has two attempts, and a commit is due after two successes. The link's calls 2 and 3 fail,
/// which are the first two commits.
const ROWS: [(Move, Option<Turn>, u64); 25] = [
    (Move::Turn(0, false), Some(Turn::Idle), 0),
    (Move::Assign, None, 1),
    (Move::Turn(0, false), Some(Turn::Went), 2),
    (Move::Turn(0, false), Some(Turn::Idle), 2),
    (Move::Work, None, 3),
    (Move::Turn(5, false), Some(Turn::Went), 4),
    (Move::Turn(5, false), Some(Turn::Went), 4),
    (Move::Work, None, 5),
    (Move::Turn(7, false), Some(Turn::Went), 7),
    (Move::Turn(9, false), Some(Turn::Went), 7),
    (Move::Work, None, 8),
    (Move::Turn(9, false), Some(Turn::Went), 9),
    (Move::Turn(9, false), Some(Turn::Went), 9),
    (Move::Turn(9, false), Some(Turn::Went), 10),
    (Move::Turn(9, true), Some(Turn::Idle), 10),
    (Move::Turn(107, true), Some(Turn::Went), 11),
    (Move::Work, None, 12),
    (Move::Turn(107, true), Some(Turn::Went), 13),
    (Move::Turn(107, true), Some(Turn::Went), 13),
    (Move::Turn(107, true), Some(Turn::Went), 14),
    (
        Move::Turn(107, true),
        Some(Turn::Client(ClientFault::LinkFailed)),
        15,
    ),
    (Move::Turn(107, true), Some(Turn::Went), 16),
    (
        Move::Turn(107, true),
        Some(Turn::Undrained {
            part: 0,
            offset: 1,
            failures: 2,
        }),
        16,
    ),
    (Move::Lose, None, 17),
    (Move::Turn(107, true), Some(Turn::Done), 18),
];

/// Their events.
const EVENTS: [&str; 18] = [
    "assign",
    "poll",
    "dispatch",
    "success",
    "dispatch",
    "tick",
    "failure",
    "dispatch",
    "success",
    "commit-failed",
    "tick",
    "dispatch",
    "failure",
    "drain",
    "commit-failed",
    "commit",
    "lost",
    "done",
];

/// The name of an event of these moves.
fn name(event: &Event) -> &'static str {
    match event {
        Event::Assign { .. } => "assign",
        Event::Poll { .. } => "poll",
        Event::Dispatch { .. } => "dispatch",
        Event::Success { .. } => "success",
        Event::Failure { .. } => "failure",
        Event::Commit { .. } => "commit",
        Event::CommitFailed { .. } => "commit-failed",
        Event::Lost { .. } => "lost",
        Event::Tick { .. } => "tick",
        Event::Drain => "drain",
        Event::Done => "done",
        _ => "another",
    }
}

/// The log of part 0.
fn one_log<'a>(alloc: Global) -> Result<BrokerLogs<'a>, Fail> {
    let mut logs = BrokerLogs::new(alloc);
    let log = Log::check(alloc, &THREE_RECORDS)?;
    logs.add(0, log)?;
    Ok(logs)
}

/// Record 1 fails at each attempt, a record has two, and a commit is due after two successes.
fn setup_of(alloc: Global) -> Result<Setup, Fail> {
    let rule = FailRule {
        part: 0,
        offset: 1,
        times: 9,
    };
    Ok(Setup::new(Settings {
        order: Order::None,
        rules: Rules {
            work: Work::Length,
            fails: FailRules::from_slice(alloc, &[rule])?,
        },
        map_limit: 4_096,
        press_percent: 75,
        delays: Delays::from_slice(alloc, &[100])?,
        give_up: 2,
        buffer: 5_000,
        poll_max: 500,
        commit_every: 2,
        bad_map: BadMapRule::Redo,
        starts: Starts::from_slice(alloc, &[])?,
    })?)
}

/// A broker of one part whose second and third call fail.
fn link(alloc: Global) -> Result<FailingLink<OffsetBroker>, AllocError> {
    let broker = OffsetBroker::new(alloc, TOPIC, 1)?;
    match FailingLink::new(alloc, broker, &[2, 3], &[]) {
        Ok(link) => Ok(link),
        Err(_) => Err(AllocError),
    }
}

/// Works on the next job, and puts its result twice.
fn work<'a, R: Wait>(
    rt: &R,
    alloc: Global,
    engine: &mut Engine<'a, FailingLink<OffsetBroker>>,
    mailbox: &Mailbox<Finished<'a>>,
    senders: &mut Vec<Sender<Finished<'a>>>,
) -> Result<(), AllocError>
    requires { All (λ s. (s.mailbox ≡ mailbox.now) × (s.put ≡ [])) senders.old.items }
    ensures { All (λ s. (s.mailbox ≡ mailbox.now) × (s.put ≡ [])) senders.new.items }
{
    let Some(mut sender) = senders.pop() else {
        return Err(AllocError);
    };
    let Ok(Some(job)) = engine.take(0) else {
        return Err(AllocError);
    };
    match RuleTask.call(alloc, &job) {
        Ok(outcome) => put_twice(rt, alloc, mailbox, &mut sender, job.finish(outcome)),
        Err(error) => {
            job.abandon();
            Err(error)
        }
    }
}

/// Puts a result and a copy of it.
fn put_twice<'a, R: Wait>(
    rt: &R,
    alloc: Global,
    mailbox: &Mailbox<Finished<'a>>,
    sender: &mut Sender<Finished<'a>>,
    done: Finished<'a>,
) -> Result<(), AllocError>
    requires own { sender.old.mailbox ≡ mailbox.now }
    requires fresh { sender.old.put ≡ [] }
{
    let copy = done.copy(alloc)?;
    if mailbox.put(rt, sender, done).is_err() || mailbox.put(rt, sender, copy).is_err() {
        return Err(AllocError);
    }
    Ok(())
}

/// Makes a move, and answers what a turn answered. Fails where the move cannot be made.
fn answer<'a, R: Wait>(
    rt: &R,
    alloc: Global,
    engine: &mut Engine<'a, FailingLink<OffsetBroker>>,
    mailbox: &Mailbox<Finished<'a>>,
    senders: &mut Vec<Sender<Finished<'a>>>,
    inbox: &mut Inbox<Finished<'a>>,
    act: Move,
) -> Result<Option<Turn>, AllocError>
    requires senders { All (λ s. (s.mailbox ≡ mailbox.now) × (s.put ≡ [])) senders.old.items }
    requires inbox { inbox.old.mailbox ≡ mailbox.now }
    ensures senders { All (λ s. (s.mailbox ≡ mailbox.now) × (s.put ≡ [])) senders.new.items }
    ensures inbox { inbox.new.mailbox ≡ mailbox.now }
{
    match act {
        Move::Assign => engine.assign(0).map(|()| None).map_err(|_| AllocError),
        Move::Lose => engine.lose(0).map(|()| None).map_err(|_| AllocError),
        Move::Work => work(rt, alloc, engine, mailbox, senders).map(|()| None),
        Move::Turn(_, _) if engine.has_ended() => Err(AllocError),
        Move::Turn(now, last) => Ok(Some(control_turn(rt, engine, mailbox, inbox, now, last))),
    }
}

/// What the moves answer, how many events there are after each, and the journal that they leave.
fn answers<'a, R: Wait>(
    rt: &R,
    alloc: Global,
    setup: &'a Setup,
    logs: &'a BrokerLogs<'a>,
) -> Result<([(Option<Turn>, u64); 25], Journal), AllocError> {
    let (mailbox, mut senders, mut inbox) = Mailbox::new(alloc, 4)?;
    let Ok(mut engine) = Engine::start(alloc, setup, logs, link(alloc)?) else {
        return Err(AllocError);
    };
    let mut answers = [(None, 0); 25];
    for i in 0..25 {
        let turn = answer(
            rt,
            alloc,
            &mut engine,
            &mailbox,
            &mut senders,
            &mut inbox,
            ROWS[i].0,
        );
        answers[i] = (turn.unwrap_or(None), engine.events());
    }
    Ok((answers, engine.into_parts().0))
}

/// The same over these logs.
fn answers_over<R: Wait>(
    rt: &R,
    alloc: Global,
    logs: &BrokerLogs<'_>,
) -> Result<([(Option<Turn>, u64); 25], Journal), Fail> {
    let setup = setup_of(alloc)?;
    Ok(answers(rt, alloc, &setup, logs)?)
}

#[test]
fn a_turn_does_the_first_action_that_applies(rt: HostRuntime) -> Result<(), Fail> {
    let logs = one_log(rt.alloc())?;
    let (answers, journal) = answers_over(&rt, rt.alloc(), &logs)?;
    for i in 0..25 {
        let (act, turn, events) = ROWS[i];
        assert_eq!(rt; answers[i], (turn, events), "at {i}, {act:?}");
    }
    assert_eq!(rt; journal.len(), 18);
    for i in 0..18 {
        assert_eq!(rt; journal.get(i as u64).map(name), Some(EVENTS[i]), "at {i}");
    }
    Ok(())
}

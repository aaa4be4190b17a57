//! That memory is found, and which of the faults a call answers.

use crate::{Committed, Engine, EngineFault};
use pc_broker_log::BrokerLogs;
use pc_cursor::Log;
use pc_model::{Event, Journal, Setup};
use pc_offset_client::ClientFault;
use pc_world::{Link, LinkFault};
use std::alloc::{AllocError, Global};
use std::test::Fail;

/// A link that tells nothing. Each of its calls is answered by the next of some replies, and fails
/// where that is empty.
#[derive(Debug, Drop)]
pub(crate) struct Scripted {
    pub(crate) alloc: Global,
    pub(crate) replies: &'static [&'static [u8]],
    pub(crate) faults: u64,
}

impl Link for Scripted {
    ghost use Rattle.std.specs.Prelude.{[], false};

    ghost is_told = { λ _. false };

    ghost store = { λ _. record { topic = []; parts = 0; commits = []; memberships = [] } };

    ghost faults = { λ l. l.faults };

    fn call(&mut self, _frame: &[u8]) -> Result<Vec<u8>, LinkFault> {
        let [reply, rest @ ..] = self.replies else {
            return Err(LinkFault::NoMemory);
        };
        self.replies = rest;
        if reply.is_empty() {
            self.faults = self.faults.saturating_add(1);
            return Err(LinkFault::Failed);
        }
        Ok(Vec::from_slice(self.alloc, reply)?)
    }
}

/// One call of an engine.
#[derive(Clone, Copy, Debug)]
enum Call {
    Assign(u32),
    Commit(u32),
    Revoke(u32),
    Lose(u32),
    Crash,
    Drain,
    Finish,
    Close,
}

/// Replies by their correlation ids: nothing is stored for part 0; its commit is stored; two calls
/// fail; its commit is refused with code 3; then, for its revocation, its commit is stored; nothing
/// is stored for it, and it is lost; nothing is stored for it, and its revocation fails.
const REPLIES: [&[u8]; 9] = [
    b"\0\0\0\x21\0\0\0\x01\0\0\0\x01\0\x03log\0\0\0\x01\0\0\0\0\xff\xff\xff\xff\xff\xff\xff\xff\0\0\0\0",
    b"\0\0\0\x17\0\0\0\x02\0\0\0\x01\0\x03log\0\0\0\x01\0\0\0\0\0\0",
    b"",
    b"",
    b"\0\0\0\x17\0\0\0\x05\0\0\0\x01\0\x03log\0\0\0\x01\0\0\0\0\0\x03",
    b"\0\0\0\x17\0\0\0\x06\0\0\0\x01\0\x03log\0\0\0\x01\0\0\0\0\0\0",
    b"\0\0\0\x21\0\0\0\x07\0\0\0\x01\0\x03log\0\0\0\x01\0\0\0\0\xff\xff\xff\xff\xff\xff\xff\xff\0\0\0\0",
    b"\0\0\0\x21\0\0\0\x08\0\0\0\x01\0\x03log\0\0\0\x01\0\0\0\0\xff\xff\xff\xff\xff\xff\xff\xff\0\0\0\0",
    b"",
];

/// The calls over two parts, and what each answers.
const CALLS: [(Call, Result<(), EngineFault>); 25] = [
    (Call::Assign(2), Err(EngineFault::UnknownPart)),
    (Call::Lose(2), Err(EngineFault::UnknownPart)),
    (Call::Revoke(0), Err(EngineFault::NotHeld)),
    (Call::Commit(2), Err(EngineFault::UnknownPart)),
    (Call::Commit(0), Err(EngineFault::NotHeld)),
    (Call::Assign(0), Ok(())),
    (Call::Assign(0), Err(EngineFault::AlreadyHeld)),
    (Call::Commit(0), Ok(())),
    (
        Call::Commit(0),
        Err(EngineFault::Client(ClientFault::LinkFailed)),
    ),
    (
        Call::Assign(1),
        Err(EngineFault::Client(ClientFault::LinkFailed)),
    ),
    (
        Call::Commit(0),
        Err(EngineFault::Client(ClientFault::Refused(3))),
    ),
    (Call::Revoke(0), Ok(())),
    (Call::Lose(0), Err(EngineFault::NotHeld)),
    (Call::Assign(0), Ok(())),
    (Call::Lose(0), Ok(())),
    (Call::Assign(0), Ok(())),
    (
        Call::Revoke(0),
        Err(EngineFault::Client(ClientFault::LinkFailed)),
    ),
    (Call::Crash, Ok(())),
    (Call::Assign(0), Err(EngineFault::NoMemory)),
    (Call::Drain, Ok(())),
    (Call::Drain, Err(EngineFault::Draining)),
    (Call::Assign(0), Err(EngineFault::Draining)),
    (Call::Finish, Ok(())),
    (Call::Close, Err(EngineFault::Closed)),
    (Call::Crash, Err(EngineFault::Closed)),
];

fn answer(engine: &mut Engine<'_, Scripted>, call: Call) -> Result<(), EngineFault> {
    match call {
        Call::Assign(part) => engine.assign(part),
        Call::Commit(part) => {
            let _: Committed = engine.commit(part)?;
            Ok(())
        }
        Call::Revoke(part) => match engine.revoke(part)? {
            Some(fault) => Err(EngineFault::Client(fault)),
            None => Ok(()),
        },
        Call::Lose(part) => engine.lose(part),
        Call::Crash => engine.crash(),
        Call::Drain => engine.begin_drain(),
        Call::Finish => engine.finish(),
        Call::Close => engine.close(),
    }
}

/// The name of an event of these calls.
fn name(event: &Event) -> &'static str {
    match event {
        Event::Assign { .. } => "assign",
        Event::Commit { .. } => "commit",
        Event::CommitFailed { .. } => "commit-failed",
        Event::Revoke { .. } => "revoke",
        Event::Lost { .. } => "lost",
        Event::Crash => "crash",
        Event::Drain => "drain",
        Event::Done => "done",
        _ => "another",
    }
}

/// The empty logs of parts 0 and 1.
fn empty_logs<'a>(alloc: Global) -> Result<BrokerLogs<'a>, AllocError> {
    let mut logs = BrokerLogs::new(alloc);
    for part in [0, 1] {
        let Ok(log) = Log::check(alloc, b"") else {
            return Err(AllocError);
        };
        if logs.add(part, log).is_err() {
            return Err(AllocError);
        }
    }
    Ok(logs)
}

/// What the calls answer over these logs, and the journal that they leave.
fn answers(
    alloc: Global,
    logs: &BrokerLogs<'_>,
) -> Result<([Result<(), EngineFault>; 25], Journal), AllocError> {
    let setup = Setup::with_defaults(alloc)?;
    let link = Scripted {
        alloc,
        replies: &REPLIES,
        faults: 0,
    };
    let Ok(mut engine) = Engine::start(alloc, &setup, logs, link) else {
        return Err(AllocError);
    };
    let mut answers = [Ok(()); 25];
    for i in 0..25 {
        answers[i] = answer(&mut engine, CALLS[i].0);
    }
    Ok((answers, engine.into_parts().0))
}

#[test]
fn refusals_add_nothing(rt: HostRuntime) -> Result<(), Fail> {
    let logs = empty_logs(rt.alloc())?;
    let (answers, journal) = answers(rt.alloc(), &logs)?;
    for i in 0..25 {
        let (call, wanted) = CALLS[i];
        assert_eq!(rt; answers[i], wanted, "at {call:?}");
    }
    let events = [
        "assign",
        "commit",
        "commit-failed",
        "commit-failed",
        "commit",
        "revoke",
        "assign",
        "lost",
        "assign",
        "commit-failed",
        "revoke",
        "crash",
        "drain",
        "done",
    ];
    assert_eq!(rt; journal.len(), 14);
    for i in 0..14 {
        assert_eq!(rt; journal.get(i as u64).map(name), Some(events[i]));
    }
    Ok(())
}

//! Plays and runs over an outside in memory whose reads, calls of the link and writes fail, over
//! brokers that store something or have another topic, and over a link that tells nothing. `cases/`
//! has all other plays and runs.

use crate::offline::offline;
use crate::play_setup::Ended;
use crate::top::parcon;
use pc_model::{Commit, MapText};
use pc_offset_client::{Client, GROUP, TOPIC};
use pc_offset_store::OffsetBroker;
use pc_world::{FailingLink, Link, LinkFault, MemoryFiles, MemorySink, StepClock};
use std::alloc::{AllocError, Global};
use std::sync::Wait;
use std::test::Fail;
use std::thread::Threads;

/// More than any output of these tests.
const ROOM: u64 = 1024;

/// One batch with the records (0, "a", "x"), (1, "b", "yy") and (2, "a", "zzz").
const THREE_RECORDS: [u8; 91] = [
    // baseOffset, batchLength, partitionLeaderEpoch, magic, crc
    0x00, 0x00, 0x00, 0x00, 0x00, 0x00, 0x00, 0x00, //
    0x00, 0x00, 0x00, 0x4F, 0x00, 0x00, 0x00, 0x00, 0x02, 0xD6, 0xFC, 0x11, 0xEE, //
    // attributes, lastOffsetDelta, baseTimestamp, maxTimestamp
    0x00, 0x00, 0x00, 0x00, 0x00, 0x02, //
    0x00, 0x00, 0x00, 0x00, 0x00, 0x00, 0x00, 0x00, //
    0x00, 0x00, 0x00, 0x00, 0x00, 0x00, 0x00, 0x00, //
    // producerId, producerEpoch, baseSequence, recordsCount
    0xFF, 0xFF, 0xFF, 0xFF, 0xFF, 0xFF, 0xFF, 0xFF, //
    0xFF, 0xFF, 0xFF, 0xFF, 0xFF, 0xFF, 0x00, 0x00, 0x00, 0x03, //
    // the records
    0x10, 0x00, 0x00, 0x00, 0x02, 0x61, 0x02, 0x78, 0x00, //
    0x12, 0x00, 0x00, 0x02, 0x02, 0x62, 0x04, 0x79, 0x79, 0x00, //
    0x14, 0x00, 0x00, 0x04, 0x02, 0x61, 0x06, 0x7A, 0x7A, 0x7A, 0x00,
];

/// The files of a command: a configuration, a log of three records, and a script. The read of this
/// number fails, 0 for none: the configuration is read first, then the log and the script.
fn files(
    alloc: Global,
    config: &[u8],
    script: &[u8],
    read: u64,
) -> Result<MemoryFiles, AllocError> {
    let mut files = MemoryFiles::new(alloc, &[read])?;
    files.add("c.toml", config)?;
    files.add("a.log", &THREE_RECORDS)?;
    files.add("a.script", script)?;
    Ok(files)
}

/// The words that ask for a command over these files.
fn words(alloc: Global, command: &str) -> Result<Vec<String>, AllocError> {
    let mut words = Vec::new(alloc);
    for word in [command, "--config=c.toml", "a.log", "a.script"] {
        words.push(String::from_str(alloc, word)?)?;
    }
    Ok(words)
}

/// Plays a script over such files, over a link.
fn play<L: Link + Drop>(
    alloc: Global,
    config: &[u8],
    script: &[u8],
    read: u64,
    link: L,
    out: &mut MemorySink,
) -> Result<Ended<L>, AllocError> {
    let mut files = files(alloc, config, script, read)?;
    let words = words(alloc, "play")?;
    Ok(offline(alloc, &words, &mut files, link, out))
}

/// Runs the steps of a script over such files, over a link, by a clock that each rest sets on.
fn run<R: Threads + Wait + Sync, L: Link + Send + Drop>(
    rt: &R,
    alloc: Global,
    row: &Row,
    link: L,
    out: &mut MemorySink,
) -> Result<Ended<L>, AllocError> {
    let mut files = files(alloc, row.config, row.script, row.read)?;
    let words = words(alloc, "run")?;
    let clock = StepClock::new();
    Ok(parcon(rt, alloc, &words, &mut files, &clock, link, out))
}

/// A play or a run over an outside of which something fails, and how it ends. Numbers of calls count
/// from 1; 0 is none.
#[derive(Clone, Copy)]
struct Row {
    config: &'static [u8],
    script: &'static [u8],
    /// Whether the broker has a commit for part 0 at first.
    is_stored: bool,
    /// The number of the read that fails.
    read: u64,
    /// The number of the link's call that fails before the broker has it.
    early: u64,
    /// The number of the link's call that fails after the broker had it.
    late: u64,
    /// The number of the write that fails.
    write: u64,
    /// How many bytes a write takes at most.
    room: u64,
    output: &'static [u8],
    status: u8,
    /// How many events the journal has.
    events: u64,
    /// The position and the map that the broker stores for part 0 at the end, and the position for part 1.
    stored: (u64, &'static str, u64),
}

const ASSIGN: &[u8] = b"assign 0\n";

const TWO_LINES: &[u8] = b"assign 0\ncommit 0\n";

const COMMIT: &[u8] = b"assign 0\npoll 0 3\ntake 1\nend 1\ncommit 0\ncrash\nassign 0\n";

const REVOKE: &[u8] = b"assign 0\npoll 0 3\ntake 1\nend 1\nrevoke 0\nassign 0\n";

const FINISH: &[u8] = b"assign 0\npoll 0 3\ntake 1\ntake 1\ntake 1\nend 1\nend 2\nend 3\n\
commit 0\ndone\ncommit 0\ndone\n";

/// Two starts; that of part 1 is sent first.
const STARTS: &[u8] =
    b"start = [{ part = 1, position = 5 }, { part = 0, position = 1, map = \"bAACAg==\" }]\n";

/// Two lines over an outside of which nothing fails.
const ROW: Row = Row {
    config: b"",
    script: TWO_LINES,
    is_stored: false,
    read: 0,
    early: 0,
    late: 0,
    write: 0,
    room: ROOM,
    output: b"",
    status: 0,
    events: 0,
    stored: (0, "", 0),
};

/// One line after two starts, over such an outside.
const START_ROW: Row = Row {
    config: STARTS,
    script: ASSIGN,
    ..ROW
};

const COMMIT_FAILED: &[u8] =
    b"assign 0 epoch 1 at 0 map =\ncommit-failed 0 at 0 map = size 0\nline 2: link-failed\n";

const KEPT_COMMIT_FAILED: &[u8] =
    b"assign 0 epoch 1 at 7 map =bAACAg==\ncommit-failed 0 at 7 map = size 0\nline 2: link-failed\n";

const FINISHED: &[u8] = b"assign 0 epoch 1 at 0 map =\npoll 0 count 3 last 2\n\
dispatch 1 worker 1 part 0 offset 0 epoch 1 attempt 1\n\
dispatch 2 worker 1 part 0 offset 1 epoch 1 attempt 1\n\
dispatch 3 worker 1 part 0 offset 2 epoch 1 attempt 1\n\
success 1 =1\nsuccess 2 =2\nsuccess 3 =3\n\
commit-failed 0 at 3 map = size 0\ncommit 0 at 3 map = size 0\ndone\n\
line 9: link-failed\nline 10: uncommitted 0 0 3\n";

const START_FAILED: &[u8] = b"fault link link-failed\n";

const ROWS: [Row; 25] = [
    // The link fails at the commit, before the broker has it and after.
    Row {
        early: 2,
        output: COMMIT_FAILED,
        events: 2,
        ..ROW
    },
    Row {
        late: 2,
        output: COMMIT_FAILED,
        events: 2,
        ..ROW
    },
    Row {
        script: COMMIT,
        early: 2,
        output: b"assign 0 epoch 1 at 0 map =\npoll 0 count 3 last 2\n\
dispatch 1 worker 1 part 0 offset 0 epoch 1 attempt 1\nsuccess 1 =1\n\
commit-failed 0 at 1 map = size 0\ncrash\nassign 0 epoch 3 at 0 map =\nline 5: link-failed\n",
        events: 7,
        ..ROW
    },
    Row {
        script: COMMIT,
        late: 2,
        output: b"assign 0 epoch 1 at 0 map =\npoll 0 count 3 last 2\n\
dispatch 1 worker 1 part 0 offset 0 epoch 1 attempt 1\nsuccess 1 =1\n\
commit-failed 0 at 1 map = size 0\ncrash\nassign 0 epoch 3 at 1 map =\nline 5: link-failed\n",
        events: 7,
        stored: (1, "", 0),
        ..ROW
    },
    // The same of the commit of a revocation, which is not refused and has no remark.
    Row {
        script: REVOKE,
        early: 2,
        output: b"assign 0 epoch 1 at 0 map =\npoll 0 count 3 last 2\n\
dispatch 1 worker 1 part 0 offset 0 epoch 1 attempt 1\nsuccess 1 =1\n\
commit-failed 0 at 1 map = size 0\nrevoke 0 epoch 1\nassign 0 epoch 3 at 0 map =\n",
        events: 7,
        ..ROW
    },
    Row {
        script: REVOKE,
        late: 2,
        output: b"assign 0 epoch 1 at 0 map =\npoll 0 count 3 last 2\n\
dispatch 1 worker 1 part 0 offset 0 epoch 1 attempt 1\nsuccess 1 =1\n\
commit-failed 0 at 1 map = size 0\nrevoke 0 epoch 1\nassign 0 epoch 3 at 1 map =\n",
        events: 7,
        stored: (1, "", 0),
        ..ROW
    },
    // After a failed commit not all is done before one is stored, also where the broker had the first.
    Row {
        script: FINISH,
        early: 2,
        output: FINISHED,
        events: 11,
        stored: (3, "", 0),
        ..ROW
    },
    Row {
        script: FINISH,
        late: 2,
        output: FINISHED,
        events: 11,
        stored: (3, "", 0),
        ..ROW
    },
    // It fails at the assignment.
    Row {
        early: 1,
        output: b"line 1: link-failed\nline 2: not-held\n",
        ..ROW
    },
    // Each read fails in turn.
    Row {
        read: 1,
        output: b"fault read =c.toml\n",
        status: 2,
        ..ROW
    },
    Row {
        read: 2,
        output: b"fault read =a.log\n",
        status: 2,
        ..ROW
    },
    Row {
        read: 3,
        output: b"fault read =a.script\n",
        status: 2,
        ..ROW
    },
    // The writes fail: that of a play, that of a fault line, and the second of each.
    Row {
        write: 1,
        status: 7,
        events: 2,
        ..ROW
    },
    Row {
        read: 2,
        write: 1,
        status: 7,
        ..ROW
    },
    Row {
        write: 2,
        room: 8,
        output: b"assign 0",
        status: 7,
        events: 2,
        ..ROW
    },
    Row {
        read: 2,
        room: 8,
        output: b"fault re",
        status: 7,
        ..ROW
    },
    // The broker stores something. A commit that was stored has no map; a late failure leaves it in the
    // store, and an early one what stood there.
    Row {
        is_stored: true,
        output: b"assign 0 epoch 1 at 7 map =bAACAg==\ncommit 0 at 7 map = size 0\n",
        events: 2,
        stored: (7, "", 0),
        ..ROW
    },
    Row {
        is_stored: true,
        early: 2,
        output: KEPT_COMMIT_FAILED,
        events: 2,
        stored: (7, "bAACAg==", 0),
        ..ROW
    },
    Row {
        is_stored: true,
        late: 2,
        output: KEPT_COMMIT_FAILED,
        events: 2,
        stored: (7, "", 0),
        ..ROW
    },
    // Two starts are stored.
    Row {
        output: b"assign 0 epoch 1 at 1 map =bAACAg==\n",
        events: 1,
        stored: (1, "bAACAg==", 5),
        ..START_ROW
    },
    // The link fails at the first start, and at the second, before the broker has it and after.
    Row {
        early: 1,
        output: START_FAILED,
        status: 8,
        ..START_ROW
    },
    Row {
        late: 1,
        output: START_FAILED,
        status: 8,
        stored: (0, "", 5),
        ..START_ROW
    },
    Row {
        early: 2,
        output: START_FAILED,
        status: 8,
        stored: (0, "", 5),
        ..START_ROW
    },
    Row {
        late: 2,
        output: START_FAILED,
        status: 8,
        stored: (1, "bAACAg==", 5),
        ..START_ROW
    },
    // The third call is the fetch of the assignment.
    Row {
        early: 3,
        output: b"line 1: link-failed\n",
        stored: (1, "bAACAg==", 5),
        ..START_ROW
    },
];

/// The broker of a topic with two parts, for the first of which it has a commit at 7, if that is asked.
fn broker(alloc: Global, is_stored: bool) -> Result<OffsetBroker, Fail> {
    let mut broker = OffsetBroker::new(alloc, TOPIC, 2)?;
    if is_stored {
        let map = MapText::from_str(alloc, "bAACAg==")?;
        broker.with(GROUP, 0, Commit { position: 7, map })?;
    }
    Ok(broker)
}

/// What is seen of a play or a run at its end.
#[derive(Drop)]
struct Seen {
    out: MemorySink,
    status: u8,
    events: u64,
    /// The commit that the broker stores for part 0, and the position of that for part 1.
    first: Commit,
    second: u64,
}

/// The link of a row.
fn link(alloc: Global, row: &Row) -> Result<FailingLink<OffsetBroker>, Fail> {
    let broker = broker(alloc, row.is_stored)?;
    match FailingLink::new(alloc, broker, &[row.early], &[row.late]) {
        Ok(link) => Ok(link),
        Err(_) => Err(AllocError.into()),
    }
}

/// What is seen of a command that ended so, with this output.
fn seen_of(
    alloc: Global,
    ended: Ended<FailingLink<OffsetBroker>>,
    out: MemorySink,
) -> Result<Seen, Fail> {
    let (status, events) = (ended.status.number(), ended.journal.len());
    let mut client = Client::new(alloc, ended.link.into_link());
    let first = client.fetch(0)?;
    let second = client.fetch(1)?.position;
    Ok(Seen {
        out,
        status,
        events,
        first,
        second,
    })
}

/// What is seen of the play of a row.
fn seen_of_play(alloc: Global, row: &Row) -> Result<Seen, Fail> {
    let mut out = MemorySink::new(alloc, row.room, &[row.write])?;
    let link = link(alloc, row)?;
    let ended = play(alloc, row.config, row.script, row.read, link, &mut out)?;
    seen_of(alloc, ended, out)
}

/// What is seen of the run of a row.
fn seen_of_run<R: Threads + Wait + Sync>(rt: &R, alloc: Global, row: &Row) -> Result<Seen, Fail> {
    let mut out = MemorySink::new(alloc, row.room, &[row.write])?;
    let link = link(alloc, row)?;
    let ended = run(rt, alloc, row, link, &mut out)?;
    seen_of(alloc, ended, out)
}

#[test]
fn each_fault_of_the_outside(rt: HostRuntime) -> Result<(), Fail> {
    for row in ROWS {
        let seen = seen_of_play(rt.alloc(), &row)?;
        let stored = (seen.first.position, seen.first.map.as_str(), seen.second);
        assert_eq!(rt; seen.out.bytes(), row.output, "after {:?}", row.script);
        assert_eq!(rt;
            (seen.status, seen.events),
            (row.status, row.events),
            "at {:?}",
            row.output
        );
        assert_eq!(rt; stored, row.stored, "at {:?}", row.output);
    }
    Ok(())
}

const ONE_WORKER: &[u8] = b"workers = 1\n";

const TWO_STARTS: &[u8] = b"workers = 1\n\
start = [{ part = 1, position = 5 }, { part = 0, position = 1, map = \"bAACAg==\" }]\n";

const ONE_STEP: &[u8] = b"at 0 assign 0\n";

const GIVEN_BACK: &[u8] = b"at 0 assign 0\nat 2 revoke 0\nat 2 assign 0\n";

/// A run of the three records by one worker, over an outside of which nothing fails.
const RUN_ROW: Row = Row {
    config: ONE_WORKER,
    script: ONE_STEP,
    is_stored: false,
    read: 0,
    early: 0,
    late: 0,
    write: 0,
    room: ROOM,
    output: b"assign 0 epoch 1 at 0 map =\npoll 0 count 3 last 2\n\
dispatch 1 worker 0 part 0 offset 0 epoch 1 attempt 1\nsuccess 1 =1\n\
dispatch 2 worker 0 part 0 offset 1 epoch 1 attempt 1\nsuccess 2 =2\n\
dispatch 3 worker 0 part 0 offset 2 epoch 1 attempt 1\nsuccess 3 =3\n\
drain\ncommit 0 at 3 map = size 0\ndone\n\
record 0 0 =1\nrecord 0 1 =2\nrecord 0 2 =3\nend 0 3\n",
    status: 0,
    events: 11,
    stored: (3, "", 0),
};

/// The same, where the commit in the drain fails before the broker has it.
const UNSAVED_ROW: Row = Row {
    early: 2,
    output: b"assign 0 epoch 1 at 0 map =\npoll 0 count 3 last 2\n\
dispatch 1 worker 0 part 0 offset 0 epoch 1 attempt 1\nsuccess 1 =1\n\
dispatch 2 worker 0 part 0 offset 1 epoch 1 attempt 1\nsuccess 2 =2\n\
dispatch 3 worker 0 part 0 offset 2 epoch 1 attempt 1\nsuccess 3 =3\n\
drain\ncommit-failed 0 at 3 map = size 0\nfault link link-failed\n",
    status: 8,
    events: 10,
    stored: (0, "", 0),
    ..RUN_ROW
};

/// A run whose part is given back after two records, where the commit of that fails before the broker
/// has it, so that the records are run again.
const AGAIN_ROW: Row = Row {
    script: GIVEN_BACK,
    early: 2,
    output: b"assign 0 epoch 1 at 0 map =\npoll 0 count 3 last 2\n\
dispatch 1 worker 0 part 0 offset 0 epoch 1 attempt 1\nsuccess 1 =1\n\
dispatch 2 worker 0 part 0 offset 1 epoch 1 attempt 1\nsuccess 2 =2\n\
commit-failed 0 at 2 map = size 0\nrevoke 0 epoch 1\n\
assign 0 epoch 3 at 0 map =\npoll 0 count 3 last 2\n\
dispatch 3 worker 0 part 0 offset 0 epoch 3 attempt 1\nsuccess 3 =1\n\
dispatch 4 worker 0 part 0 offset 1 epoch 3 attempt 1\nsuccess 4 =2\n\
dispatch 5 worker 0 part 0 offset 2 epoch 3 attempt 1\nsuccess 5 =3\n\
drain\ncommit 0 at 3 map = size 0\ndone\n\
record 0 0 =1\nrecord 0 1 =2\nrecord 0 2 =3\nend 0 3\n",
    events: 19,
    ..RUN_ROW
};

/// A run that does not begin, as its status says.
const UNRUN_ROW: Row = Row {
    output: START_FAILED,
    status: 8,
    events: 0,
    stored: (0, "", 0),
    ..RUN_ROW
};

const RUN_ROWS: [Row; 15] = [
    RUN_ROW,
    // The link fails at the fetch of the assignment, at the commit in the drain, and at that of a
    // revocation, before the broker has it and after.
    Row {
        early: 1,
        ..UNRUN_ROW
    },
    Row {
        late: 1,
        ..UNRUN_ROW
    },
    UNSAVED_ROW,
    Row {
        early: 0,
        late: 2,
        stored: (3, "", 0),
        ..UNSAVED_ROW
    },
    AGAIN_ROW,
    // It fails at each of two starts.
    Row {
        config: TWO_STARTS,
        early: 1,
        ..UNRUN_ROW
    },
    Row {
        config: TWO_STARTS,
        early: 2,
        stored: (0, "", 5),
        ..UNRUN_ROW
    },
    // The third call is then the fetch.
    Row {
        config: TWO_STARTS,
        early: 3,
        stored: (1, "bAACAg==", 5),
        ..UNRUN_ROW
    },
    // Each read fails.
    Row {
        read: 1,
        output: b"fault read =c.toml\n",
        status: 2,
        ..UNRUN_ROW
    },
    Row {
        read: 2,
        output: b"fault read =a.log\n",
        status: 2,
        ..UNRUN_ROW
    },
    Row {
        read: 3,
        output: b"fault read =a.script\n",
        status: 2,
        ..UNRUN_ROW
    },
    // The writes fail: the first and the second of a run, and that of a fault line.
    Row {
        write: 1,
        output: b"",
        status: 7,
        ..RUN_ROW
    },
    Row {
        write: 2,
        room: 8,
        output: b"assign 0",
        status: 7,
        ..RUN_ROW
    },
    Row {
        early: 1,
        write: 1,
        output: b"",
        status: 7,
        ..UNRUN_ROW
    },
];

#[test]
fn each_fault_of_the_outside_in_a_run(rt: HostRuntime) -> Result<(), Fail> {
    for row in RUN_ROWS {
        let seen = seen_of_run(&rt, rt.alloc(), &row)?;
        let stored = (seen.first.position, seen.first.map.as_str(), seen.second);
        assert_eq!(rt; seen.out.bytes(), row.output, "after {:?}", row.script);
        assert_eq!(rt;
            (seen.status, seen.events),
            (row.status, row.events),
            "at {:?}",
            row.output
        );
        assert_eq!(rt; stored, row.stored, "at {:?}", row.output);
    }
    Ok(())
}

/// A configuration, and the output and the status over the broker of another topic.
const REFUSED: [(&[u8], &[u8], u8); 2] = [
    (b"", b"line 1: refused 3\nline 2: not-held\n", 0),
    (STARTS, b"fault link refused 3\n", 8),
];

#[test]
fn a_broker_without_the_topic(rt: HostRuntime) -> Result<(), Fail> {
    for (config, output, status) in REFUSED {
        let link = OffsetBroker::new(rt.alloc(), "other", 2)?;
        let mut out = MemorySink::new(rt.alloc(), ROOM, &[])?;
        let ended = play(rt.alloc(), config, TWO_LINES, 0, link, &mut out)?;
        assert_eq!(rt; out.bytes(), output);
        assert_eq!(rt; ended.status.number(), status);
        assert_eq!(rt; ended.journal.len(), 0);
    }
    Ok(())
}

/// A link that answers every frame with one reply, and tells nothing.
#[derive(Debug, Drop)]
struct OneReply {
    alloc: Global,
    reply: &'static [u8],
}

impl Link for OneReply {
    ghost use Rattle.std.specs.Prelude.{[], false};

    ghost is_told = { λ _. false };

    ghost store = { λ _. record { topic = []; parts = 0; commits = []; memberships = [] } };

    ghost faults = { λ _. 0 };

    fn call(&mut self, _frame: &[u8]) -> Result<Vec<u8>, LinkFault> {
        Ok(Vec::from_slice(self.alloc, self.reply)?)
    }
}

/// Replies to the first fetch of part 0, and what an assignment prints then.
const ANSWERS: [(&[u8], &[u8]); 4] = [
    (
        b"\0\0\0\x21\0\0\0\x01\0\0\0\x01\0\x03log\0\0\0\x01\0\0\0\0\0\0\0\0\0\0\0\x05\0\0\0\0",
        b"assign 0 epoch 1 at 5 map =\n",
    ),
    (b"\0\0\0\x04\0\0\0", b"line 1: bad-reply\n"),
    (
        b"\0\0\0\x21\0\0\0\x02\0\0\0\x01\0\x03log\0\0\0\x01\0\0\0\0\0\0\0\0\0\0\0\x05\0\0\0\0",
        b"line 1: other-reply\n",
    ),
    (
        b"\0\0\0\x21\0\0\0\x01\0\0\0\x01\0\x03log\0\0\0\x01\0\0\0\0\0\0\0\0\0\0\0\x05\0\0\0\x19",
        b"line 1: refused 25\n",
    ),
];

#[test]
fn a_link_that_tells_nothing(rt: HostRuntime) -> Result<(), Fail> {
    for (reply, output) in ANSWERS {
        let alloc = rt.alloc();
        let mut out = MemorySink::new(alloc, ROOM, &[])?;
        let ended = play(alloc, b"", ASSIGN, 0, OneReply { alloc, reply }, &mut out)?;
        assert_eq!(rt; out.bytes(), output, "by {reply:?}");
        assert_eq!(rt; ended.status.number(), 0);
    }
    Ok(())
}

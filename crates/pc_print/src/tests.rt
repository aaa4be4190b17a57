//! Tables of lines: every event, the edges of every number, and what is no event's line.

use super::*;
use pc_model::Event;
use std::test::Fail;

const LINES: [&[u8]; 21] = [
    b"assign 0 epoch 1 at 0 map =\n",
    b"assign 4294967295 epoch 18446744073709551615 at 18446744073709551615 map =%c3%a9\n",
    b"poll 0 count 3 last 2\n",
    b"poll 4294967295 count 4294967295 last 18446744073709551615\n",
    b"dispatch 1 worker 2 part 3 offset 4 epoch 5 attempt 6\n",
    b"success 2 =2\n",
    b"success 18446744073709551615 =%00%20%25%ff~\n",
    b"success 0 =\n",
    b"failure 1 code 1 ready 18446744073709551615\n",
    b"stale 7\n",
    b"commit 0 at 0 map =bAACAg== size 8\n",
    b"commit 0 at 9 map = size 4294967295\n",
    b"commit-failed 1 at 2 map =%25 size 3\n",
    b"revoke 1 epoch 2\n",
    b"lost 3 epoch 4\n",
    b"crash\n",
    b"tick 0\n",
    b"tick 18446744073709551615\n",
    b"drain\n",
    b"done\n",
    b"closed\n",
];

#[test]
fn every_event_both_ways(rt: HostRuntime) -> Result<(), Fail> {
    for line in LINES {
        let journal = read_journal(rt.alloc(), line)?;
        assert_eq!(rt; journal.len(), 1);
        let event = journal.get(0).ok_or("an event")?;
        let mut out = [b'>'].to_vec(rt.alloc())?;
        put_event(&mut out, event)?;
        assert_eq!(rt; out.first(), Some(&b'>'));
        assert_eq!(rt; out.get(1..), Some(line));
    }
    Ok(())
}

const FIRST_PATH: &[u8] = b"assign 0 epoch 1 at 0 map =
poll 0 count 3 last 2
dispatch 1 worker 1 part 0 offset 0 epoch 1 attempt 1
dispatch 2 worker 2 part 0 offset 1 epoch 1 attempt 1
success 2 =2
commit 0 at 0 map =bAACAg== size 8
";

fn is_first_path(place: u64, event: &Event) -> bool {
    match (place, event) {
        (
            0,
            Event::Assign {
                part: 0,
                epoch: 1,
                position: 0,
                map,
            },
        ) => map.as_str() == "",
        (
            1,
            Event::Poll {
                part: 0,
                count: 3,
                last: 2,
            },
        ) => true,
        (
            2,
            Event::Dispatch {
                ticket: 1,
                worker: 1,
                part: 0,
                offset: 0,
                epoch: 1,
                attempt: 1,
            },
        ) => true,
        (
            3,
            Event::Dispatch {
                ticket: 2,
                worker: 2,
                part: 0,
                offset: 1,
                epoch: 1,
                attempt: 1,
            },
        ) => true,
        (4, Event::Success { ticket: 2, answer }) => answer.as_slice() == b"2".as_slice(),
        (
            5,
            Event::Commit {
                part: 0,
                position: 0,
                map,
                size: 8,
            },
        ) => map.as_str() == "bAACAg==",
        _ => false,
    }
}

#[test]
fn a_whole_journal(rt: HostRuntime) -> Result<(), Fail> {
    let journal = read_journal(rt.alloc(), FIRST_PATH)?;
    assert_eq!(rt; journal.len(), 6);
    for place in 0..6u64 {
        let event = journal.get(place).ok_or("an event")?;
        assert!(rt; is_first_path(place, event), "at {place}");
    }
    let cut = FIRST_PATH
        .strip_suffix(b"\n".as_slice())
        .ok_or("a line feed")?;
    assert_eq!(rt; read_journal(rt.alloc(), cut)?.len(), 6);
    assert_eq!(rt; read_journal(rt.alloc(), b"")?.len(), 0);
    Ok(())
}

const BAD_TEXTS: [(&[u8], u64); 27] = [
    (b"poll 0 count 03 last 2", 1),
    (b"poll 0 count 3 last", 1),
    (b"poll 0 count 3 last 2 4", 1),
    (b"poll 0 last 2 count 3", 1),
    (b"poll 0  count 3 last 2", 1),
    (b" poll 0 count 3 last 2", 1),
    (b"poll 0 count 3 last 2 ", 1),
    (b"poll 4294967296 count 3 last 2", 1),
    (b"poll 0 count 4294967296 last 2", 1),
    (
        b"dispatch 1 worker 2 part 3 offset 4 epoch 5 attempt 4294967296",
        1,
    ),
    (b"tick 18446744073709551616", 1),
    (b"tick", 1),
    (b"success 1 2", 1),
    (b"success 1 =%41", 1),
    (b"success 1 =%0A", 1),
    (b"commit 0 at 0 map =%ff size 8", 1),
    (b"assign 0 epoch 1 at 0 map %20", 1),
    (b"commit 0 at 0 map = size 4294967296", 1),
    (b"crash 1", 1),
    (b"Crash", 1),
    (b"crash\r\n", 1),
    (b"close", 1),
    (b"\n", 1),
    (b"# no comments", 1),
    (b"tick 0\n\ntick 1\n", 2),
    (b"drain\ndone\nstale x\ncrash\n", 3),
    (b"crash\ncrash\ncrash\nlost 1 epoch", 4),
];

#[test]
fn the_first_line_that_is_no_events(rt: HostRuntime) {
    for (text, line) in BAD_TEXTS {
        let fault = read_journal(rt.alloc(), text).err();
        assert_eq!(rt; fault, Some(JournalTextFault::Bad { line }), "at {text:?}");
    }
}

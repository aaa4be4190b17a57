//! What no clause says: that memory is found, and what the worked commits are.

use crate::{ResumeFault, commit_of, resume};
use pc_cursor::Log;
use pc_model::{BadMapRule, Commit, MapFault, MapText};
use pc_partition::PartitionState;
use std::test::Fail;

/// One batch with the offsets 0 to 2 and the keys `a`, `b` and `a`.
const LOG: [u8; 91] = [
    0x00, 0x00, 0x00, 0x00, 0x00, 0x00, 0x00, 0x00, 0x00, 0x00, 0x00, 0x4F, 0x00, 0x00, 0x00, 0x00,
    0x02, 0xD6, 0xFC, 0x11, 0xEE, 0x00, 0x00, 0x00, 0x00, 0x00, 0x02, 0x00, 0x00, 0x00, 0x00, 0x00,
    0x00, 0x00, 0x00, 0x00, 0x00, 0x00, 0x00, 0x00, 0x00, 0x00, 0x00, 0xFF, 0xFF, 0xFF, 0xFF, 0xFF,
    0xFF, 0xFF, 0xFF, 0xFF, 0xFF, 0xFF, 0xFF, 0xFF, 0xFF, 0x00, 0x00, 0x00, 0x03, 0x10, 0x00, 0x00,
    0x00, 0x02, 0x61, 0x02, 0x78, 0x00, 0x12, 0x00, 0x00, 0x02, 0x02, 0x62, 0x04, 0x79, 0x79, 0x00,
    0x14, 0x00, 0x00, 0x04, 0x02, 0x61, 0x06, 0x7A, 0x7A, 0x7A, 0x00,
];

/// Map texts with the rule, and the fault or the position and the high.
type Resumed = Result<(u64, Option<u64>), ResumeFault>;

const STORED: [(&str, BadMapRule, Resumed); 7] = [
    ("bAACAg==", BadMapRule::Refuse, Ok((0, Some(1)))),
    ("bAACAw==", BadMapRule::Redo, Ok((2, Some(1)))),
    ("", BadMapRule::Refuse, Ok((0, None))),
    ("YQ==", BadMapRule::Redo, Ok((0, None))),
    (
        "YQ==",
        BadMapRule::Refuse,
        Err(ResumeFault::BadMap(MapFault::Compressed(97))),
    ),
    ("!", BadMapRule::Redo, Ok((0, None))),
    (
        "!",
        BadMapRule::Refuse,
        Err(ResumeFault::BadMap(MapFault::NotBase64)),
    ),
];

/// Limits with the text and the size of the map of the offsets 0 and 1, of which 1 is complete.
const LIMITS: [(u32, &str, u32); 4] = [
    (4_096, "bAACAg==", 8),
    (8, "bAACAg==", 8),
    (7, "", 8),
    (0, "", 8),
];

#[test]
fn a_long_map_is_left_out(rt: HostRuntime) -> Result<(), Fail> {
    let state = PartitionState::start(rt.alloc(), 0, &[(0, false), (1, true)])?;
    for (limit, map, size) in LIMITS {
        let commit = commit_of(rt.alloc(), &state, limit)?;
        assert_eq!(rt; commit.commit.position, 0);
        assert_eq!(rt; commit.commit.map.as_str(), map, "at {limit}");
        assert_eq!(rt; commit.size, size, "at {limit}");
    }
    Ok(())
}

// The offsets 0, 1 and 5, of which the first and the last are complete: an offset without a record
// has the bit 1.
#[test]
fn gaps_are_passed_over(rt: HostRuntime) -> Result<(), Fail> {
    let pairs = [(0, true), (1, false), (5, true)];
    let state = PartitionState::start(rt.alloc(), 0, &pairs)?;
    let commit = commit_of(rt.alloc(), &state, 4_096)?;
    assert_eq!(rt; commit.commit.position, 1);
    assert_eq!(rt; commit.commit.map.as_str(), "bAAFHg==");
    assert_eq!(rt; commit.size, 8);
    Ok(())
}

// 2^31 bits and one run of 1 bits as long: no encoding can hold them.
#[test]
fn no_encoding_holds_too_many(rt: HostRuntime) -> Result<(), Fail> {
    let pairs = [(0, false), (1 << 31, true)];
    let state = PartitionState::start(rt.alloc(), 0, &pairs)?;
    let commit = commit_of(rt.alloc(), &state, 4_096)?;
    assert_eq!(rt; commit.commit.map.as_str(), "");
    assert_eq!(rt; commit.size, u32::MAX);
    Ok(())
}

#[test]
fn all_complete_has_no_map(rt: HostRuntime) -> Result<(), Fail> {
    let state = PartitionState::start(rt.alloc(), 3, &[(3, true), (9, true)])?;
    let commit = commit_of(rt.alloc(), &state, 4_096)?;
    assert_eq!(rt; commit.commit.position, 10);
    assert_eq!(rt; commit.commit.map.as_str(), "");
    assert_eq!(rt; commit.size, 0);
    Ok(())
}

#[test]
fn stored_maps_are_resumed(rt: HostRuntime) -> Result<(), Fail> {
    let Ok(log) = Log::check(rt.alloc(), &LOG) else {
        panic!(rt; "the log does not read");
    };
    for (text, rule, wanted) in STORED {
        let stored = Commit {
            position: 0,
            map: MapText::from_str(rt.alloc(), text)?,
        };
        let state = resume(rt.alloc(), &log, &stored, rule);
        let found = state.map(|state| (state.position(), state.high()));
        assert_eq!(rt; found, wanted, "at {text}");
    }
    Ok(())
}

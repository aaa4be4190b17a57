//! What no clause says: that memory is found, and what the worked texts are.

use crate::{MapFault, read_map};
use std::test::Fail;

/// Texts that do not read, with their bases and faults.
const FAULTS: [(u64, &str, MapFault); 16] = [
    (0, "bA", MapFault::NotBase64),
    (0, "bB==", MapFault::NotBase64),
    (0, "!", MapFault::NotBase64),
    (0, "YQ==", MapFault::Compressed(97)),
    (0, "Sg==", MapFault::Compressed(74)),
    (0, "cw==", MapFault::Compressed(115)),
    (0, "cA==", MapFault::Compressed(112)),
    (0, "eA==", MapFault::UnknownLetter(120)),
    (0, "bA==", MapFault::ShortNumber),
    (0, "bAA=", MapFault::ShortNumber),
    (0, "bwAA", MapFault::ShortNumber),
    (0, "bIAA", MapFault::NegativeNumber),
    (0, "ZYAAAAA=", MapFault::NegativeNumber),
    (0, "bAABAQE=", MapFault::TooManyBytes),
    (LAST, "bAABAQ==", MapFault::PastLastOffset),
    (LAST + 1, "bgAAAAA=", MapFault::PastLastOffset),
];

/// Texts that read, with their bases and their last offsets.
const LASTS: [(u64, &str, Option<u64>); 7] = [
    (10, "bAAFGg==", Some(14)),
    (0, "bAAJ", Some(8)),
    (0, "bgAAAAA=", None),
    (0, "bgABA+c=", Some(999)),
    (10, "bwAAAAIC", Some(11)),
    (0, "ZQAAAAEAAJxA", Some(40_000)),
    (LAST - 1, "bAABAQ==", Some(LAST - 1)),
];

/// Texts that read, with their bases, an offset, and whether they pass it.
const PASSES: [(u64, &str, u64, bool); 25] = [
    (10, "bAAFGg==", 0, false),
    (10, "bAAFGg==", 9, false),
    (10, "bAAFGg==", 10, false),
    (10, "bAAFGg==", 11, true),
    (10, "bAAFGg==", 12, false),
    (10, "bAAFGg==", 13, true),
    (10, "bAAFGg==", 14, true),
    (10, "bAAFGg==", 15, false),
    (10, "bAAFGg==", u64::MAX, false),
    (0, "bAAJ", 0, false),
    (0, "bAAJ", 8, false),
    (0, "bgAAAAA=", 0, false),
    (0, "bgABA+c=", 0, false),
    (0, "bgABA+c=", 999, true),
    (0, "bgABA+c=", 1_000, false),
    (10, "bwAAAAIC", 10, false),
    (10, "bwAAAAIC", 11, true),
    (10, "bwAAAAIC", 12, false),
    (0, "ZQAAAAEAAJxA", 0, false),
    (0, "ZQAAAAEAAJxA", 1, true),
    (0, "ZQAAAAEAAJxA", 40_000, true),
    (0, "ZQAAAAEAAJxA", 40_001, false),
    (LAST - 1, "bAABAQ==", LAST - 2, false),
    (LAST - 1, "bAABAQ==", LAST - 1, true),
    (LAST - 1, "bAABAQ==", LAST, false),
];

/// 2^63 - 1.
const LAST: u64 = 9_223_372_036_854_775_807;

#[test]
fn faults_are_named(rt: HostRuntime) {
    for (base, text, fault) in FAULTS {
        let read = read_map(rt.alloc(), base, text.as_bytes());
        assert_eq!(rt; read.err(), Some(fault), "at {text}");
    }
}

#[test]
fn the_empty_text_is_no_map(rt: HostRuntime) -> Result<(), Fail> {
    assert!(rt; read_map(rt.alloc(), 0, b"")?.is_none());
    Ok(())
}

#[test]
fn maps_end_at_their_last_offsets(rt: HostRuntime) -> Result<(), Fail> {
    for (base, text, last) in LASTS {
        let map = read_map(rt.alloc(), base, text.as_bytes())?.expect(&rt, "a map");
        assert_eq!(rt; map.last(), last, "at {text}");
    }
    Ok(())
}

#[test]
fn maps_pass_their_offsets(rt: HostRuntime) -> Result<(), Fail> {
    for (base, text, offset, passed) in PASSES {
        let map = read_map(rt.alloc(), base, text.as_bytes())?.expect(&rt, "a map");
        assert_eq!(rt; map.passes(offset), passed, "{text} at {offset}");
    }
    Ok(())
}

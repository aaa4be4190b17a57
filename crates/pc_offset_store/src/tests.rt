//! The bytes of frames and of replies, which no clause writes out; the codes in their order; and
//! that memory is found.

ghost use Rattle.std.specs.Prelude.{All};
ghost use Rattle.pc_offset_wire.specs.Writing.{IsStorable};

use crate::*;
use pc_model::{Commit, MapText, WireFault};
use pc_offset_wire::{CommitItem, CommitTopic, read_commit_request, write_commit_request};
use pc_world::{FailingLink, Link, LinkFault, MAX_FRAME_BYTES};
use std::alloc::Global;
use std::test::Fail;

/// A commit of offset 10 with the empty text, by group `g` for part 0 of topic `t`.
const COMMIT: [u8; 58] = [
    0x00, 0x00, 0x00, 0x36, 0x00, 0x08, 0x00, 0x02, // size, key, version
    0x00, 0x00, 0x00, 0x01, 0x00, 0x02, 0x70, 0x63, // correlation, client
    0x00, 0x01, 0x67, 0x00, 0x00, 0x00, 0x01, 0x00, 0x00, // group, generation, member
    0xFF, 0xFF, 0xFF, 0xFF, 0xFF, 0xFF, 0xFF, 0xFF, // retention
    0x00, 0x00, 0x00, 0x01, 0x00, 0x01, 0x74, // topics, name
    0x00, 0x00, 0x00, 0x01, 0x00, 0x00, 0x00, 0x00, // items, part
    0x00, 0x00, 0x00, 0x00, 0x00, 0x00, 0x00, 0x0A, 0x00, 0x00, // offset, text
];

/// What it is answered.
const STORED: [u8; 25] = [
    0x00, 0x00, 0x00, 0x15, 0x00, 0x00, 0x00, 0x01, // size, correlation
    0x00, 0x00, 0x00, 0x01, 0x00, 0x01, 0x74, // topics, name
    0x00, 0x00, 0x00, 0x01, 0x00, 0x00, 0x00, 0x00, 0x00, 0x00, // items, part, code
];

/// A fetch of the same.
const FETCH: [u8; 34] = [
    0x00, 0x00, 0x00, 0x1E, 0x00, 0x09, 0x00, 0x01, // size, key, version
    0x00, 0x00, 0x00, 0x02, 0x00, 0x02, 0x70, 0x63, // correlation, client
    0x00, 0x01, 0x67, // group
    0x00, 0x00, 0x00, 0x01, 0x00, 0x01, 0x74, // topics, name
    0x00, 0x00, 0x00, 0x01, 0x00, 0x00, 0x00, 0x00, // parts, part
];

/// What it is answered where nothing is stored.
const NOTHING: [u8; 35] = [
    0x00, 0x00, 0x00, 0x1F, 0x00, 0x00, 0x00, 0x02, // size, correlation
    0x00, 0x00, 0x00, 0x01, 0x00, 0x01, 0x74, // topics, name
    0x00, 0x00, 0x00, 0x01, 0x00, 0x00, 0x00, 0x00, // items, part
    0xFF, 0xFF, 0xFF, 0xFF, 0xFF, 0xFF, 0xFF, 0xFF, 0x00, 0x00, 0x00, 0x00, // offset, text, code
];

/// What it is answered where offset 10 is stored with the empty text.
const TEN: [u8; 35] = [
    0x00, 0x00, 0x00, 0x1F, 0x00, 0x00, 0x00, 0x02, // size, correlation
    0x00, 0x00, 0x00, 0x01, 0x00, 0x01, 0x74, // topics, name
    0x00, 0x00, 0x00, 0x01, 0x00, 0x00, 0x00, 0x00, // items, part
    0x00, 0x00, 0x00, 0x00, 0x00, 0x00, 0x00, 0x0A, 0x00, 0x00, 0x00, 0x00, // offset, text, code
];

#[test]
fn a_commit_is_fetched(rt: HostRuntime) -> Result<(), Fail> {
    let mut broker = OffsetBroker::new(rt.alloc(), "t", 1)?;
    let frames: [(&[u8], &[u8]); 3] = [(&FETCH, &NOTHING), (&COMMIT, &STORED), (&FETCH, &TEN)];
    for (frame, reply) in frames {
        assert_eq!(rt; broker.answer(frame)?.as_slice(), reply);
    }
    Ok(())
}

/// A member, a generation, a topic, a part, how long the metadata is, and the code.
const CODES: [(&str, i32, &str, i32, u32, u8); 7] = [
    ("m2", 4, "u", 1, 4097, 25),
    ("m1", 4, "u", 1, 4097, 22),
    ("m1", 3, "u", 0, 4097, 3),
    ("m1", 3, "t", 1, 4097, 3),
    ("m0", 3, "t", -1, 4097, 3),
    ("m0", 3, "t", 0, 4097, 12),
    ("m0", 3, "t", 0, 4096, 0),
];

#[test]
fn the_first_code_counts(rt: HostRuntime) -> Result<(), Fail> {
    let mut broker = OffsetBroker::new(rt.alloc(), "t", 1)?;
    let members = [
        MemberId::from_str(rt.alloc(), "m0")?,
        MemberId::from_str(rt.alloc(), "m1")?,
    ];
    broker.form("g", 2, &[])?;
    broker.form("g", 3, &members)?;
    for (member, generation, topic, part, len, code) in CODES {
        let mut text = String::new(rt.alloc());
        for _ in 0..len {
            text.push('x')?;
        }
        let items = [CommitItem {
            part,
            position: 7,
            metadata: Some(text.as_str()),
        }];
        let frame = frame_of(rt.alloc(), generation, member, topic, &items)?;
        let reply = broker.answer(frame.as_slice())?;
        assert!(rt; reply.as_slice().ends_with(&[0, code]), "for {code}");
    }
    Ok(())
}

/// A commit request of group `g` for some parts of a topic.
fn frame_of(
    alloc: Global,
    generation: i32,
    member: &str,
    topic: &str,
    items: &[CommitItem<'_>],
) -> Result<Vec<u8>, Fail>
    requires { All IsStorable items.now }
{
    let topics = [CommitTopic { name: topic, items }];
    Ok(write_commit_request(alloc, 1, None, "g", generation, member, -1, &topics)?)
}

#[test]
fn each_item_has_its_code(rt: HostRuntime) -> Result<(), Fail> {
    let mut broker = OffsetBroker::new(rt.alloc(), "t", 1)?;
    // Null counts as the empty text.
    let items = [
        CommitItem {
            part: 7,
            position: 9,
            metadata: Some("x"),
        },
        CommitItem {
            part: 0,
            position: 10,
            metadata: None,
        },
    ];
    let frame = frame_of(rt.alloc(), 1, "", "t", &items)?;
    let reply = broker.answer(frame.as_slice())?;
    let codes = [0, 0, 0, 7, 0, 3, 0, 0, 0, 0, 0, 0];
    assert!(rt; reply.as_slice().ends_with(&codes));
    assert_eq!(rt; broker.answer(&FETCH)?.as_slice(), TEN.as_slice());
    Ok(())
}

#[test]
fn a_commit_is_set_beforehand(rt: HostRuntime) -> Result<(), Fail> {
    let mut broker = OffsetBroker::new(rt.alloc(), "t", 1)?;
    for (part, wanted) in [(1, Err(BrokerFault::UnknownPart)), (0, Ok(()))] {
        let commit = Commit {
            position: 10,
            map: MapText::empty(rt.alloc()),
        };
        assert_eq!(rt; broker.with("g", part, commit), wanted, "at {part}");
    }
    assert_eq!(rt; broker.answer(&FETCH)?.as_slice(), TEN.as_slice());
    Ok(())
}

#[test]
fn a_damaged_frame_changes_nothing(rt: HostRuntime) -> Result<(), Fail> {
    let mut broker = OffsetBroker::new(rt.alloc(), "t", 1)?;
    // The place of a byte, what stands there then, and the fault.
    let cases = [
        (3, 0x37, WireFault::Short),
        (3, 0x35, WireFault::Trailing),
        (5, 0x07, WireFault::BadKey),
        (5, 0x09, WireFault::BadVersion),
        (57, 0x01, WireFault::Short),
    ];
    for (place, byte, fault) in cases {
        let mut frame = COMMIT;
        if place < 58 {
            frame[place] = byte;
        }
        let wanted = BrokerFault::Wire(fault);
        assert_eq!(rt; broker.answer(&frame).err(), Some(wanted), "at {place}");
    }
    assert_eq!(rt;
        broker.answer(&COMMIT[..5]).err(),
        Some(BrokerFault::Wire(WireFault::Short))
    );
    assert_eq!(rt; broker.answer(&FETCH)?.as_slice(), NOTHING.as_slice());
    Ok(())
}

/// Whether the call of a link fails with a frame, if it is one that a link may be given.
fn call(link: &mut FailingLink<OffsetBroker>, frame: &[u8]) -> Option<bool> {
    if frame.len() > MAX_FRAME_BYTES {
        return None;
    }
    let Ok(_) = read_commit_request(frame) else {
        return None;
    };
    Some(link.call(frame) == Err(LinkFault::Failed))
}

#[test]
fn a_failed_call_is_stored_or_not(rt: HostRuntime) -> Result<(), Fail> {
    let mut later = COMMIT;
    later[55] = 0x0B;
    let cases: [(&[u64], &[u64], u8); 2] = [(&[2], &[], 0x0A), (&[], &[2], 0x0B)];
    let mut done = Vec::new(rt.alloc());
    for (fails, late, stored) in cases {
        let broker = OffsetBroker::new(rt.alloc(), "t", 1)?;
        if let Ok(mut link) = FailingLink::new(rt.alloc(), broker, fails, late) {
            assert_eq!(rt; call(&mut link, &COMMIT), Some(false));
            assert_eq!(rt; call(&mut link, &later), Some(true));
            let reply = link.into_link().answer(&FETCH)?;
            assert_eq!(rt; reply.as_slice().get(30), Some(&stored));
            done.push(stored)?;
        }
    }
    assert_eq!(rt; done.as_slice(), [0x0A, 0x0B].as_slice());
    Ok(())
}

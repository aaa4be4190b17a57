//! Worked frames and damaged ones.

use super::*;
use std::test::Fail;

// A commit of the group "g" for part 0 of the topic "t": offset 10 and empty metadata.
const REQUEST: [u8; 58] = [
    // size, api key, api version, correlation id, client id
    0x00, 0x00, 0x00, 0x36, 0x00, 0x08, 0x00, 0x02, 0x00, 0x00, 0x00, 0x01, //
    0x00, 0x02, 0x70, 0x63, //
    // group, generation, member, retention
    0x00, 0x01, 0x67, 0x00, 0x00, 0x00, 0x01, 0x00, 0x00, //
    0xFF, 0xFF, 0xFF, 0xFF, 0xFF, 0xFF, 0xFF, 0xFF, //
    // topics, name, items, part, offset, metadata
    0x00, 0x00, 0x00, 0x01, 0x00, 0x01, 0x74, 0x00, 0x00, 0x00, 0x01, //
    0x00, 0x00, 0x00, 0x00, //
    0x00, 0x00, 0x00, 0x00, 0x00, 0x00, 0x00, 0x0A, 0x00, 0x00,
];

// It was stored.
const REPLY: [u8; 25] = [
    // size, correlation id, topics, name, items, part, code
    0x00, 0x00, 0x00, 0x15, 0x00, 0x00, 0x00, 0x01, //
    0x00, 0x00, 0x00, 0x01, 0x00, 0x01, 0x74, 0x00, 0x00, 0x00, 0x01, //
    0x00, 0x00, 0x00, 0x00, 0x00, 0x00,
];

// What is stored for that part.
const FETCH: [u8; 34] = [
    // size, api key, api version, correlation id, client id
    0x00, 0x00, 0x00, 0x1E, 0x00, 0x09, 0x00, 0x01, 0x00, 0x00, 0x00, 0x02, //
    0x00, 0x02, 0x70, 0x63, //
    // group, topics, name, items, part
    0x00, 0x01, 0x67, 0x00, 0x00, 0x00, 0x01, 0x00, 0x01, 0x74, //
    0x00, 0x00, 0x00, 0x01, 0x00, 0x00, 0x00, 0x00,
];

// Nothing is.
const FETCH_REPLY: [u8; 35] = [
    // size, correlation id, topics, name, items
    0x00, 0x00, 0x00, 0x1F, 0x00, 0x00, 0x00, 0x02, //
    0x00, 0x00, 0x00, 0x01, 0x00, 0x01, 0x74, 0x00, 0x00, 0x00, 0x01, //
    // part, offset, metadata, code
    0x00, 0x00, 0x00, 0x00, 0xFF, 0xFF, 0xFF, 0xFF, 0xFF, 0xFF, 0xFF, 0xFF, //
    0x00, 0x00, 0x00, 0x00,
];

// A commit of several topics, one of them with no part. The client id and a metadata are null.
const LONG_REQUEST: [u8; 100] = [
    // size, api key, api version, correlation id, client id
    0x00, 0x00, 0x00, 0x60, 0x00, 0x08, 0x00, 0x02, 0xFF, 0xFF, 0xFF, 0xFB, 0xFF, 0xFF, //
    // group, generation, member, retention, topics
    0x00, 0x02, 0x67, 0x72, 0xFF, 0xFF, 0xFF, 0xFF, 0x00, 0x01, 0x6D, //
    0x00, 0x00, 0x00, 0x00, 0x00, 0x00, 0x03, 0xE8, 0x00, 0x00, 0x00, 0x03, //
    // name, items, and for each part, offset and metadata
    0x00, 0x01, 0x61, 0x00, 0x00, 0x00, 0x02, //
    0x00, 0x00, 0x00, 0x07, 0x7F, 0xFF, 0xFF, 0xFF, 0xFF, 0xFF, 0xFF, 0xFF, 0x00, 0x01, 0x78, //
    0x00, 0x00, 0x00, 0x01, 0x00, 0x00, 0x00, 0x00, 0x00, 0x00, 0x00, 0x00, 0xFF, 0xFF, //
    0x00, 0x00, 0x00, 0x00, 0x00, 0x00, //
    0x00, 0x01, 0x62, 0x00, 0x00, 0x00, 0x01, //
    0x00, 0x00, 0x00, 0x05, 0x00, 0x00, 0x00, 0x00, 0x00, 0x00, 0x00, 0x03, 0x00, 0x00,
];

// Its reply with the codes 0, 12 and 25.
const LONG_REPLY: [u8; 50] = [
    // size, correlation id, topics
    0x00, 0x00, 0x00, 0x2E, 0xFF, 0xFF, 0xFF, 0xFB, 0x00, 0x00, 0x00, 0x03, //
    // name, items, and for each part and code
    0x00, 0x01, 0x61, 0x00, 0x00, 0x00, 0x02, //
    0x00, 0x00, 0x00, 0x07, 0x00, 0x00, 0x00, 0x00, 0x00, 0x01, 0x00, 0x0C, //
    0x00, 0x00, 0x00, 0x00, 0x00, 0x00, //
    0x00, 0x01, 0x62, 0x00, 0x00, 0x00, 0x01, 0x00, 0x00, 0x00, 0x05, 0x00, 0x19,
];

// A fetch of several topics: "a" twice, and one whose name has two bytes for its one character.
const LONG_FETCH: [u8; 54] = [
    // size, api key, api version, correlation id, client id
    0x00, 0x00, 0x00, 0x32, 0x00, 0x09, 0x00, 0x01, 0x7F, 0xFF, 0xFF, 0xFF, 0xFF, 0xFF, //
    // group, topics
    0x00, 0x00, 0x00, 0x00, 0x00, 0x03, //
    // name, items, parts
    0x00, 0x01, 0x61, 0x00, 0x00, 0x00, 0x02, 0x00, 0x00, 0x00, 0x07, 0xFF, 0xFF, 0xFF, 0xFF, //
    0x00, 0x02, 0xC3, 0xA9, 0x00, 0x00, 0x00, 0x00, //
    0x00, 0x01, 0x61, 0x00, 0x00, 0x00, 0x01, 0x00, 0x00, 0x00, 0x05,
];

// Its reply with the entries of ENTRIES.
const LONG_FETCH_REPLY: [u8; 83] = [
    // size, correlation id, topics
    0x00, 0x00, 0x00, 0x4F, 0x7F, 0xFF, 0xFF, 0xFF, 0x00, 0x00, 0x00, 0x03, //
    // name, items, and for each part, offset, metadata and code
    0x00, 0x01, 0x61, 0x00, 0x00, 0x00, 0x02, //
    0x00, 0x00, 0x00, 0x07, 0x7F, 0xFF, 0xFF, 0xFF, 0xFF, 0xFF, 0xFF, 0xFF, //
    0x00, 0x01, 0x78, 0x00, 0x00, //
    0xFF, 0xFF, 0xFF, 0xFF, 0xFF, 0xFF, 0xFF, 0xFF, 0xFF, 0xFF, 0xFF, 0xFF, //
    0xFF, 0xFF, 0x00, 0x03, //
    0x00, 0x02, 0xC3, 0xA9, 0x00, 0x00, 0x00, 0x00, //
    0x00, 0x01, 0x61, 0x00, 0x00, 0x00, 0x01, //
    0x00, 0x00, 0x00, 0x05, 0x00, 0x00, 0x00, 0x00, 0x00, 0x00, 0x00, 0x00, //
    0x00, 0x00, 0xFF, 0xFF,
];

const ONE_ITEM: [CommitItem<'static>; 1] = [CommitItem {
    part: 0,
    position: 10,
    metadata: Some(""),
}];

const ONE_TOPIC: [CommitTopic<'static>; 1] = [CommitTopic {
    name: "t",
    items: &ONE_ITEM,
}];

const A_ITEMS: [CommitItem<'static>; 2] = [
    CommitItem {
        part: 7,
        position: i64::MAX,
        metadata: Some("x"),
    },
    CommitItem {
        part: 1,
        position: 0,
        metadata: None,
    },
];

const B_ITEMS: [CommitItem<'static>; 1] = [CommitItem {
    part: 5,
    position: 3,
    metadata: Some(""),
}];

const TOPICS: [CommitTopic<'static>; 3] = [
    CommitTopic {
        name: "a",
        items: &A_ITEMS,
    },
    CommitTopic {
        name: "",
        items: &[],
    },
    CommitTopic {
        name: "b",
        items: &B_ITEMS,
    },
];

const ENTRIES: [FetchEntry<'static>; 3] = [
    FetchEntry {
        position: i64::MAX,
        metadata: Some("x"),
        code: 0,
    },
    FetchEntry {
        position: -1,
        metadata: None,
        code: 3,
    },
    FetchEntry {
        position: 0,
        metadata: Some(""),
        code: -1,
    },
];

// The frame with the bytes at some places changed.
fn changed<const N: usize>(frame: &[u8; N], changes: &[(usize, u8)]) -> [u8; N] {
    let mut frame = *frame;
    for (place, byte) in changes {
        if *place < N {
            frame[*place] = *byte;
        }
    }
    frame
}

#[test]
fn a_commit_request(rt: HostRuntime) -> Result<(), Fail> {
    let request = read_commit_request(&REQUEST)?;
    assert_eq!(rt;
        (request.correlation, request.generation, request.retention),
        (1, 1, -1)
    );
    assert!(rt; request.client == Some("pc"));
    assert!(rt; request.group == "g" && request.member.is_empty());
    let mut topics = request.topics();
    let (name, mut items) = topics.next().ok_or("a topic is left")?;
    assert!(rt; name == "t");
    let item = items.next().ok_or("an item is left")?;
    assert_eq!(rt; (item.part, item.position), (0, 10));
    assert!(rt; item.metadata == Some(""));
    assert!(rt; items.next().is_none() && topics.next().is_none());

    let frame = write_commit_request(rt.alloc(), 1, Some("pc"), "g", 1, "", -1, &ONE_TOPIC)?;
    assert_eq!(rt; frame.as_slice(), REQUEST.as_slice());
    let reply = write_commit_reply(rt.alloc(), &request, &[0])?;
    assert_eq!(rt; reply.as_slice(), REPLY.as_slice());
    Ok(())
}

#[test]
fn a_commit_reply(rt: HostRuntime) -> Result<(), Fail> {
    let reply = read_commit_reply(&REPLY)?;
    assert_eq!(rt; reply.correlation, 1);
    let mut topics = reply.topics();
    let (name, mut items) = topics.next().ok_or("a topic is left")?;
    assert!(rt; name == "t");
    assert_eq!(rt; items.next(), Some(CommitCode { part: 0, code: 0 }));
    assert!(rt; items.next().is_none() && topics.next().is_none());
    Ok(())
}

#[test]
fn a_fetch(rt: HostRuntime) -> Result<(), Fail> {
    let request = read_fetch_request(&FETCH)?;
    assert_eq!(rt; request.correlation, 2);
    assert!(rt; request.client == Some("pc") && request.group == "g");
    let mut topics = request.topics();
    let (name, mut parts) = topics.next().ok_or("a topic is left")?;
    assert!(rt; name == "t");
    assert_eq!(rt; parts.next(), Some(0));
    assert!(rt; parts.next().is_none() && topics.next().is_none());

    let topics = [FetchTopic {
        name: "t",
        parts: &[0],
    }];
    let frame = write_fetch_request(rt.alloc(), 2, Some("pc"), "g", &topics)?;
    assert_eq!(rt; frame.as_slice(), FETCH.as_slice());
    let entry = FetchEntry {
        position: -1,
        metadata: Some(""),
        code: 0,
    };
    let reply = write_fetch_reply(rt.alloc(), &request, &[entry])?;
    assert_eq!(rt; reply.as_slice(), FETCH_REPLY.as_slice());
    Ok(())
}

#[test]
fn a_fetch_reply(rt: HostRuntime) -> Result<(), Fail> {
    let reply = read_fetch_reply(&FETCH_REPLY)?;
    assert_eq!(rt; reply.correlation, 2);
    let mut topics = reply.topics();
    let (name, mut items) = topics.next().ok_or("a topic is left")?;
    assert!(rt; name == "t");
    let (part, entry) = items.next().ok_or("an item is left")?;
    assert_eq!(rt; (part, entry.position, entry.code), (0, -1, 0));
    assert!(rt; entry.metadata == Some(""));
    assert!(rt; items.next().is_none() && topics.next().is_none());
    Ok(())
}

#[test]
fn several_topics(rt: HostRuntime) -> Result<(), Fail> {
    let alloc = rt.alloc();
    let frame = write_commit_request(alloc, -5, None, "gr", -1, "m", 1000, &TOPICS)?;
    assert_eq!(rt; frame.as_slice(), LONG_REQUEST.as_slice());
    let topics = [
        FetchTopic {
            name: "a",
            parts: &[7, -1],
        },
        FetchTopic {
            name: "\u{e9}",
            parts: &[],
        },
        FetchTopic {
            name: "a",
            parts: &[5],
        },
    ];
    let frame = write_fetch_request(alloc, i32::MAX, None, "", &topics)?;
    assert_eq!(rt; frame.as_slice(), LONG_FETCH.as_slice());
    Ok(())
}

#[test]
fn replies_to_several_topics(rt: HostRuntime) -> Result<(), Fail> {
    let request = read_commit_request(&LONG_REQUEST)?;
    assert!(rt; request.client.is_none());
    let reply = write_commit_reply(rt.alloc(), &request, &[0, 12, 25])?;
    assert_eq!(rt; reply.as_slice(), LONG_REPLY.as_slice());
    let request = read_fetch_request(&LONG_FETCH)?;
    let reply = write_fetch_reply(rt.alloc(), &request, &ENTRIES)?;
    assert_eq!(rt; reply.as_slice(), LONG_FETCH_REPLY.as_slice());

    let reply = read_fetch_reply(&LONG_FETCH_REPLY)?;
    let (_, mut items) = reply.topics().next().ok_or("a topic is left")?;
    let (part, first) = items.next().ok_or("an item is left")?;
    assert_eq!(rt; (part, first.position), (7, i64::MAX));
    let (part, second) = items.next().ok_or("an item is left")?;
    assert_eq!(rt; (part, second.code), (-1, 3));
    assert!(rt; second.metadata.is_none());
    Ok(())
}

#[test]
fn cut_frames(rt: HostRuntime) {
    for n in 0..REQUEST.len() {
        let found = read_commit_request(&REQUEST[..n]).err();
        assert_eq!(rt; found, Some(WireFault::Short), "the first {n} bytes");
    }
    let mut longer = [0; 59];
    longer[..58].copy_from_slice(&REQUEST);
    let found = read_commit_request(&longer).err();
    assert_eq!(rt; found, Some(WireFault::Trailing));
}

#[test]
fn damaged_requests(rt: HostRuntime) {
    let cases: [(&[(usize, u8)], WireFault); 22] = [
        (&[(0, 0x80)], WireFault::NegativeLength),
        (&[(3, 0x37)], WireFault::Short),
        (&[(3, 0x35)], WireFault::Trailing),
        (&[(5, 9)], WireFault::BadKey),
        (&[(4, 0x80)], WireFault::BadKey),
        (&[(7, 3)], WireFault::BadVersion),
        (&[(5, 9), (7, 3)], WireFault::BadKey),
        (&[(12, 0xFF), (13, 0xFE)], WireFault::NegativeLength),
        (&[(12, 0x7F)], WireFault::Short),
        (&[(14, 0xC3)], WireFault::NotUtf8),
        (&[(16, 0xFF), (17, 0xFF)], WireFault::NegativeLength),
        (&[(18, 0x80)], WireFault::NotUtf8),
        (&[(23, 0xFF)], WireFault::NegativeLength),
        (&[(33, 0x80)], WireFault::NegativeLength),
        // The count of topics lies: it is 2,147,483,647, or 0.
        (
            &[(33, 0x7F), (34, 0xFF), (35, 0xFF), (36, 0xFF)],
            WireFault::Short,
        ),
        (&[(36, 0)], WireFault::Trailing),
        (&[(37, 0x80)], WireFault::NegativeLength),
        (&[(39, 0xFF)], WireFault::NotUtf8),
        (&[(40, 0xFF)], WireFault::NegativeLength),
        (&[(43, 2)], WireFault::Short),
        (&[(48, 0x80)], WireFault::BadOffset),
        (&[(56, 0xFF), (57, 0xFE)], WireFault::NegativeLength),
    ];
    for (changes, fault) in cases {
        let frame = changed(&REQUEST, changes);
        assert_eq!(rt;
            read_commit_request(&frame).err(),
            Some(fault),
            "with {changes:?}"
        );
    }
}

#[test]
fn damaged_others(rt: HostRuntime) {
    let fetches: [(&[(usize, u8)], WireFault); 4] = [
        (&[(5, 8)], WireFault::BadKey),
        (&[(7, 2)], WireFault::BadVersion),
        (&[(29, 0)], WireFault::Trailing),
        (&[(29, 2)], WireFault::Short),
    ];
    for (changes, fault) in fetches {
        let frame = changed(&FETCH, changes);
        assert_eq!(rt;
            read_fetch_request(&frame).err(),
            Some(fault),
            "with {changes:?}"
        );
    }
    let replies: [(&[(usize, u8)], WireFault); 3] = [
        (&[(30, 0xFE)], WireFault::BadOffset),
        (&[(14, 0x80)], WireFault::NotUtf8),
        (&[(18, 0)], WireFault::Trailing),
    ];
    for (changes, fault) in replies {
        let frame = changed(&FETCH_REPLY, changes);
        assert_eq!(rt;
            read_fetch_reply(&frame).err(),
            Some(fault),
            "with {changes:?}"
        );
    }
    let frame = changed(&REPLY, &[(11, 2)]);
    assert_eq!(rt; read_commit_reply(&frame).err(), Some(WireFault::Short));
}

#[test]
fn texts_that_are_too_long(rt: HostRuntime) -> Result<(), Fail> {
    let alloc = rt.alloc();
    let long = vec![in alloc; b'a'; 32_768]?;
    let text = str::from_utf8(&long)?;
    let fits = str::from_utf8(&long[..32_767])?;
    let frame = write_fetch_request(alloc, 1, Some(fits), fits, &[])?;
    assert_eq!(rt; frame.len(), 65_554);
    let cases = [(Some(text), "", ""), (None, text, ""), (None, "", text)];
    for (client, group, name) in cases {
        let topics = [FetchTopic { name, parts: &[] }];
        let refused = write_fetch_request(alloc, 1, client, group, &topics).err();
        assert_eq!(rt; refused, Some(WireWriteFault::TooLong));
    }
    let request = read_fetch_request(&FETCH)?;
    let entry = FetchEntry {
        position: 0,
        metadata: Some(text),
        code: 0,
    };
    let refused = write_fetch_reply(alloc, &request, &[entry]).err();
    assert_eq!(rt; refused, Some(WireWriteFault::TooLong));
    Ok(())
}

#[test]
fn faults_print(rt: HostRuntime) -> Result<(), Fail> {
    let cases = [
        (WireWriteFault::TooLong, "a text or the frame is too long"),
        (WireWriteFault::NoMemory, "out of memory"),
    ];
    for (fault, text) in cases {
        assert_eq!(rt; fault.to_string(rt.alloc())?.as_str(), text);
    }
    Ok(())
}

//! Worked batches and damaged ones.

use super::*;
use pc_bytes::crc32c;
use std::test::Fail;

// Three records: (0, "a", "x"), (1, "b", "yy") and (2, "a", "zzz"), all at time 0.
const LOG: [u8; 91] = [
    // baseOffset, batchLength, partitionLeaderEpoch, magic, crc
    0x00, 0x00, 0x00, 0x00, 0x00, 0x00, 0x00, 0x00, //
    0x00, 0x00, 0x00, 0x4F, 0x00, 0x00, 0x00, 0x00, 0x02, 0xD6, 0xFC, 0x11, 0xEE, //
    // attributes, lastOffsetDelta, baseTimestamp, maxTimestamp
    0x00, 0x00, 0x00, 0x00, 0x00, 0x02, //
    0x00, 0x00, 0x00, 0x00, 0x00, 0x00, 0x00, 0x00, //
    0x00, 0x00, 0x00, 0x00, 0x00, 0x00, 0x00, 0x00, //
    // producerId, producerEpoch, baseSequence, recordsCount
    0xFF, 0xFF, 0xFF, 0xFF, 0xFF, 0xFF, 0xFF, 0xFF, //
    0xFF, 0xFF, 0xFF, 0xFF, 0xFF, 0xFF, 0x00, 0x00, 0x00, 0x03, //
    // the records, at 61, 70 and 80
    0x10, 0x00, 0x00, 0x00, 0x02, 0x61, 0x02, 0x78, 0x00, //
    0x12, 0x00, 0x00, 0x02, 0x02, 0x62, 0x04, 0x79, 0x79, 0x00, //
    0x14, 0x00, 0x00, 0x04, 0x02, 0x61, 0x06, 0x7A, 0x7A, 0x7A, 0x00,
];

// The log with the bytes at some places changed, and its crc made anew where it covers a change.
fn changed(changes: &[(usize, u8)]) -> [u8; 91] {
    let mut log = LOG;
    let mut covered = false;
    for (place, byte) in changes {
        if *place < 91 {
            log[*place] = *byte;
        }
        covered = covered || *place >= 21;
    }
    if covered {
        let crc = crc32c(&log[21..]).to_be_bytes();
        log[17] = crc[0];
        log[18] = crc[1];
        log[19] = crc[2];
        log[20] = crc[3];
    }
    log
}

fn bad(place: u64, kind: RecordKind) -> BatchFault {
    BatchFault::BadRecord { place, kind }
}

#[test]
fn damaged_logs(rt: HostRuntime) {
    let cases: [(&[(usize, u8)], BatchFault); 24] = [
        (&[(16, 1)], BatchFault::BadMagic(1)),
        (&[(16, 0xFE)], BatchFault::BadMagic(-2)),
        (
            &[(8, 0xFF), (9, 0xFF), (10, 0xFF), (11, 0xFF)],
            BatchFault::BadLength(-1),
        ),
        (&[(11, 48)], BatchFault::BadLength(48)),
        (&[(11, 80)], BatchFault::Short { place: 0, need: 92 }),
        (
            &[
                (0, 0xFF),
                (1, 0xFF),
                (2, 0xFF),
                (3, 0xFF),
                (4, 0xFF),
                (5, 0xFF),
                (6, 0xFF),
                (7, 0xFF),
            ],
            BatchFault::OffsetRange { base: -1, delta: 2 },
        ),
        (
            &[(60, 4)],
            BatchFault::Count {
                header: 4,
                found: 3,
            },
        ),
        (
            &[(57, 0xFF), (58, 0xFF), (59, 0xFF), (60, 0xFF)],
            BatchFault::Count {
                header: -1,
                found: 3,
            },
        ),
        (&[(22, 4)], BatchFault::Compressed(4)),
        (&[(26, 1)], bad(80, RecordKind::Delta)),
        (&[(73, 0)], bad(70, RecordKind::Delta)),
        (&[(64, 1)], bad(61, RecordKind::Delta)),
        (&[(65, 3)], bad(61, RecordKind::KeyLength)),
        (&[(67, 3)], bad(61, RecordKind::ValueLength)),
        (&[(69, 1)], bad(61, RecordKind::HeaderCount)),
        (&[(61, 0x12)], bad(61, RecordKind::Leftover)),
        (&[(61, 1)], bad(61, RecordKind::Length)),
        (&[(80, 0x16)], bad(80, RecordKind::Length)),
        (&[(80, 0)], bad(80, RecordKind::Past)),
        (&[(84, 0x7E)], bad(80, RecordKind::Past)),
        (&[(69, 0x80)], bad(61, RecordKind::Varint)),
        (
            &[(86, 0), (87, 2), (88, 1)],
            bad(80, RecordKind::HeaderKeyLength),
        ),
        (
            &[(86, 0), (87, 2), (88, 0), (89, 3)],
            bad(80, RecordKind::HeaderValueLength),
        ),
        (
            &[
                (27, 0x7F),
                (28, 0xFF),
                (29, 0xFF),
                (30, 0xFF),
                (31, 0xFF),
                (32, 0xFF),
                (33, 0xFF),
                (34, 0xFF),
                (63, 2),
            ],
            bad(61, RecordKind::Time),
        ),
    ];
    for (changes, fault) in cases {
        let found = read_batch(&changed(changes), 0).err();
        assert_eq!(rt; found, Some(fault), "with {changes:?}");
    }
}

#[test]
fn another_byte_than_the_crc_covers(rt: HostRuntime) {
    let mut log = LOG;
    log[68] = 0x77;
    let fault = BatchFault::BadCrc {
        stored: 3_606_843_886,
        found: 981_511_524,
    };
    assert_eq!(rt; read_batch(&log, 0).err(), Some(fault));
}

#[test]
fn cut_logs(rt: HostRuntime) {
    for len in 1..91usize {
        let need = if len < 61 { 61 } else { 91 };
        let found = read_batch(&LOG[..len], 0).err();
        assert_eq!(rt;
            found,
            Some(BatchFault::Short { place: 0, need }),
            "at {len}"
        );
    }
    for place in [91, u64::MAX] {
        let found = read_batch(&LOG, place).err();
        assert_eq!(rt; found, Some(BatchFault::Short { place, need: 61 }));
    }
}

#[test]
fn records(rt: HostRuntime) -> Result<(), Fail> {
    let cases: [(u64, &[u8], &[u8]); 3] = [(0, b"a", b"x"), (1, b"b", b"yy"), (2, b"a", b"zzz")];
    let batch = read_batch(&LOG, 0).ok().ok_or("the bytes are a batch")?;
    assert_eq!(rt;
        (batch.base_offset(), batch.last_offset(), batch.end()),
        (0, 2, 91)
    );
    assert_eq!(rt; batch.count(), 3);
    let mut records = batch.records();
    for (offset, key, value) in cases {
        let record = records.next().ok_or("a record is left")?;
        assert_eq!(rt; (record.offset, record.time), (offset, 0));
        assert!(rt; record.key == Some(key), "the key at {offset}");
        assert!(rt; record.value == Some(value), "the value at {offset}");
        let mut headers = record.headers;
        assert!(rt; headers.next().is_none());
    }
    assert!(rt; records.next().is_none());
    Ok(())
}

#[test]
fn headers_times_and_control(rt: HostRuntime) -> Result<(), Fail> {
    // The last record has the header "k" without a value, and all have the greatest time, 5.
    let log = changed(&[
        (22, 8),
        (42, 5),
        (86, 1),
        (87, 2),
        (88, 2),
        (89, 0x6B),
        (90, 1),
    ]);
    let batch = read_batch(&log, 0).ok().ok_or("the bytes are a batch")?;
    let record = batch.records().last().ok_or("a record is left")?;
    assert_eq!(rt; record.time, 5);
    assert!(rt; record.value.is_none());
    let mut headers = record.headers;
    let (key, value) = headers.next().ok_or("a header is left")?;
    assert_eq!(rt; key, b"k".as_slice());
    assert!(rt; value.is_none());
    assert!(rt; headers.next().is_none());

    let log = changed(&[(22, 0x20)]);
    let batch = read_batch(&log, 0).ok().ok_or("the bytes are a batch")?;
    assert_eq!(rt; batch.count(), 0);
    assert!(rt; batch.records().next().is_none());
    Ok(())
}

// Whether the last records of two changed logs are the same, where they read.
fn are_same(one: &[(usize, u8)], other: &[(usize, u8)]) -> Option<bool> {
    let (one, other) = (changed(one), changed(other));
    let one = read_batch(&one, 0).ok()?.records().last()?;
    let other = read_batch(&other, 0).ok()?.records().last()?;
    Some(one.is_same(&other))
}

// The value is null, and there is the header "k" without a value.
const HEADER: &[(usize, u8)] = &[(86, 1), (87, 2), (88, 2), (89, 0x6B), (90, 1)];

#[test]
fn records_differ_in_each_field(rt: HostRuntime) {
    let cases: [(&[(usize, u8)], &[(usize, u8)], bool); 9] = [
        (&[], &[], true),
        (HEADER, HEADER, true),
        (&[], &[(7, 1)], false),
        (&[], &[(82, 2)], false),
        (&[], &[(85, 0x62)], false),
        (&[], &[(88, 0x7B)], false),
        // The value is empty, the header has another key, or an empty value.
        (
            HEADER,
            &[(86, 0), (87, 2), (88, 2), (89, 0x6B), (90, 1)],
            false,
        ),
        (
            HEADER,
            &[(86, 1), (87, 2), (88, 2), (89, 0x6C), (90, 1)],
            false,
        ),
        (
            HEADER,
            &[(86, 1), (87, 2), (88, 2), (89, 0x6B), (90, 0)],
            false,
        ),
    ];
    for (one, other, same) in cases {
        assert_eq!(rt; are_same(one, other), Some(same), "{one:?} and {other:?}");
    }
}

#[test]
fn a_second_batch(rt: HostRuntime) -> Result<(), Fail> {
    let mut log = [0; 182];
    log[..91].copy_from_slice(&LOG);
    log[91..].copy_from_slice(&LOG);
    let batch = read_batch(&log, 91).ok().ok_or("the bytes are a batch")?;
    assert_eq!(rt; batch.end(), 182);
    log[91..].copy_from_slice(&changed(&[(73, 0)]));
    assert_eq!(rt;
        read_batch(&log, 91).err(),
        Some(bad(161, RecordKind::Delta))
    );
    Ok(())
}

#[test]
fn faults_print(rt: HostRuntime) -> Result<(), Fail> {
    let cases = [
        (BatchFault::Short { place: 0, need: 61 }, "short 0 61"),
        (BatchFault::BadMagic(-1), "magic -1"),
        (BatchFault::BadLength(48), "length 48"),
        (
            BatchFault::BadCrc {
                stored: 1,
                found: 2,
            },
            "crc 1 2",
        ),
        (BatchFault::Compressed(4), "compressed 4"),
        (
            BatchFault::OffsetRange { base: -1, delta: 2 },
            "offset-range -1 2",
        ),
        (
            bad(61, RecordKind::HeaderKeyLength),
            "record 61 headerkeylength",
        ),
        (
            BatchFault::Count {
                header: 4,
                found: 3,
            },
            "count 4 3",
        ),
    ];
    for (fault, text) in cases {
        assert_eq!(rt; fault.to_string(rt.alloc())?.as_str(), text);
    }
    Ok(())
}

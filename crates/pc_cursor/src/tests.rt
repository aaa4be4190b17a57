//! Logs that are read and logs that are refused.

use super::*;
use pc_batch::{BatchFault, RecordKind};
use std::test::Fail;

// One batch with the offsets 0 to 2 and no records.
const EMPTY_BATCH: [u8; 61] = [
    // baseOffset, batchLength, partitionLeaderEpoch, magic, crc
    0x00, 0x00, 0x00, 0x00, 0x00, 0x00, 0x00, 0x00, //
    0x00, 0x00, 0x00, 0x31, 0x00, 0x00, 0x00, 0x00, 0x02, 0x00, 0x00, 0x00, 0x00, //
    // attributes, lastOffsetDelta, baseTimestamp, maxTimestamp
    0x00, 0x00, 0x00, 0x00, 0x00, 0x02, //
    0x00, 0x00, 0x00, 0x00, 0x00, 0x00, 0x00, 0x00, //
    0x00, 0x00, 0x00, 0x00, 0x00, 0x00, 0x00, 0x00, //
    // producerId, producerEpoch, baseSequence, recordsCount
    0xFF, 0xFF, 0xFF, 0xFF, 0xFF, 0xFF, 0xFF, 0xFF, //
    0xFF, 0xFF, 0xFF, 0xFF, 0xFF, 0xFF, 0x00, 0x00, 0x00, 0x00,
];

// The batch with another base offset. The crc does not cover it.
fn batch(base: u8) -> [u8; 61] {
    let mut batch = EMPTY_BATCH;
    let crc = pc_bytes::crc32c(&batch[21..]).to_be_bytes();
    batch[17] = crc[0];
    batch[18] = crc[1];
    batch[19] = crc[2];
    batch[20] = crc[3];
    batch[7] = base;
    batch
}

// Two batches, with these base offsets.
fn two(first: u8, second: u8) -> [u8; 122] {
    let mut log = [0; 122];
    log[..61].copy_from_slice(&batch(first));
    log[61..].copy_from_slice(&batch(second));
    log
}

fn bad(place: u64, fault: LogFaultKind) -> CheckFault {
    CheckFault::Bad(LogFault { place, fault })
}

#[test]
fn logs(rt: HostRuntime) {
    let falls = |last, next| LogFaultKind::OffsetsFall { last, next };
    let cases: [(u8, u8, Option<CheckFault>); 4] = [
        (0, 3, None),
        (0, 9, None),
        (0, 2, Some(bad(61, falls(2, 2)))),
        (4, 0, Some(bad(61, falls(6, 0)))),
    ];
    for (first, second, fault) in cases {
        let log = two(first, second);
        let found = Log::check(rt.alloc(), &log).err();
        assert_eq!(rt; found, fault, "from {first} and {second}");
    }
}

// One batch with the records (0, "a", "x"), (1, "b", "yy") and (2, "a", "zzz").
const THREE_RECORDS: [u8; 91] = [
    0x00, 0x00, 0x00, 0x00, 0x00, 0x00, 0x00, 0x00, //
    0x00, 0x00, 0x00, 0x4F, 0x00, 0x00, 0x00, 0x00, 0x02, 0xD6, 0xFC, 0x11, 0xEE, //
    0x00, 0x00, 0x00, 0x00, 0x00, 0x02, //
    0x00, 0x00, 0x00, 0x00, 0x00, 0x00, 0x00, 0x00, //
    0x00, 0x00, 0x00, 0x00, 0x00, 0x00, 0x00, 0x00, //
    0xFF, 0xFF, 0xFF, 0xFF, 0xFF, 0xFF, 0xFF, 0xFF, //
    0xFF, 0xFF, 0xFF, 0xFF, 0xFF, 0xFF, 0x00, 0x00, 0x00, 0x03, //
    0x10, 0x00, 0x00, 0x00, 0x02, 0x61, 0x02, 0x78, 0x00, //
    0x12, 0x00, 0x00, 0x02, 0x02, 0x62, 0x04, 0x79, 0x79, 0x00, //
    0x14, 0x00, 0x00, 0x04, 0x02, 0x61, 0x06, 0x7A, 0x7A, 0x7A, 0x00,
];

// The three records with the byte at a place changed, and the crc made anew where it covers it.
fn changed(place: usize, byte: u8) -> [u8; 91] {
    let mut log = THREE_RECORDS;
    if place < 91 {
        log[place] = byte;
    }
    if place >= 21 {
        let crc = pc_bytes::crc32c(&log[21..]).to_be_bytes();
        log[17] = crc[0];
        log[18] = crc[1];
        log[19] = crc[2];
        log[20] = crc[3];
    }
    log
}

#[test]
fn damaged_logs(rt: HostRuntime) {
    let record = |place, kind| BatchFault::BadRecord { place, kind };
    let cases: [(usize, u8, BatchFault); 11] = [
        (16, 1, BatchFault::BadMagic(1)),
        (11, 48, BatchFault::BadLength(48)),
        (11, 80, BatchFault::Short { place: 0, need: 92 }),
        (22, 4, BatchFault::Compressed(4)),
        (
            60,
            4,
            BatchFault::Count {
                header: 4,
                found: 3,
            },
        ),
        (26, 1, record(80, RecordKind::Delta)),
        (73, 0, record(70, RecordKind::Delta)),
        (65, 3, record(61, RecordKind::KeyLength)),
        (69, 1, record(61, RecordKind::HeaderCount)),
        (61, 0x12, record(61, RecordKind::Leftover)),
        (
            17,
            0,
            BatchFault::BadCrc {
                stored: 0x00FC_11EE,
                found: 0xD6FC_11EE,
            },
        ),
    ];
    for (place, byte, fault) in cases {
        let log = changed(place, byte);
        let found = Log::check(rt.alloc(), &log).err();
        let fault = bad(0, LogFaultKind::Batch(fault));
        assert_eq!(rt; found, Some(fault), "{byte} at {place}");
    }
}

#[test]
fn cut_logs(rt: HostRuntime) {
    for len in 1..91usize {
        let need = if len < 61 { 61 } else { 91 };
        let found = Log::check(rt.alloc(), &THREE_RECORDS[..len]).err();
        let short = BatchFault::Short { place: 0, need };
        let fault = bad(0, LogFaultKind::Batch(short));
        assert_eq!(rt; found, Some(fault), "at {len}");
    }
}

#[test]
fn two_logs_in_one_file(rt: HostRuntime) {
    let mut log = [0; 182];
    log[..91].copy_from_slice(&THREE_RECORDS);
    log[91..].copy_from_slice(&THREE_RECORDS);
    let found = Log::check(rt.alloc(), &log).err();
    let falls = LogFaultKind::OffsetsFall { last: 2, next: 0 };
    assert_eq!(rt; found, Some(bad(91, falls)));
}

#[test]
fn control_batch(rt: HostRuntime) -> Result<(), Fail> {
    let bytes = changed(22, 0x20);
    let log = Log::check(rt.alloc(), &bytes)?;
    assert_eq!(rt; log.records(), 0);
    assert_eq!(rt; (log.first(), log.last()), (None, None));
    assert!(rt; !log.has(1));
    assert!(rt; log.cursor().next().is_none());
    Ok(())
}

// A batch without records, and then one with three, from the offset 9 on.
fn three_behind_none() -> [u8; 152] {
    let mut log = [0; 152];
    log[..61].copy_from_slice(&batch(0));
    log[61..].copy_from_slice(&THREE_RECORDS);
    log[68] = 9;
    log
}

// The same, and then a batch with three records from the offset 20 on.
fn three_and_three() -> [u8; 243] {
    let mut log = [0; 243];
    log[..152].copy_from_slice(&three_behind_none());
    log[152..].copy_from_slice(&THREE_RECORDS);
    log[159] = 20;
    log
}

#[test]
fn a_cursor_goes_over_all_batches(rt: HostRuntime) -> Result<(), Fail> {
    let bytes = three_and_three();
    let log = Log::check(rt.alloc(), &bytes)?;
    let mut cursor = log.cursor();
    for offset in [9, 10, 11, 20, 21, 22] {
        let record = cursor.next().ok_or("a record is left")?;
        assert_eq!(rt; record.offset, offset);
    }
    assert!(rt; cursor.next().is_none());
    Ok(())
}

#[test]
fn a_cursor_seeks_forwards_and_backwards(rt: HostRuntime) -> Result<(), Fail> {
    let cases: [(u64, Option<u64>); 11] = [
        (22, Some(22)),
        (23, None),
        (0, Some(9)),
        (9, Some(9)),
        (10, Some(10)),
        (11, Some(11)),
        (12, Some(20)),
        (19, Some(20)),
        (20, Some(20)),
        (u64::MAX, None),
        (1, Some(9)),
    ];
    let bytes = three_and_three();
    let log = Log::check(rt.alloc(), &bytes)?;
    let mut cursor = log.cursor();
    for (offset, next) in cases {
        cursor.seek(offset);
        let found = cursor.next().map(|record| record.offset);
        assert_eq!(rt; found, next, "from {offset}");
        assert_eq!(rt; log.has(offset), next == Some(offset), "{offset}");
    }
    Ok(())
}

#[test]
fn what_a_log_has(rt: HostRuntime) -> Result<(), Fail> {
    let long = three_and_three();
    let cases: [(&[u8], u64, Option<u64>, Option<u64>); 4] = [
        (&[], 0, None, None),
        (&two(0, 3), 0, None, None),
        (&THREE_RECORDS, 3, Some(0), Some(2)),
        (&long, 6, Some(9), Some(22)),
    ];
    for (bytes, records, first, last) in cases {
        let log = Log::check(rt.alloc(), bytes)?;
        let found = (log.records(), log.first(), log.last());
        assert_eq!(rt; found, (records, first, last));
    }
    Ok(())
}

// Two batches, of which the second says that it goes on past the end.
fn cut() -> [u8; 122] {
    let mut log = two(0, 3);
    log[72] = 0x50;
    log
}

#[test]
fn the_empty_log_and_a_cut_one(rt: HostRuntime) {
    assert!(rt; Log::check(rt.alloc(), &[]).is_ok());
    let log = cut();
    let short = BatchFault::Short {
        place: 61,
        need: 92,
    };
    let found = Log::check(rt.alloc(), &log).err();
    assert_eq!(rt; found, Some(bad(61, LogFaultKind::Batch(short))));
}

#[test]
fn faults_print(rt: HostRuntime) -> Result<(), Fail> {
    let falls = bad(91, LogFaultKind::OffsetsFall { last: 2, next: 0 });
    assert_eq!(rt;
        falls.to_string(rt.alloc())?.as_str(),
        "at 91 offsets-fall 2 0"
    );
    let magic = bad(0, LogFaultKind::Batch(BatchFault::BadMagic(1)));
    assert_eq!(rt; magic.to_string(rt.alloc())?.as_str(), "at 0 magic 1");
    let memory = CheckFault::NoMemory;
    assert_eq!(rt; memory.to_string(rt.alloc())?.as_str(), "out of memory");
    Ok(())
}

//! Logs of parts, and what is polled of them.

use super::*;
use pc_bytes::{crc32c, write_varint};
use pc_cursor::Log;
use std::alloc::Global;
use std::test::Fail;

// One batch with the records (0, "a", "x"), (1, "b", "yy") and (2, "a", "zzz").
const THREE_RECORDS: [u8; 91] = [
    0x00, 0x00, 0x00, 0x00, 0x00, 0x00, 0x00, 0x00, //
    0x00, 0x00, 0x00, 0x4F, 0x00, 0x00, 0x00, 0x00, 0x02, 0xD6, 0xFC, 0x11, 0xEE, //
    0x00, 0x00, 0x00, 0x00, 0x00, 0x02, //
    0x00, 0x00, 0x00, 0x00, 0x00, 0x00, 0x00, 0x00, //
    0x00, 0x00, 0x00, 0x00, 0x00, 0x00, 0x00, 0x00, //
    0xFF, 0xFF, 0xFF, 0xFF, 0xFF, 0xFF, 0xFF, 0xFF, //
    0xFF, 0xFF, 0xFF, 0xFF, 0xFF, 0xFF, 0x00, 0x00, 0x00, 0x03, //
    0x10, 0x00, 0x00, 0x00, 0x02, 0x61, 0x02, 0x78, 0x00, //
    0x12, 0x00, 0x00, 0x02, 0x02, 0x62, 0x04, 0x79, 0x79, 0x00, //
    0x14, 0x00, 0x00, 0x04, 0x02, 0x61, 0x06, 0x7A, 0x7A, 0x7A, 0x00,
];

// Three records from the offset 0 on, and three from 20 on.
fn six_records() -> [u8; 182] {
    let mut log = [0; 182];
    log[..91].copy_from_slice(&THREE_RECORDS);
    log[91..].copy_from_slice(&THREE_RECORDS);
    log[98] = 20;
    log
}

// The logs of one part.
fn one_log<'a>(alloc: Global, part: u32, bytes: &'a [u8]) -> Result<BrokerLogs<'a>, Fail> {
    let mut logs = BrokerLogs::new(alloc);
    let log = Log::check(alloc, bytes)?;
    logs.add(part, log)?;
    Ok(logs)
}

#[test]
fn parts_of_logs(rt: HostRuntime) -> Result<(), Fail> {
    let bytes = six_records();
    let mut logs = BrokerLogs::new(rt.alloc());
    assert_eq!(rt; logs.parts(), 0);
    let cases: [(u32, Option<AddFault>, u32); 6] = [
        (5, None, 6),
        (2, None, 6),
        (5, Some(AddFault::TwiceGiven), 6),
        (1024, Some(AddFault::UnknownPart), 6),
        (u32::MAX, Some(AddFault::UnknownPart), 6),
        (1023, None, 1024),
    ];
    for (part, fault, parts) in cases {
        let log = Log::check(rt.alloc(), &bytes)?;
        assert_eq!(rt; logs.add(part, log).err(), fault, "part {part}");
        assert_eq!(rt; logs.parts(), parts, "after part {part}");
    }
    for (part, records) in [(2, Some(6)), (3, None), (5, Some(6)), (1024, None)] {
        let found = logs.log(part).map(|log| log.records());
        assert_eq!(rt; found, records, "part {part}");
    }
    Ok(())
}

// A thousand records at one time, without keys and values.
fn thousand_records(alloc: Global) -> Result<Vec<u8>, Fail> {
    // attributes, lastOffsetDelta, baseTimestamp, maxTimestamp
    let mut covered = Vec::from_slice(alloc, &[0, 0, 0, 0, 0x03, 0xE7])?;
    covered.extend_from_slice(&[0; 16])?;
    // producerId, producerEpoch, baseSequence, recordsCount
    covered.extend_from_slice(&[0xFF; 14])?;
    covered.extend_from_slice(&[0, 0, 0x03, 0xE8])?;
    for delta in 0..1000i32 {
        write_varint(&mut covered, if delta < 64 { 6 } else { 7 })?;
        covered.extend_from_slice(&[0, 0])?;
        write_varint(&mut covered, delta)?;
        covered.extend_from_slice(&[1, 1, 0])?;
    }
    // baseOffset, batchLength, partitionLeaderEpoch, magic, crc
    let mut log = Vec::from_slice(alloc, &[0; 8])?;
    let length = u32::try_from(covered.len()).map_err(|_| "too long")?;
    log.extend_from_slice(&length.saturating_add(9).to_be_bytes())?;
    log.extend_from_slice(&[0, 0, 0, 0, 2])?;
    log.extend_from_slice(&crc32c(&covered).to_be_bytes())?;
    log.extend_from_slice(&covered)?;
    Ok(log)
}

// It reads a million records: too many for `rt try`.
#[test]
fn a_million_records_and_no_more(rt: HostRuntime) -> Result<(), Fail> {
    let bytes = thousand_records(rt.alloc())?;
    let mut logs = BrokerLogs::new(rt.alloc());
    for part in 0..1000u32 {
        let log = Log::check(rt.alloc(), &bytes)?;
        assert!(rt; logs.add(part, log).is_ok(), "part {part}");
    }
    let log = Log::check(rt.alloc(), &THREE_RECORDS)?;
    let fault = Some(AddFault::TooManyRecords);
    assert_eq!(rt; logs.add(1000, log).err(), fault);
    assert_eq!(rt; logs.parts(), 1000);
    Ok(())
}

// How many records there are, and the first and the last offset.
fn seen(polled: Polled<'_>) -> (u64, Option<u64>, Option<u64>) {
    let mut count: u64 = 0;
    let mut first = None;
    let mut last = None;
    for record in polled {
        count = count.saturating_add(1);
        first = first.or(Some(record.offset));
        last = Some(record.offset);
    }
    (count, first, last)
}

#[test]
fn polls(rt: HostRuntime) -> Result<(), Fail> {
    let bytes = six_records();
    let logs = one_log(rt.alloc(), 0, &bytes)?;
    let cases: [(u64, u32, u64, Option<u64>, Option<u64>); 7] = [
        (0, 9, 6, Some(0), Some(22)),
        (0, 3, 3, Some(0), Some(2)),
        (1, 3, 3, Some(1), Some(20)),
        (3, 2, 2, Some(20), Some(21)),
        (22, 9, 1, Some(22), Some(22)),
        (23, 9, 0, None, None),
        (0, 0, 0, None, None),
    ];
    for (from, max, count, first, last) in cases {
        let cursor = logs.cursor(0, from).ok_or("the part has a log")?;
        let polled = Polled::new(cursor, max, u64::MAX);
        assert_eq!(rt; seen(polled), (count, first, last), "{max} from {from}");
    }
    assert!(rt; logs.cursor(1, 0).is_none());
    Ok(())
}

// The length of the value of the part's record at the offset.
fn length_at(logs: &BrokerLogs<'_>, part: u32, offset: u64) -> Option<usize> {
    Some(logs.record(part, offset)?.value?.len())
}

#[test]
fn records_at_offsets(rt: HostRuntime) -> Result<(), Fail> {
    let bytes = six_records();
    let logs = one_log(rt.alloc(), 3, &bytes)?;
    let cases: [(u32, u64, Option<usize>); 6] = [
        (3, 0, Some(1)),
        (3, 2, Some(3)),
        (3, 3, None),
        (3, 21, Some(2)),
        (3, 23, None),
        (4, 0, None),
    ];
    for (part, offset, len) in cases {
        assert_eq!(rt; length_at(&logs, part, offset), len, "{offset} of {part}");
    }
    Ok(())
}

#[test]
fn polls_up_to_an_offset(rt: HostRuntime) -> Result<(), Fail> {
    let bytes = six_records();
    let logs = one_log(rt.alloc(), 7, &bytes)?;
    let cases: [(u64, u64, u64, Option<u64>, Option<u64>); 6] = [
        (0, 0, 1, Some(0), Some(0)),
        (1, 20, 3, Some(1), Some(20)),
        (1, 19, 2, Some(1), Some(2)),
        (3, 19, 0, None, None),
        (21, u64::MAX, 2, Some(21), Some(22)),
        (2, 1, 0, None, None),
    ];
    for (from, upto, count, first, last) in cases {
        let cursor = logs.cursor(7, from).ok_or("the part has a log")?;
        let polled = Polled::new(cursor, 9, upto);
        assert_eq!(rt; seen(polled), (count, first, last), "{from} to {upto}");
    }
    Ok(())
}

#[test]
fn faults_print(rt: HostRuntime) -> Result<(), Fail> {
    let cases = [
        (AddFault::UnknownPart, "unknown part"),
        (AddFault::TwiceGiven, "the part has a log"),
        (AddFault::TooManyRecords, "too many records"),
        (AddFault::NoMemory, "out of memory"),
    ];
    for (fault, text) in cases {
        assert_eq!(rt; fault.to_string(rt.alloc())?.as_str(), text);
    }
    Ok(())
}

//! Worked batches, and each fault.

use crate::{NewHeader, NewRecord, WriteFault, generate, write_batch};
use pc_batch::read_batch;
use std::alloc::{AllocError, Global};
use std::test::Fail;

/// A record at time 0 without headers.
fn record<'a>(offset: u64, key: Option<&'a [u8]>, value: Option<&'a [u8]>) -> NewRecord<'a> {
    NewRecord {
        offset,
        time: 0,
        key,
        value,
        headers: &[],
    }
}

// The records (0, "a", "x"), (1, "b", "yy") and (2, "a", "zzz") at time 0.
const THREE_RECORDS: [u8; 91] = [
    // base offset, length
    0x00, 0x00, 0x00, 0x00, 0x00, 0x00, 0x00, 0x00, 0x00, 0x00, 0x00, 0x4F, //
    // leader epoch, magic, checksum
    0x00, 0x00, 0x00, 0x00, 0x02, 0xD6, 0xFC, 0x11, 0xEE, //
    // attributes, last delta, base time, greatest time
    0x00, 0x00, 0x00, 0x00, 0x00, 0x02, //
    0x00, 0x00, 0x00, 0x00, 0x00, 0x00, 0x00, 0x00, //
    0x00, 0x00, 0x00, 0x00, 0x00, 0x00, 0x00, 0x00, //
    // producer, count
    0xFF, 0xFF, 0xFF, 0xFF, 0xFF, 0xFF, 0xFF, 0xFF, //
    0xFF, 0xFF, 0xFF, 0xFF, 0xFF, 0xFF, 0x00, 0x00, 0x00, 0x03, //
    // records
    0x10, 0x00, 0x00, 0x00, 0x02, 0x61, 0x02, 0x78, 0x00, //
    0x12, 0x00, 0x00, 0x02, 0x02, 0x62, 0x04, 0x79, 0x79, 0x00, //
    0x14, 0x00, 0x00, 0x04, 0x02, 0x61, 0x06, 0x7A, 0x7A, 0x7A, 0x00,
];

#[test]
fn three_records(rt: HostRuntime) -> Result<(), Fail> {
    let records = [
        record(0, Some(b"a"), Some(b"x")),
        record(1, Some(b"b"), Some(b"yy")),
        record(2, Some(b"a"), Some(b"zzz")),
    ];
    let written = write_batch(rt.alloc(), &records)?;
    assert_eq!(rt; written.as_slice(), THREE_RECORDS.as_slice());
    Ok(())
}

/// Offsets and times of two records, and the fault.
const FAULTS: [(u64, i64, u64, i64, WriteFault); 7] = [
    (4, 0, 4, 0, WriteFault::OffsetsFall { last: 4, next: 4 }),
    (4, 0, 3, 0, WriteFault::OffsetsFall { last: 4, next: 3 }),
    (
        u64::MAX,
        i64::MIN,
        0,
        0,
        WriteFault::OffsetsFall {
            last: u64::MAX,
            next: 0,
        },
    ),
    (0, i64::MIN, (1 << 63) - 1, 0, WriteFault::OffsetTooLarge),
    (4, i64::MIN, 5, 0, WriteFault::TimeTooFar),
    (0, i64::MIN, (1 << 63) - 2, 0, WriteFault::TimeTooFar),
    (7, 0, 7 + (1 << 31), 0, WriteFault::TooLong),
];

/// What is written of two records with these offsets and times.
fn two(
    alloc: Global,
    first: u64,
    first_time: i64,
    second: u64,
    second_time: i64,
) -> Result<Vec<u8>, WriteFault> {
    let records = [
        NewRecord {
            time: first_time,
            ..record(first, None, None)
        },
        NewRecord {
            time: second_time,
            ..record(second, None, None)
        },
    ];
    write_batch(alloc, &records)
}

#[test]
fn faults(rt: HostRuntime) -> Result<(), Fail> {
    assert_eq!(rt; write_batch(rt.alloc(), &[]).err(), Some(WriteFault::Empty));
    for (first, first_time, second, second_time, fault) in FAULTS {
        let written = two(rt.alloc(), first, first_time, second, second_time);
        assert_eq!(rt; written.err(), Some(fault), "{first} and {second}");
    }
    Ok(())
}

/// Two records that are just near enough, and those that the batch gives.
const NEAR: [(u64, i64, u64, i64); 3] = [
    (0, -1, (1 << 31) - 1, i64::MAX - 1),
    ((1 << 63) - 3, i64::MIN, (1 << 63) - 2, -1),
    (9, 5, 11, -7),
];

#[test]
fn two_records_that_are_near_enough_are_read_again(rt: HostRuntime) -> Result<(), Fail> {
    for (first, first_time, second, second_time) in NEAR {
        let written = two(rt.alloc(), first, first_time, second, second_time)?;
        let batch = read_batch(&written, 0).map_err(|_| AllocError)?;
        let mut records = batch.records();
        let one = records.next().ok_or("a first record")?;
        let other = records.next().ok_or("a second record")?;
        assert_eq!(rt; (one.offset, one.time), (first, first_time));
        assert_eq!(rt; (other.offset, other.time), (second, second_time));
        assert_eq!(rt; batch.end(), written.len() as u64);
    }
    Ok(())
}

/// A record with a null key, an empty value and two headers, spelled by hand.
#[test]
fn headers_and_nulls(rt: HostRuntime) -> Result<(), Fail> {
    let headers = [
        NewHeader {
            key: b"h",
            value: None,
        },
        NewHeader {
            key: b"",
            value: Some(b"vw"),
        },
    ];
    let records = [NewRecord {
        offset: 300,
        time: -5,
        key: None,
        value: Some(b""),
        headers: &headers,
    }];
    let written = write_batch(rt.alloc(), &records)?;
    let spelled = [
        0x1A, // 13 bytes
        0x00, 0x00, 0x00, // attributes, time delta, offset delta
        0x01, 0x00, // a null key, an empty value
        0x04, // two headers
        0x02, 0x68, 0x01, // "h", null
        0x00, 0x04, 0x76, 0x77, // "", "vw"
    ];
    assert!(rt; written.len() == 61 + spelled.len());
    assert_eq!(rt; &written[61..], spelled.as_slice());
    Ok(())
}

/// A seed, how many records, their number in each of the first and the last part, the sum of the bytes
/// of all values, and how many fail. The sums are those of a program in another language.
const MADE: [(u64, u32, u64, u64, u64, usize); 3] = [
    (1, 1, 1, 0, 6_678, 0),
    (1, 2_000, 250, 250, 6_987_206, 34),
    (7, 900, 113, 112, 2_997_780, 14),
];

/// How many records a log has, and the sum of the bytes of their values.
fn totals(log: &[u8]) -> Option<(u64, u64)> {
    let (mut at, mut count, mut sum) = (0, 0u64, 0u64);
    for _ in 0..log.len() {
        if at == log.len() as u64 {
            break;
        }
        let batch = read_batch(log, at).ok()?;
        for record in batch.records() {
            count = count.saturating_add(1);
            for byte in record.value? {
                sum = sum.saturating_add(u64::from(*byte));
            }
        }
        at = batch.end();
    }
    Some((count, sum))
}

#[test]
fn generated_logs(rt: HostRuntime) -> Result<(), Fail> {
    for (seed, records, first, last, sum, fails) in MADE {
        let made = generate(rt.alloc(), seed, records)?;
        let (mut counts, mut total) = ([0; 8], 0u64);
        for (part, log) in made.logs.iter().enumerate() {
            let (count, bytes) = totals(log).ok_or("a log")?;
            if part < 8 {
                counts[part] = count;
            }
            total = total.saturating_add(bytes);
        }
        assert_eq!(rt;
            (counts[0], counts[7], total),
            (first, last, sum),
            "{seed} {records}"
        );
        assert_eq!(rt; made.fails.as_slice().len(), fails, "{seed} {records}");
    }
    Ok(())
}

/// The first record of seed 1 has the number 6C576FAC43FD007C.
#[test]
fn the_first_generated_record(rt: HostRuntime) -> Result<(), Fail> {
    let made = generate(rt.alloc(), 1, 1)?;
    let log = made.logs.first().ok_or("a log")?;
    let batch = read_batch(log, 0).map_err(|_| AllocError)?;
    let record = batch.records().next().ok_or("a record")?;
    assert_eq!(rt; (record.offset, record.time), (0, 0));
    assert_eq!(rt; record.key, Some(b"k774".as_slice()));
    assert_eq!(rt; record.value, Some([106; 63].as_slice()));
    Ok(())
}

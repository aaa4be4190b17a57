//! Worked numbers: spellings, checksums and fixed numbers, each from outside this crate.

use super::*;
use std::test::Fail;

// A number and its shortest spelling.
const SPELLINGS: [(i64, &[u8]); 8] = [
    (0, &[0x00]),
    (-1, &[0x01]),
    (1, &[0x02]),
    (300, &[0xD8, 0x04]),
    (2_147_483_647, &[0xFE, 0xFF, 0xFF, 0xFF, 0x0F]),
    (-2_147_483_648, &[0xFF, 0xFF, 0xFF, 0xFF, 0x0F]),
    (
        9_223_372_036_854_775_807,
        &[0xFE, 0xFF, 0xFF, 0xFF, 0xFF, 0xFF, 0xFF, 0xFF, 0xFF, 0x01],
    ),
    (
        -9_223_372_036_854_775_808,
        &[0xFF, 0xFF, 0xFF, 0xFF, 0xFF, 0xFF, 0xFF, 0xFF, 0xFF, 0x01],
    ),
];

// Bytes at place 7 and what they read as: a number of 32 bits.
const VARINTS: [(&[u8], Result<i32, ByteFault>); 7] = [
    (&[0x80, 0x00], Ok(0)),
    (&[0x80, 0x80, 0x80, 0x80, 0x00], Ok(0)),
    (&[], Err(ByteFault::Short { place: 7, need: 1 })),
    (&[0x80, 0x80], Err(ByteFault::Short { place: 7, need: 3 })),
    (
        &[0x80, 0x80, 0x80, 0x80],
        Err(ByteFault::Short { place: 7, need: 5 }),
    ),
    (
        &[0x80, 0x80, 0x80, 0x80, 0x80],
        Err(ByteFault::VarintTooLong { place: 7 }),
    ),
    (
        &[0xFF, 0xFF, 0xFF, 0xFF, 0x10],
        Err(ByteFault::VarintTooLong { place: 7 }),
    ),
];

// Bytes and their CRC-32C: the check value of the algorithm, and the examples of RFC 3720.
const SUMS: [(&[u8], u32); 4] = [
    (b"", 0x0000_0000),
    (b"123456789", 0xE306_9283),
    (&[0; 32], 0x8A91_36AA),
    (&[0xFF; 32], 0x62A8_AB43),
];

#[test]
fn spellings(rt: HostRuntime) -> Result<(), Fail> {
    for (n, spelling) in SPELLINGS {
        let mut out = Vec::new(rt.alloc());
        write_varlong(&mut out, n)?;
        assert_eq!(rt; out.as_slice(), spelling, "of {n}");
        if let Ok(small) = i32::try_from(n) {
            out.clear();
            write_varint(&mut out, small)?;
            assert_eq!(rt; out.as_slice(), spelling, "of {n}");
        }
        let mut reader = Reader::new(spelling, 0);
        assert_eq!(rt; reader.varlong(), Ok(n));
    }
    Ok(())
}

#[test]
fn varints(rt: HostRuntime) {
    for (bytes, expected) in VARINTS {
        let mut reader = Reader::new(bytes, 7);
        assert_eq!(rt; reader.varint(), expected, "of {bytes:?}");
    }
}

#[test]
fn checksums(rt: HostRuntime) {
    for (bytes, expected) in SUMS {
        assert_eq!(rt; crc32c(bytes), expected, "of {bytes:?}");
    }
}

#[test]
fn fixed_numbers(rt: HostRuntime) {
    let bytes = [
        0xFE, 0xFD, 0xFF, 0xFE, 0x80, 0, 0, 1, 0x80, 0, 0, 2, 0xFF, 0xFF, 0xFF, 0xFF, 0xFF, 0xFF,
        0xFF, 0xFB, b'a', b'b',
    ];
    let mut reader = Reader::new(&bytes, 100);
    assert_eq!(rt; reader.u8(), Ok(0xFE));
    assert_eq!(rt; reader.i8(), Ok(-3));
    assert_eq!(rt; reader.i16(), Ok(-2));
    assert_eq!(rt; reader.u32(), Ok(0x8000_0001));
    assert_eq!(rt; reader.i32(), Ok(-0x7FFF_FFFE));
    assert_eq!(rt; reader.i64(), Ok(-5));
    assert_eq!(rt; (reader.place(), reader.left()), (120, 2));
    assert_eq!(rt;
        reader.part(3),
        Err(ByteFault::Short {
            place: 120,
            need: 3
        })
    );
    assert_eq!(rt; reader.part(2), Ok(b"ab".as_slice()));
    assert_eq!(rt; reader.left(), 0);
}

#[test]
fn faults_print(rt: HostRuntime) -> Result<(), Fail> {
    let short = ByteFault::Short { place: 3, need: 4 };
    assert_eq!(rt;
        short.to_string(rt.alloc())?.as_str(),
        "fewer than 4 bytes at 3"
    );
    let long = ByteFault::VarintTooLong { place: 5 };
    assert_eq!(rt;
        long.to_string(rt.alloc())?.as_str(),
        "a number too long at 5"
    );
    Ok(())
}

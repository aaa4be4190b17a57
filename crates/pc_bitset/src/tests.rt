//! What no clause says: that memory is found, and what the worked maps are.

use crate::{BitsFault, decode_v1, decode_v2, encode_v1, encode_v2, length_v1, length_v2};
use pc_model::Bits;
use std::alloc::{AllocError, Global};
use std::test::Fail;

/// Runs of a bit.
type Runs = &'static [(bool, u32)];

/// Bits with their bytes in version 1.
const VERSION_1: [(Runs, &[u8]); 5] = [
    (
        &[(false, 1), (true, 1), (false, 1), (true, 2)],
        &[0x00, 0x05, 0x1A],
    ),
    (&[], &[0x00, 0x00]),
    (&[(false, 9)], &[0x00, 0x09, 0x00, 0x00]),
    (
        &[(true, 3), (false, 10), (true, 12)],
        &[0x00, 0x19, 0x07, 0xE0, 0xFF, 0x01],
    ),
    (&[(true, 16)], &[0x00, 0x10, 0xFF, 0xFF]),
];

/// Bits with their lengths in both versions.
const LENGTHS: [(Runs, Option<u64>, Option<u64>); 4] = [
    (&[], Some(2), Some(4)),
    (&[(true, 32_767)], Some(4_098), Some(4_100)),
    (&[(true, 32_768)], None, Some(4_100)),
    (&[(false, 2_147_483_648)], None, None),
];

/// Bytes with their fault in version 1.
const FAULTS_1: [(&[u8], BitsFault); 4] = [
    (&[], BitsFault::ShortNumber),
    (&[0x80], BitsFault::ShortNumber),
    (&[0x80, 0x00], BitsFault::NegativeNumber),
    (&[0x00, 0x01, 0x01, 0x01], BitsFault::TooManyBytes),
];

/// Bytes with their fault in version 2.
const FAULTS_2: [(&[u8], BitsFault); 3] = [
    (&[0x00, 0x00, 0x00], BitsFault::ShortNumber),
    (&[0x80, 0x00, 0x00, 0x00], BitsFault::NegativeNumber),
    (&[0x00, 0x00, 0x00, 0x00, 0x00], BitsFault::TooManyBytes),
];

/// The bits of some runs.
fn bits_of(alloc: Global, runs: &[(bool, u32)]) -> Result<Bits, AllocError> {
    let mut bits = Bits::new(alloc);
    for (bit, n) in runs {
        if bits.count() < 1 << 62 {
            bits.push(*bit, u64::from(*n))?;
        }
    }
    Ok(bits)
}

#[test]
fn version_1_is_spelled(rt: HostRuntime) -> Result<(), Fail> {
    for (runs, bytes) in VERSION_1 {
        let spelled = encode_v1(rt.alloc(), &bits_of(rt.alloc(), runs)?)?;
        let spelled = spelled.expect(&rt, "a spelling");
        assert_eq!(rt; spelled.as_slice(), bytes, "at {bytes:?}");
    }
    Ok(())
}

#[test]
fn version_2_is_spelled_and_read(rt: HostRuntime) -> Result<(), Fail> {
    let bits = bits_of(rt.alloc(), &[(false, 1), (true, 1)])?;
    let spelled = encode_v2(rt.alloc(), &bits)?.expect(&rt, "a spelling");
    let bytes: &[u8] = &[0x00, 0x00, 0x00, 0x02, 0x02];
    assert_eq!(rt; spelled.as_slice(), bytes);
    let read = decode_v2(rt.alloc(), bytes)?;
    assert_eq!(rt; read.count(), 2);
    assert_eq!(rt; read.run(0), Some((0, 1)));
    assert_eq!(rt; read.run(1), None);
    Ok(())
}

#[test]
fn lengths_need_no_memory(rt: HostRuntime) -> Result<(), Fail> {
    for (runs, version_1, version_2) in LENGTHS {
        let bits = bits_of(rt.alloc(), runs)?;
        assert_eq!(rt; length_v1(&bits), version_1, "at {runs:?}");
        assert_eq!(rt; length_v2(&bits), version_2, "at {runs:?}");
    }
    Ok(())
}

#[test]
fn too_many_bits_have_no_spelling(rt: HostRuntime) -> Result<(), Fail> {
    let bits = bits_of(rt.alloc(), &[(true, 32_768)])?;
    assert!(rt; encode_v1(rt.alloc(), &bits)?.is_none());
    let bits = bits_of(rt.alloc(), &[(false, 2_147_483_648)])?;
    assert!(rt; encode_v2(rt.alloc(), &bits)?.is_none());
    Ok(())
}

#[test]
fn faults_are_named(rt: HostRuntime) {
    for (bytes, fault) in FAULTS_1 {
        assert_eq!(rt;
            decode_v1(rt.alloc(), bytes).err(),
            Some(fault),
            "at {bytes:?}"
        );
    }
    for (bytes, fault) in FAULTS_2 {
        assert_eq!(rt;
            decode_v2(rt.alloc(), bytes).err(),
            Some(fault),
            "at {bytes:?}"
        );
    }
}

// A count of 2,147,483,647 bits in four bytes is one run.
#[test]
fn missing_bytes_are_one_run(rt: HostRuntime) -> Result<(), Fail> {
    let bits = decode_v2(rt.alloc(), &[0x7F, 0xFF, 0xFF, 0xFF])?;
    assert_eq!(rt; bits.count(), 2_147_483_647);
    assert_eq!(rt; bits.runs(), 1);
    let bits = decode_v1(rt.alloc(), &[0x00, 0x14, 0xF3])?;
    assert_eq!(rt; bits.run(0), Some((2, 2)));
    assert_eq!(rt; bits.run(1), Some((8, 12)));
    Ok(())
}

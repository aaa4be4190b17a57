//! What no clause says: that memory is found, and what the worked maps are.

use crate::{BitsFault, decode_v1, decode_v2, encode_v1, encode_v2, length_v1, length_v2};
use pc_model::Bits;
use std::alloc::{AllocError, Global};
use std::test::Fail;

/// Runs of a bit.
type Runs = &'static [(bool, u32)];

/// Bits with their bytes in version 1.
const VERSION_1: [(Runs, &[u8]); 4] = [
    (&[], &[]),
    (&[(false, 1), (true, 999)], &[0x00, 0x01, 0x03, 0xE7]),
    (&[(true, 2)], &[0x00, 0x00, 0x00, 0x02]),
    (
        &[(true, 32_767), (false, 32_767)],
        &[0x00, 0x00, 0x7F, 0xFF, 0x7F, 0xFF],
    ),
];

/// Bits with their lengths in both versions.
const LENGTHS: [(Runs, Option<u64>, Option<u64>); 4] = [
    (&[], Some(0), Some(0)),
    (&[(false, 1), (true, 40_000)], None, Some(8)),
    (&[(true, 1), (false, 1), (true, 1)], Some(8), Some(16)),
    (&[(true, 2_147_483_648)], None, None),
];

/// Bytes with their fault in version 1.
const FAULTS_1: [(&[u8], BitsFault); 4] = [
    (&[0x00], BitsFault::ShortNumber),
    (&[0x00, 0x01, 0xFF], BitsFault::ShortNumber),
    (&[0x80, 0x00], BitsFault::NegativeNumber),
    (&[0x00, 0x01, 0x80, 0x00, 0x00], BitsFault::NegativeNumber),
];

/// Bytes in version 1 with the number of bits and the first run of 0 bits.
const READ: [(&[u8], u64, Option<(u64, u64)>); 4] = [
    (&[], 0, None),
    (&[0x00, 0x00], 0, None),
    (&[0x00, 0x01, 0x03, 0xE7], 1_000, Some((0, 1))),
    (
        &[0x00, 0x01, 0x00, 0x00, 0x00, 0x02, 0x00, 0x03],
        6,
        Some((0, 3)),
    ),
];

/// The bits of some runs.
fn bits_of(alloc: Global, runs: &[(bool, u32)]) -> Result<Bits, AllocError> {
    let mut bits = Bits::new(alloc);
    for (bit, n) in runs {
        if bits.count() < 1 << 62 {
            bits.push(*bit, u64::from(*n))?;
        }
    }
    Ok(bits)
}

#[test]
fn version_1_is_spelled(rt: HostRuntime) -> Result<(), Fail> {
    for (runs, bytes) in VERSION_1 {
        let spelled = encode_v1(rt.alloc(), &bits_of(rt.alloc(), runs)?)?;
        let spelled = spelled.expect(&rt, "a spelling");
        assert_eq!(rt; spelled.as_slice(), bytes, "at {bytes:?}");
    }
    Ok(())
}

#[test]
fn version_1_is_read(rt: HostRuntime) -> Result<(), Fail> {
    for (bytes, count, zeros) in READ {
        let bits = decode_v1(rt.alloc(), bytes)?;
        assert_eq!(rt; bits.count(), count, "at {bytes:?}");
        assert_eq!(rt; bits.run(0), zeros, "at {bytes:?}");
        assert_eq!(rt; bits.run(1), None, "at {bytes:?}");
    }
    Ok(())
}

// One 0 bit and 40,000 1 bits.
#[test]
fn version_2_is_spelled_and_read(rt: HostRuntime) -> Result<(), Fail> {
    let bits = bits_of(rt.alloc(), &[(false, 1), (true, 40_000)])?;
    let spelled = encode_v2(rt.alloc(), &bits)?.expect(&rt, "a spelling");
    let bytes: &[u8] = &[0x00, 0x00, 0x00, 0x01, 0x00, 0x00, 0x9C, 0x40];
    assert_eq!(rt; spelled.as_slice(), bytes);
    let read = decode_v2(rt.alloc(), bytes)?;
    assert_eq!(rt; read.count(), 40_001);
    assert_eq!(rt; read.run(0), Some((0, 1)));
    assert_eq!(rt; read.run(1), None);
    Ok(())
}

#[test]
fn lengths_need_no_memory(rt: HostRuntime) -> Result<(), Fail> {
    for (runs, version_1, version_2) in LENGTHS {
        let bits = bits_of(rt.alloc(), runs)?;
        assert_eq!(rt; length_v1(&bits), version_1, "at {runs:?}");
        assert_eq!(rt; length_v2(&bits), version_2, "at {runs:?}");
    }
    Ok(())
}

#[test]
fn long_runs_have_no_spelling(rt: HostRuntime) -> Result<(), Fail> {
    let bits = bits_of(rt.alloc(), &[(false, 1), (true, 32_768)])?;
    assert!(rt; encode_v1(rt.alloc(), &bits)?.is_none());
    let bits = bits_of(rt.alloc(), &[(true, 2_147_483_648)])?;
    assert!(rt; encode_v2(rt.alloc(), &bits)?.is_none());
    Ok(())
}

#[test]
fn faults_are_named(rt: HostRuntime) {
    for (bytes, fault) in FAULTS_1 {
        assert_eq!(rt;
            decode_v1(rt.alloc(), bytes).err(),
            Some(fault),
            "at {bytes:?}"
        );
    }
    let cut: &[u8] = &[0x00, 0x00, 0x01];
    assert_eq!(rt;
        decode_v2(rt.alloc(), cut).err(),
        Some(BitsFault::ShortNumber)
    );
}

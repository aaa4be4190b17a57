//! What no clause says: that memory is found.

ghost use Rattle.std.specs.Prelude.{◌≡◌, map, true};
ghost use Rattle.pc_partition.specs.Window.{RisesFrom};

use crate::{Lengths, PartitionState};
use std::alloc::{AllocError, Global};
use std::test::Fail;

// Three records, of which the second succeeds first.
#[test]
fn the_second_of_three_succeeds(rt: HostRuntime) -> Result<(), Fail> {
    let mut state = PartitionState::start(rt.alloc(), 0, &[])?;
    state.polled(&[0, 1, 2])?;
    state.succeed(1);
    assert_eq!(rt; state.position(), 0);
    assert_eq!(rt; state.high(), Some(1));
    assert_eq!(rt; state.open_polled(), 2);
    let bits = state.bits()?.expect(&rt, "bits");
    assert_eq!(rt; bits.count(), 2);
    assert_eq!(rt; bits.run(0), Some((0, 1)));
    assert_eq!(rt; bits.run(1), None);
    Ok(())
}

// Of the offsets 1, 2 and 6, the map of the assignment passes the second.
#[test]
fn a_map_is_inherited(rt: HostRuntime) -> Result<(), Fail> {
    let state = PartitionState::start(rt.alloc(), 1, &[(1, false), (2, true), (6, false)])?;
    assert_eq!(rt; state.position(), 1);
    assert_eq!(rt; state.high(), Some(2));
    assert_eq!(rt; state.open_polled(), 0);
    assert!(rt; state.is_complete(2));
    assert!(rt; !state.is_complete(6));
    for (offset, is_open) in [(1, true), (2, false), (6, true), (7, true)] {
        assert_eq!(rt; state.is_open(offset), is_open, "{offset}");
    }
    let bits = state.bits()?.expect(&rt, "bits");
    assert_eq!(rt; bits.count(), 2);
    assert_eq!(rt; bits.run(0), Some((0, 1)));
    Ok(())
}

// Twenty-six bits, of which the first alone is 0.
#[test]
fn lengths_of_a_window(rt: HostRuntime) -> Result<(), Fail> {
    let mut state = PartitionState::start(rt.alloc(), 0, &[(0, false), (25, true)])?;
    let lengths = Lengths {
        bitset: Some(6),
        runlength: Some(4),
        bitset2: Some(8),
        runlength2: Some(8),
    };
    assert_eq!(rt; state.lengths(), Some(lengths));
    state.succeed(0);
    assert_eq!(rt; state.lengths(), None);
    assert!(rt; state.bits()?.is_none());
    assert_eq!(rt; state.position(), 26);
    Ok(())
}

// One 0 bit and 40,000 1 bits: a run is longer than 32,767.
#[test]
fn lengths_of_a_long_run(rt: HostRuntime) -> Result<(), Fail> {
    let state = PartitionState::start(rt.alloc(), 7, &[(7, false), (40_007, true)])?;
    let lengths = Lengths {
        bitset: None,
        runlength: None,
        bitset2: Some(5_005),
        runlength2: Some(8),
    };
    assert_eq!(rt; state.lengths(), Some(lengths));
    Ok(())
}

// Whether the offsets rise from 0 on.
fn rise(pairs: &[(u64, bool)]) -> bool
    ensures { result ≡ true → RisesFrom 0 (map (λ pair. pair.0) pairs.now) }
{
    let mut least = 0;
    for (offset, _) in pairs {
        if *offset < least || *offset >= (1 << 63) - 1 {
            return false;
        }
        least = offset + 1;
    }
    true
}

fn started(alloc: Global, pairs: &[(u64, bool)]) -> Result<PartitionState, AllocError> {
    if rise(pairs) {
        PartitionState::start(alloc, 0, pairs)
    } else {
        PartitionState::start(alloc, 0, &[])
    }
}

// The length as runs of version 1, where there are bits.
fn runlength(state: &PartitionState) -> Option<Option<u64>> {
    state.lengths().map(|lengths| lengths.runlength)
}

/// Whether a run of one 0 bit stands before, how many 0 bits follow, whether a run of one stands
/// behind, and the length.
const ZEROS: [(bool, u16, bool, Option<u64>); 6] = [
    (false, 32_767, true, Some(8)),
    (false, 32_768, true, None),
    (true, 32_767, true, Some(12)),
    (true, 32_768, true, None),
    (true, 32_767, false, Some(8)),
    (true, 32_768, false, None),
];

#[test]
fn a_run_of_zeros_is_long(rt: HostRuntime) -> Result<(), Fail> {
    for (before, count, after, wanted) in ZEROS {
        let end = 2 + u64::from(count);
        let mut pairs = Vec::new(rt.alloc());
        if before {
            pairs.push((0, false))?;
        }
        for offset in 2..end {
            pairs.push((offset, false))?;
        }
        if after {
            pairs.push((end + 1, false))?;
        }
        pairs.push((end + 2, true))?;
        let state = started(rt.alloc(), pairs.as_slice())?;
        assert_eq!(rt;
            runlength(&state),
            Some(wanted),
            "at {before} {count} {after}"
        );
    }
    Ok(())
}

/// Offsets with whether each is complete, the length, and the length after a success.
const SUCCESSES: [([(u64, bool); 4], Option<u64>, u64, Option<u64>); 10] = [
    // The first run vanishes with the 1 bits behind it.
    (
        [(0, false), (32_768, false), (32_770, false), (32_771, true)],
        Some(12),
        0,
        Some(8),
    ),
    (
        [(0, false), (32_769, false), (32_771, false), (32_772, true)],
        None,
        0,
        Some(8),
    ),
    // One in the middle joins the 1 bits beside it.
    (
        [(0, false), (16_384, false), (32_768, false), (32_769, true)],
        Some(12),
        16_384,
        Some(8),
    ),
    (
        [(0, false), (16_384, false), (32_769, false), (32_770, true)],
        Some(12),
        16_384,
        None,
    ),
    // So does the last one.
    (
        [(0, false), (2, false), (4, false), (32_770, true)],
        Some(12),
        4,
        None,
    ),
    (
        [(0, false), (2, false), (4, false), (32_769, true)],
        Some(12),
        4,
        Some(8),
    ),
    // A greater offset succeeds than all before.
    (
        [(0, false), (1, true), (3, false), (32_771, false)],
        Some(4),
        32_771,
        None,
    ),
    (
        [(0, false), (1, true), (3, false), (32_770, false)],
        Some(4),
        32_770,
        Some(8),
    ),
    (
        [(0, false), (1, true), (32_768, false), (32_769, false)],
        Some(4),
        32_769,
        Some(8),
    ),
    (
        [(0, false), (1, true), (32_769, false), (32_770, false)],
        Some(4),
        32_770,
        None,
    ),
];

#[test]
fn a_success_changes_the_lengths(rt: HostRuntime) -> Result<(), Fail> {
    for (pairs, before, offset, after) in SUCCESSES {
        let mut state = started(rt.alloc(), &pairs)?;
        assert_eq!(rt; runlength(&state), Some(before), "before {offset}");
        if state.is_complete(offset) {
            panic!(rt; "{offset} is complete");
        }
        state.succeed(offset);
        assert_eq!(rt; runlength(&state), Some(after), "after {offset}");
    }
    Ok(())
}

// A run of 40,000 0 bits is cut.
#[test]
fn a_long_run_is_cut(rt: HostRuntime) -> Result<(), Fail> {
    let mut pairs = Vec::new(rt.alloc());
    for offset in 0..40_000 {
        pairs.push((offset, false))?;
    }
    pairs.push((40_000, true))?;
    let mut state = started(rt.alloc(), pairs.as_slice())?;
    assert_eq!(rt; runlength(&state), Some(None));
    if !state.is_complete(20_000) {
        state.succeed(20_000);
    }
    assert_eq!(rt; runlength(&state), Some(Some(8)));
    Ok(())
}

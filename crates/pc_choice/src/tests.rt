//! What no clause says: that memory is found, and what the worked maps are.

use crate::{choose, pressed};
use pc_model::Bits;
use std::alloc::{AllocError, Global};
use std::test::Fail;

/// Runs of a bit.
type Runs = &'static [(bool, u32)];

/// Bits with the limit, the letter, the text and the size of the best map.
const CHOICES: [(Runs, u32, Option<u8>, &str, u32); 9] = [
    (&[], 4_096, None, "", 0),
    (
        &[(false, 1), (true, 1), (false, 1), (true, 2)],
        4_096,
        Some(b'l'),
        "bAAFGg==",
        8,
    ),
    (&[(false, 1), (true, 25)], 4_096, Some(b'n'), "bgABABk=", 8),
    (&[(false, 1), (true, 999)], 4_096, Some(b'n'), "bgABA+c=", 8),
    (&[(false, 1), (true, 999)], 8, Some(b'n'), "bgABA+c=", 8),
    (&[(false, 1), (true, 999)], 7, None, "", 8),
    (&[(false, 1), (true, 999)], 0, None, "", 8),
    (
        &[(false, 1), (true, 40_000)],
        4_096,
        Some(b'e'),
        "ZQAAAAEAAJxA",
        12,
    ),
    (&[(true, 2_147_483_648)], 4_096, None, "", 4_294_967_295),
];

/// Sizes, limits and percents, and whether they press.
const PRESSED: [(u32, u32, u32, bool); 5] = [
    (3_072, 4_096, 75, false),
    (3_076, 4_096, 75, true),
    (0, 0, 1, false),
    (1, 0, 100, true),
    (4_294_967_295, 4_294_967_295, 100, false),
];

/// One more run.
fn push(bits: &mut Bits, bit: bool, n: u32) -> Result<(), AllocError> {
    if bits.count() < 1 << 62 {
        bits.push(bit, u64::from(n))?;
    }
    Ok(())
}

/// The bits of some runs.
fn bits_of(alloc: Global, runs: &[(bool, u32)]) -> Result<Bits, AllocError> {
    let mut bits = Bits::new(alloc);
    for (bit, n) in runs {
        push(&mut bits, *bit, *n)?;
    }
    Ok(bits)
}

#[test]
fn the_shortest_text_is_chosen(rt: HostRuntime) -> Result<(), Fail> {
    for (runs, limit, letter, text, size) in CHOICES {
        let choice = choose(rt.alloc(), &bits_of(rt.alloc(), runs)?, limit)?;
        assert_eq!(rt; choice.letter, letter, "at {runs:?}");
        assert_eq!(rt; choice.text.as_str(), text, "at {runs:?}");
        assert_eq!(rt; choice.size, size, "at {runs:?}");
    }
    Ok(())
}

// 24,552 bits, 0 and 1 in turn, have 4,096 characters. One more has a text over the limit.
#[test]
fn a_long_text_is_left_out_whole(rt: HostRuntime) -> Result<(), Fail> {
    let mut bits = Bits::new(rt.alloc());
    for _ in 0..12_276 {
        push(&mut bits, false, 1)?;
        push(&mut bits, true, 1)?;
    }
    let choice = choose(rt.alloc(), &bits, 4_096)?;
    assert_eq!(rt; choice.letter, Some(b'l'));
    assert_eq!(rt; choice.size, 4_096);
    assert_eq!(rt; choice.text.as_str().len(), 4_096);
    push(&mut bits, true, 1)?;
    let choice = choose(rt.alloc(), &bits, 4_096)?;
    assert_eq!(rt; choice.letter, None);
    assert_eq!(rt; choice.size, 4_100);
    assert_eq!(rt; choice.text.as_str(), "");
    Ok(())
}

#[test]
fn pressure_is_above_the_percent(rt: HostRuntime) {
    for (size, limit, percent, wanted) in PRESSED {
        assert_eq!(rt; pressed(size, limit, percent), wanted, "at {size}");
    }
}

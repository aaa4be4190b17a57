//! What no clause says: that memory is found. Every fault is seen.

use crate::{EpochFault, Epochs};
use std::test::Fail;

#[test]
fn two_parts_are_known(rt: HostRuntime) -> Result<(), Fail> {
    let epochs = Epochs::new(rt.alloc(), 2)?;
    assert_eq!(rt; epochs.current(0), Some(0));
    assert_eq!(rt; epochs.held(1), Some(false));
    assert_eq!(rt; epochs.current(2), None);
    assert_eq!(rt; epochs.held(2), None);
    Ok(())
}

#[test]
fn a_part_is_unknown_or_not_held(rt: HostRuntime) -> Result<(), Fail> {
    let cases = [
        (0, EpochFault::NotHeld),
        (1, EpochFault::NotHeld),
        (2, EpochFault::UnknownPart),
    ];
    for (part, fault) in cases {
        let mut epochs = Epochs::new(rt.alloc(), 2)?;
        assert_eq!(rt; epochs.drop_part(part), Err(fault), "at {part}");
    }
    let mut epochs = Epochs::new(rt.alloc(), 2)?;
    assert_eq!(rt; epochs.assign(2), Err(EpochFault::UnknownPart));
    Ok(())
}

#[test]
fn a_held_part_is_refused(rt: HostRuntime) -> Result<(), Fail> {
    let mut epochs = Epochs::new(rt.alloc(), 2)?;
    if let Ok(first) = epochs.assign(1) {
        assert_eq!(rt; first, 1);
        assert_eq!(rt; epochs.assign(1), Err(EpochFault::AlreadyHeld));
    }
    assert_eq!(rt; epochs.held(1), Some(true));
    Ok(())
}

//! That memory is found, which calls fail, by their numbers, by a name, by the room, and that clocks
//! move.

use crate::*;
use std::test::Fail;

/// Which of four reads fail, by their numbers, and which of the names there is.
const READS: [(&str, Result<(), FilesFault>, &[u8]); 4] = [
    ("a.log", Ok(()), b"xyz"),
    ("a.log", Err(FilesFault::Failed), b"xyz"),
    ("b.log", Err(FilesFault::Failed), b"xyz"),
    ("a.log", Ok(()), b"xyzxyz"),
];

#[test]
fn reads_fail_by_their_numbers(rt: HostRuntime) -> Result<(), Fail> {
    let mut files = MemoryFiles::new(rt.alloc(), &[2])?;
    files.add("a.log", b"old")?;
    files.add("a.log", b"xyz")?;
    let mut into = Vec::new(rt.alloc());
    for (name, wanted, bytes) in READS {
        assert_eq!(rt; files.read(name, &mut into), wanted, "of {name}");
        assert_eq!(rt; into.as_slice(), bytes);
    }
    Ok(())
}

#[test]
fn writes_take_what_fits(rt: HostRuntime) -> Result<(), Fail> {
    let mut sink = MemorySink::new(rt.alloc(), 4, &[2])?;
    assert_eq!(rt; sink.write(b"abc"), Ok(3));
    assert_eq!(rt; sink.write(b"def"), Err(SinkFailed));
    assert_eq!(rt; sink.write(b"def"), Ok(1));
    assert_eq!(rt; sink.write(b"ef"), Err(SinkFailed));
    assert_eq!(rt; sink.bytes(), b"abcd".as_slice());
    Ok(())
}

#[test]
fn a_step_clock_moves_by_its_rests(rt: HostRuntime) {
    let clock = StepClock::new();
    assert_eq!(rt; clock.now(), 0);
    clock.rest(5);
    clock.rest(2);
    assert_eq!(rt; clock.now(), 7);
}

#[test]
fn the_real_clock_moves(rt: HostRuntime) {
    let clock = RealClock::new(&rt);
    let before = clock.now();
    clock.rest(2);
    assert!(rt; 0 < before && before < clock.now(), "after {before}");
}

//! Tables of scripts and of bad lines, with the edges of every number.

use super::*;
use std::alloc::Global;
use std::test::Fail;

const PLAY: &[u8] = b"# all words
assign 0
 poll  1023   1000000
take 255

end 4000000
   
tick 9223372036854775807
commit 7
revoke 8
lose 9
crash
drain
done
#close
close";

const PLAYED: [(u64, PlayAct); 12] = [
    (2, PlayAct::Assign(0)),
    (
        3,
        PlayAct::Poll {
            part: 1023,
            max: 1_000_000,
        },
    ),
    (4, PlayAct::Take(255)),
    (6, PlayAct::End(4_000_000)),
    (8, PlayAct::Tick(9_223_372_036_854_775_807)),
    (9, PlayAct::Commit(7)),
    (10, PlayAct::Revoke(8)),
    (11, PlayAct::Lose(9)),
    (12, PlayAct::Crash),
    (13, PlayAct::Drain),
    (14, PlayAct::Done),
    (16, PlayAct::Close),
];

#[test]
fn every_play_line(rt: HostRuntime) -> Result<(), Fail> {
    let script = read_play(rt.alloc(), PLAY)?;
    assert_eq!(rt; script.len(), 12);
    let mut i = 0u64;
    for (line, act) in PLAYED {
        assert_eq!(rt; script.get(i).copied(), Some(PlayLine { line, act }));
        i = i.saturating_add(1);
    }
    assert_eq!(rt; script.get(12).copied(), None);
    Ok(())
}

const BAD_PLAYS: [(&[u8], u64, ScriptKind); 26] = [
    (b"go 1", 1, ScriptKind::UnknownWord),
    (b" # no comment", 1, ScriptKind::UnknownWord),
    (b"Assign 1", 1, ScriptKind::UnknownWord),
    (b"assign", 1, ScriptKind::WordCount),
    (b"assign 1 2", 1, ScriptKind::WordCount),
    (b"poll x", 1, ScriptKind::WordCount),
    (b"poll 1 2 3", 1, ScriptKind::WordCount),
    (b"crash 1", 1, ScriptKind::WordCount),
    (b"drain\npoll 0\n", 2, ScriptKind::WordCount),
    (b"\n# c\n  \ndone now", 4, ScriptKind::WordCount),
    (b"assign x", 1, ScriptKind::NotDecimal),
    (b"commit 01", 1, ScriptKind::NotDecimal),
    (b"lose -1", 1, ScriptKind::NotDecimal),
    (b"poll x 0", 1, ScriptKind::NotDecimal),
    (b"poll 0 x", 1, ScriptKind::NotDecimal),
    (b"tick 18446744073709551616", 1, ScriptKind::NotDecimal),
    (b"tick 0\r", 1, ScriptKind::NotDecimal),
    (b"assign 1024", 1, ScriptKind::OutOfRange),
    (b"revoke 18446744073709551615", 1, ScriptKind::OutOfRange),
    (b"poll 1024 x", 1, ScriptKind::OutOfRange),
    (b"poll 0 0", 1, ScriptKind::OutOfRange),
    (b"poll 0 1000001", 1, ScriptKind::OutOfRange),
    (b"take 256", 1, ScriptKind::OutOfRange),
    (b"end 0", 1, ScriptKind::OutOfRange),
    (b"end 4000001", 1, ScriptKind::OutOfRange),
    (b"tick 9223372036854775808", 1, ScriptKind::OutOfRange),
];

#[test]
fn every_bad_play_line(rt: HostRuntime) {
    for (text, line, kind) in BAD_PLAYS {
        let fault = read_play(rt.alloc(), text).err();
        let want = ScriptReadFault::Bad(ScriptFault { line, kind });
        assert_eq!(rt; fault, Some(want), "at {text:?}");
    }
}

const REBALANCE: &[u8] = b"at 0 assign 0
at 4000000 assign 1
# counts may fall
at 5 revoke 0

at 5 crash
at 6 lose 1
at 6 assign 1";

const STEPS: [(u64, Act); 6] = [
    (0, Act::Assign(0)),
    (4_000_000, Act::Assign(1)),
    (5, Act::Revoke(0)),
    (5, Act::Crash),
    (6, Act::Lose(1)),
    (6, Act::Assign(1)),
];

#[test]
fn every_step(rt: HostRuntime) -> Result<(), Fail> {
    let steps = read_steps(rt.alloc(), REBALANCE, 2)?;
    assert_eq!(rt; steps.len(), 6);
    let mut i = 0u64;
    for (count, act) in STEPS {
        assert_eq!(rt; steps.get(i).copied(), Some(Step { count, act }));
        i = i.saturating_add(1);
    }
    assert_eq!(rt; steps.get(6).copied(), None);
    Ok(())
}

const BAD_STEPS: [(&[u8], u64, ScriptKind); 21] = [
    (b"to 1 crash", 1, ScriptKind::UnknownWord),
    (b"crash", 1, ScriptKind::UnknownWord),
    (b"at 1 go", 1, ScriptKind::UnknownWord),
    (b"at x go y z", 1, ScriptKind::UnknownWord),
    (b"at", 1, ScriptKind::WordCount),
    (b"at 1", 1, ScriptKind::WordCount),
    (b"at x crash 1", 1, ScriptKind::WordCount),
    (b"at x assign", 1, ScriptKind::WordCount),
    (b"at 1 lose 0 0", 1, ScriptKind::WordCount),
    (b"at x assign 2", 1, ScriptKind::NotDecimal),
    (b"at 1 assign x", 1, ScriptKind::NotDecimal),
    (b"at 4000001 assign x", 1, ScriptKind::OutOfRange),
    (b"at 4000001 crash", 1, ScriptKind::OutOfRange),
    (b"at 1 assign 1024", 1, ScriptKind::OutOfRange),
    (b"at 1 assign 2", 1, ScriptKind::UnknownPart),
    (b"\nat 1 revoke 1023", 2, ScriptKind::UnknownPart),
    (b"at 0 assign 0\nat 0 assign 0", 2, ScriptKind::AlreadyHeld),
    (
        b"at 0 assign 0\nat 1 crash\nat 1 assign 0",
        3,
        ScriptKind::AlreadyHeld,
    ),
    (b"at 0 revoke 0", 1, ScriptKind::NotHeld),
    (b"at 0 assign 1\nat 0 lose 0", 2, ScriptKind::NotHeld),
    (
        b"at 0 assign 0\nat 0 lose 0\nat 0 revoke 0",
        3,
        ScriptKind::NotHeld,
    ),
];

#[test]
fn every_bad_step(rt: HostRuntime) {
    for (text, line, kind) in BAD_STEPS {
        let fault = read_steps(rt.alloc(), text, 2).err();
        let want = ScriptReadFault::Bad(ScriptFault { line, kind });
        assert_eq!(rt; fault, Some(want), "at {text:?}");
    }
}

fn lines_of(alloc: Global, count: usize) -> Result<Vec<u8>, Fail> {
    let mut text = vec![in alloc; b'\n'; count]?;
    text.extend_from_slice(b"x")?;
    Ok(text)
}

#[test]
fn too_many_lines_come_first(rt: HostRuntime) -> Result<(), Fail> {
    let text = lines_of(rt.alloc(), 1_000_000)?;
    let fault = Some(ScriptReadFault::TooManyLines);
    assert_eq!(rt; read_play(rt.alloc(), &text).err(), fault);
    assert_eq!(rt; read_steps(rt.alloc(), &text, 1).err(), fault);
    let text = lines_of(rt.alloc(), 999_999)?;
    let fault = Some(ScriptReadFault::Bad(ScriptFault {
        line: 1_000_000,
        kind: ScriptKind::UnknownWord,
    }));
    assert_eq!(rt; read_play(rt.alloc(), &text).err(), fault);
    assert_eq!(rt; read_steps(rt.alloc(), &text, 1).err(), fault);
    Ok(())
}

//! Tables of the words of runs, and of what they ask for.

use super::*;
use pc_world::MemoryFiles;
use std::alloc::{AllocError, Global};
use std::test::Fail;

// One batch with the records (0, "a", "x"), (1, "b", "yy") and (2, "a", "zzz").
const THREE_RECORDS: [u8; 91] = [
    0x00, 0x00, 0x00, 0x00, 0x00, 0x00, 0x00, 0x00, //
    0x00, 0x00, 0x00, 0x4F, 0x00, 0x00, 0x00, 0x00, 0x02, 0xD6, 0xFC, 0x11, 0xEE, //
    0x00, 0x00, 0x00, 0x00, 0x00, 0x02, //
    0x00, 0x00, 0x00, 0x00, 0x00, 0x00, 0x00, 0x00, //
    0x00, 0x00, 0x00, 0x00, 0x00, 0x00, 0x00, 0x00, //
    0xFF, 0xFF, 0xFF, 0xFF, 0xFF, 0xFF, 0xFF, 0xFF, //
    0xFF, 0xFF, 0xFF, 0xFF, 0xFF, 0xFF, 0x00, 0x00, 0x00, 0x03, //
    0x10, 0x00, 0x00, 0x00, 0x02, 0x61, 0x02, 0x78, 0x00, //
    0x12, 0x00, 0x00, 0x02, 0x02, 0x62, 0x04, 0x79, 0x79, 0x00, //
    0x14, 0x00, 0x00, 0x04, 0x02, 0x61, 0x06, 0x7A, 0x7A, 0x7A, 0x00,
];

/// The words of a text, with one space between them.
fn words_of(alloc: Global, text: &str) -> Result<Vec<String>, AllocError> {
    let mut words = Vec::new(alloc);
    for word in text.split(' ') {
        words.push(String::from_str(alloc, word)?)?;
    }
    Ok(words)
}

/// The number of the status that words and files end a run with before it begins, or how many
/// workers it has, how many steps, and whether only the summary is wanted.
type Asked = Result<(u32, u64, bool), u8>;

/// Over `a.log`, which has three records, and two scripts of which the second has a bad line.
const RUNS: [(&str, Asked); 13] = [
    ("run a.log a.script", Ok((16, 1, false))),
    ("run --summary a.log a.script", Ok((16, 1, true))),
    ("run a.log --summary a.script", Ok((16, 1, true))),
    (
        "run a.log a.script --summary --config=c.toml",
        Ok((4, 1, true)),
    ),
    (
        "run --config c.toml --summary a.log a.script",
        Ok((4, 1, true)),
    ),
    ("run --summary --summary a.log a.script", Err(1)),
    ("run --summary=x a.log a.script", Err(1)),
    ("run --config --summary a.log a.script", Err(1)),
    ("run a.script", Err(1)),
    ("play a.log a.script", Err(1)),
    ("bulk 1 1 1", Err(1)),
    ("run -- --summary a.script", Err(2)),
    ("run a.log b.script", Err(5)),
];

/// What these words ask for.
fn asked(alloc: Global, text: &str) -> Result<Asked, AllocError> {
    let mut files = MemoryFiles::new(alloc, &[])?;
    files.add("c.toml", b"workers = 4\n")?;
    files.add("a.log", &THREE_RECORDS)?;
    files.add("a.script", b"at 0 assign 0\n")?;
    files.add("b.script", b"at 0 revoke 0\n")?;
    let words = words_of(alloc, text)?;
    let run = match read_run(alloc, &words, &mut files) {
        Ok(run) => run,
        Err(status) => return Ok(Err(status.number())),
    };
    match run_plan_of(alloc, &run) {
        Ok(plan) => Ok(Ok((plan.workers, plan.steps.len(), plan.summary))),
        Err(status) => Ok(Err(status.number())),
    }
}

#[test]
fn words_of_runs(rt: HostRuntime) -> Result<(), Fail> {
    for (text, wanted) in RUNS {
        let found = asked(rt.alloc(), text)?;
        assert_eq!(rt; found, wanted, "{text}");
    }
    Ok(())
}

const BULKS: [(&str, Option<(u64, u32, u32)>); 12] = [
    ("bulk 1 1 1", Some((1, 1, 1))),
    ("bulk -- 1 2 3", Some((1, 2, 3))),
    ("bulk 0 0 1", Some((0, 0, 1))),
    (
        "bulk 18446744073709551615 1000000 256",
        Some((18_446_744_073_709_551_615, 1_000_000, 256)),
    ),
    ("bulk 18446744073709551616 1 1", None),
    ("bulk 1 1000001 1", None),
    ("bulk 1 1 0", None),
    ("bulk 1 1 257", None),
    ("bulk 1 01 1", None),
    ("bulk 1 1", None),
    ("bulk --summary 1 2 3", None),
    ("run 1 2 3", None),
];

#[test]
fn words_of_bulk_runs(rt: HostRuntime) -> Result<(), Fail> {
    for (text, wanted) in BULKS {
        let words = words_of(rt.alloc(), text)?;
        let found = bulk_asked(rt.alloc(), &words).ok();
        let numbers = found.map(|run| (run.seed, run.records, run.workers));
        assert_eq!(rt; numbers, wanted, "{text}");
    }
    Ok(())
}

//! Tables of answers and outcomes.

use crate::{Finished, Job, RuleTask, Task, answer_of};
use pc_batch::{RecordRef, read_batch};
use pc_model::{FailRule, FailRules, Outcome, Rules, Work};
use std::alloc::{AllocError, Global};
use std::test::Fail;

// One batch with the records (0, "a", "x"), (1, "b", "yy") and (2, "a", "zzz").
const THREE_RECORDS: [u8; 91] = [
    0x00, 0x00, 0x00, 0x00, 0x00, 0x00, 0x00, 0x00, //
    0x00, 0x00, 0x00, 0x4F, 0x00, 0x00, 0x00, 0x00, 0x02, 0xD6, 0xFC, 0x11, 0xEE, //
    0x00, 0x00, 0x00, 0x00, 0x00, 0x02, //
    0x00, 0x00, 0x00, 0x00, 0x00, 0x00, 0x00, 0x00, //
    0x00, 0x00, 0x00, 0x00, 0x00, 0x00, 0x00, 0x00, //
    0xFF, 0xFF, 0xFF, 0xFF, 0xFF, 0xFF, 0xFF, 0xFF, //
    0xFF, 0xFF, 0xFF, 0xFF, 0xFF, 0xFF, 0x00, 0x00, 0x00, 0x03, //
    0x10, 0x00, 0x00, 0x00, 0x02, 0x61, 0x02, 0x78, 0x00, //
    0x12, 0x00, 0x00, 0x02, 0x02, 0x62, 0x04, 0x79, 0x79, 0x00, //
    0x14, 0x00, 0x00, 0x04, 0x02, 0x61, 0x06, 0x7A, 0x7A, 0x7A, 0x00,
];

/// A function, a value and the answer.
type Row = (Work, Option<&'static [u8]>, &'static [u8]);

const ANSWERS: [Row; 8] = [
    (Work::Length, Some(b"yy"), b"2"),
    (Work::Length, Some(b""), b"0"),
    (Work::Length, None, b"null"),
    (Work::ByteSum, Some(b"yy"), b"242"),
    (Work::ByteSum, Some(b""), b"0"),
    (Work::Hex, Some(b"\x00z\xff"), b"007aff"),
    (Work::Hex, Some(b""), b""),
    (Work::Hex, None, b"null"),
];

#[test]
fn answers(rt: HostRuntime) -> Result<(), Fail> {
    for (work, value, answer) in ANSWERS {
        let got = answer_of(rt.alloc(), work, value)?;
        assert_eq!(rt; got.as_slice(), answer, "of {value:?}");
    }
    Ok(())
}

/// Of the second record each attempt, and the answer where it does not fail.
const ATTEMPTS: [(u32, Option<&[u8]>); 4] = [
    (1, None),
    (2, None),
    (3, Some(b"2")),
    (7, Some(b"2")),
];

/// The first of two rules for a record counts, and a result is copied whole.
#[test]
fn a_record_fails_as_often_as_its_first_rule_says(rt: HostRuntime) -> Result<(), Fail> {
    let rule = |part, times| FailRule {
        part,
        offset: 1,
        times,
    };
    let rules = Rules {
        work: Work::Length,
        fails: FailRules::from_slice(rt.alloc(), &[rule(1, 9), rule(0, 2), rule(0, 9)])?,
    };
    let batch = read_batch(&THREE_RECORDS, 0).map_err(|_| AllocError)?;
    let task = RuleTask;
    for (attempt, answer) in ATTEMPTS {
        let mut records = batch.records();
        let _first = records.next();
        let Some(entry) = records.next() else {
            continue;
        };
        let job = Job {
            ticket: 1,
            worker: 0,
            part: 0,
            epoch: 1,
            attempt,
            entry,
            rules: &rules,
            task: &task,
        };
        match task.call(rt.alloc(), &job) {
            Ok(outcome) => {
                let done = job.finish(outcome).copy(rt.alloc())?;
                let got = match &done.outcome {
                    Outcome::Good(answer) => Some(answer.as_slice()),
                    Outcome::Bad(_) => None,
                };
                assert_eq!(rt; got, answer, "at {attempt}");
            }
            Err(_) => job.abandon(),
        }
    }
    Ok(())
}

/// The result of a record's first attempt.
fn result_of<'a>(
    alloc: Global,
    entry: RecordRef<'a>,
    rules: &'a Rules,
) -> Result<Finished<'a>, AllocError> {
    let job = Job {
        ticket: 1,
        worker: 0,
        part: 0,
        epoch: 1,
        attempt: 1,
        entry,
        rules,
        task: &RuleTask,
    };
    match RuleTask.call(alloc, &job) {
        Ok(outcome) => Ok(job.finish(outcome)),
        Err(error) => {
            job.abandon();
            Err(error)
        }
    }
}

/// Rules of which the record at offset 1 fails so many attempts.
fn rules_of(alloc: Global, work: Work, times: u32) -> Result<Rules, AllocError> {
    let rule = FailRule {
        part: 0,
        offset: 1,
        times,
    };
    Ok(Rules {
        work,
        fails: FailRules::from_slice(alloc, &[rule])?,
    })
}

/// Which of three records, a function and a number of failures, and whether the result of the
/// second record under `Length` and two failures is of that.
const RESULTS: [(usize, Work, u32, bool); 4] = [
    (1, Work::Length, 2, true),
    (2, Work::Length, 2, false),
    (1, Work::Hex, 2, false),
    (1, Work::Length, 3, false),
];

#[test]
fn a_result_is_of_its_record_under_its_rules(rt: HostRuntime) -> Result<(), Fail> {
    let batch = read_batch(&THREE_RECORDS, 0).map_err(|_| AllocError)?;
    let own = rules_of(rt.alloc(), Work::Length, 2)?;
    let entry = batch.records().nth(1).ok_or("a second record")?;
    let done = result_of(rt.alloc(), entry, &own)?;
    for (place, work, times, is_of) in RESULTS {
        let rules = rules_of(rt.alloc(), work, times)?;
        let other = batch.records().nth(place).ok_or("a record")?;
        assert_eq!(rt; done.is_of(&other, &rules), is_of, "{place} and {times}");
    }
    Ok(())
}

//! The logs of a run over made-up records, and the records that fail in it.

ghost use Rattle.std.specs.Prelude.{◌≡◌, ◌+◌, ◌<◌, ◌++◌, ◌∷◌, ℕ, List, [], Some, decimal, map, vec_len, string_bytes, slice_get, option_map, IfOk, IfSome, OnOk};
ghost use Rattle.pc_batch_writer.specs.Generator.{next_number, numbers_from, record_of, records_from, AreBatches, batch_text, generated_log, log_from, fails_from, plain_drawn};
ghost use Rattle.pc_batch_writer.specs.Writing.{plain_new};

use crate::new_record::NewRecord;
use crate::write::write_batch;
use pc_model::{FailRule, FailRules};
use std::alloc::{AllocError, Global};

/// How many parts there are.
const PARTS: u32 = 8;

/// How many records a batch has, but for the last of a part.
const BATCH_RECORDS: usize = 100;

/// The generator's factor.
const FACTOR: u64 = 6_364_136_223_846_793_005;

/// What the generator adds.
const STEP: u64 = 1_442_695_040_888_963_407;

/// Keys have numbers below this.
const KEYS: u64 = 1_000;

/// Values are shorter than this.
const LENGTHS: u64 = 64;

/// How many letters a value is chosen from, from `a` on.
const LETTERS: u64 = 26;

/// One record of this many fails.
const FAILS_ONE_OF: u64 = 50;

/// Made-up logs, and the records that fail.
#[derive(Debug, Drop)]
pub struct Generated {
    /// The log of each part.
    pub logs: Vec<Vec<u8>>,
    pub fails: FailRules,
}

/// A made-up record.
#[derive(Debug, Drop)]
pub(crate) struct Drawn {
    pub offset: u64,
    pub key: String,
    pub value: Vec<u8>,
}

/// The logs of 8 parts with `records` records in all, drawn from the seed: record i goes to part
/// i mod 8. The only error is out of memory.
pub fn generate(alloc: Global, seed: u64, records: u32) -> Result<Generated, AllocError>
    ensures parts { IfOk result (λ made. vec_len made.logs ≡ 8) }
    ensures logs { IfOk result (λ made. (part : ℕ) → part < 8
        → option_map (λ log. log.items) (slice_get made.logs.items part)
        ≡ Some (generated_log seed records part)) }
    // A log is batches, one after the other, which give the records of its part.
    ensures reads { IfOk result (λ made. (part : ℕ) → part < 8
        → IfSome (slice_get made.logs.items part)
        (λ log. AreBatches log.items (records_from part 0 (numbers_from records seed)))) }
    ensures fails { IfOk result (λ made. made.fails ≡ fails_from 0 (numbers_from records seed)) }
{
    let mut logs = Vec::with_capacity(alloc, PARTS as usize)?;
    for part in 0..PARTS {
        logs.push(part_log(alloc, seed, records, part)?)?;
    }
    let fails = fail_rules(alloc, seed, records)?;
    Ok(Generated {
        logs,
        fails: FailRules::from_slice(alloc, &fails)?,
    })
}

/// The log of a part.
fn part_log(alloc: Global, seed: u64, records: u32, part: u32) -> Result<Vec<u8>, AllocError>
    ensures { IfOk result (λ log. log.items ≡ generated_log seed records part) }
{
    let mut log = Vec::new(alloc);
    let mut waiting = Vec::new(alloc);
    let mut number = seed;
    for i in 0..records {
        number = next_number(number);
        put_number(alloc, &mut log, &mut waiting, part, i, number)?;
    }
    put_batch(alloc, &mut log, &waiting)?;
    Ok(log)
}

/// Puts the record that the number at place i gives, where it is one of the part.
fn put_number(
    alloc: Global,
    log: &mut Vec<u8>,
    waiting: &mut Vec<Drawn>,
    part: u32,
    i: u32,
    number: u64,
) -> Result<(), AllocError>
    requires { vec_len waiting.old < 100 }
    ensures few { OnOk result (vec_len waiting.new < 100) }
    ensures goes_on { OnOk result ((others : List ℕ)
        → log.old.items ++ log_from part i (map plain_drawn waiting.old.items) (number ∷ others)
        ≡ log.new.items ++ log_from part (i + 1) (map plain_drawn waiting.new.items) others) }
{
    if i % PARTS != part {
        return Ok(());
    }
    let drawn = draw(alloc, number, i / PARTS)?;
    put_record(alloc, log, waiting, drawn)
}

/// Puts one more record among those that wait, and writes them where they are enough for a batch.
fn put_record(
    alloc: Global,
    log: &mut Vec<u8>,
    waiting: &mut Vec<Drawn>,
    drawn: Drawn,
) -> Result<(), AllocError>
    requires { vec_len waiting.old < 100 }
    ensures full { vec_len waiting.old ≡ 99 → OnOk result ((waiting.new.items ≡ [])
        × (log.new.items ≡ log.old.items
        ++ batch_text (map plain_drawn waiting.old.items ++ plain_drawn drawn ∷ []))) }
    ensures waits { vec_len waiting.old < 99 → OnOk result ((log.new.items ≡ log.old.items)
        × (waiting.new.items ≡ waiting.old.items ++ drawn ∷ [])) }
{
    if waiting.push(drawn).is_err() {
        return Err(AllocError);
    }
    if waiting.len() < BATCH_RECORDS {
        return Ok(());
    }
    put_batch(alloc, log, waiting)?;
    waiting.clear();
    Ok(())
}

/// Puts the batch of the records. Without records it puts nothing.
fn put_batch(alloc: Global, log: &mut Vec<u8>, waiting: &[Drawn]) -> Result<(), AllocError>
    ensures { OnOk result (log.new.items
        ≡ log.old.items ++ batch_text (map plain_drawn waiting.now)) }
{
    if waiting.is_empty() {
        return Ok(());
    }
    let records = lend(alloc, waiting)?;
    let Ok(batch) = write_batch(alloc, &records) else {
        return Err(AllocError);
    };
    log.extend_from_slice(&batch)
}

/// The records, lent to be written.
fn lend<'a>(alloc: Global, waiting: &'a [Drawn]) -> Result<Vec<NewRecord<'a>>, AllocError>
    ensures { IfOk result (λ records. map plain_new records.items ≡ map plain_drawn waiting.now) }
{
    let mut records = Vec::with_capacity(alloc, waiting.len())?;
    for drawn in waiting {
        records.push(NewRecord {
            offset: drawn.offset,
            time: 0,
            key: Some(drawn.key.as_bytes()),
            value: Some(drawn.value.as_slice()),
            headers: &[],
        })?;
    }
    Ok(records)
}

/// The record that a number gives.
fn draw(alloc: Global, number: u64, offset: u32) -> Result<Drawn, AllocError>
    ensures { IfOk result (λ drawn. plain_drawn drawn ≡ record_of offset number) }
{
    let letter = b'a' + (number / (1 << 40) % LETTERS) as u8;
    let len = (number / (1 << 20) % LENGTHS) as usize;
    Ok(Drawn {
        offset: u64::from(offset),
        key: key(alloc, number / (1 << 33) % KEYS)?,
        value: Vec::from_elem(alloc, letter, len)?,
    })
}

/// The letter k and a decimal.
fn key(alloc: Global, n: u64) -> Result<String, AllocError>
    ensures { IfOk result (λ key. string_bytes key ≡ 107 ∷ decimal n) }
{
    format!(in alloc; "k{n}")
}

/// The next number.
fn next_number(number: u64) -> u64
    ensures { result ≡ next_number number }
{
    number.wrapping_mul(FACTOR).wrapping_add(STEP)
}

/// The fail rules: one record of fifty fails once.
fn fail_rules(alloc: Global, seed: u64, records: u32) -> Result<Vec<FailRule>, AllocError>
    ensures { IfOk result (λ fails. fails.items ≡ fails_from 0 (numbers_from records seed)) }
{
    let mut fails = Vec::new(alloc);
    let mut number = seed;
    for i in 0..records {
        number = next_number(number);
        put_fail(&mut fails, i, number)?;
    }
    Ok(fails)
}

/// Puts the fail rule of the record that the number at place i gives, where it fails.
fn put_fail(fails: &mut Vec<FailRule>, i: u32, number: u64) -> Result<(), AllocError>
    ensures { OnOk result ((others : List ℕ) → fails.old.items ++ fails_from i (number ∷ others)
        ≡ fails.new.items ++ fails_from (i + 1) others) }
{
    if number / (1 << 50) % FAILS_ONE_OF != 0 {
        return Ok(());
    }
    let rule = FailRule {
        part: i % PARTS,
        offset: u64::from(i / PARTS),
        times: 1,
    };
    if fails.push(rule).is_err() {
        return Err(AllocError);
    }
    Ok(())
}

//! The outcome of a function, and the rules that fix it.

use crate::choices::Work;
use crate::lists::{Answer, FailRules};
use crate::texts::MapText;

/// A record that fails its first `times` attempts in each epoch.
#[derive(Clone, Copy, Debug, PartialEq, Eq)]
pub struct FailRule {
    /// The part's number, below 1,024.
    pub part: u32,
    /// The record's offset, at most 2^63 - 2.
    pub offset: u64,
    /// How many attempts fail, from 1 to 1,000,000.
    pub times: u32,
}

/// What a function answers: its work, and the records that fail. Of two rules for one record the
/// first counts.
#[derive(Debug, Drop)]
pub struct Rules {
    pub work: Work,
    pub fails: FailRules,
}

/// A commit that is stored before the run begins.
#[derive(Debug, Drop)]
pub struct Start {
    /// The part's number, below 1,024.
    pub part: u32,
    /// The offset of the next record to be read, at most 2^63 - 1.
    pub position: u64,
    /// The map of the later finished offsets, at most 4,096 bytes.
    pub map: MapText,
}

/// What one run of a function gave.
#[derive(Debug, Drop)]
pub enum Outcome {
    /// It succeeded with this answer.
    Good(Answer),
    /// It failed with this code.
    Bad(u32),
}

//! The steps of a run: which parts move, and when.

/// What moves. Parts are below 1,024.
#[derive(Clone, Copy, Debug, PartialEq, Eq)]
pub enum Act {
    /// A part is assigned.
    Assign(u32),
    /// A part is given back after a commit.
    Revoke(u32),
    /// A part is lost without a commit.
    Lose(u32),
    /// All is forgotten but the journal, and the parts that were held are assigned anew.
    Crash,
}

/// An act, once so many records have succeeded.
#[derive(Clone, Copy, Debug, PartialEq, Eq)]
pub struct Step {
    /// The number of successes, at most 4,000,000.
    pub count: u64,
    pub act: Act,
}

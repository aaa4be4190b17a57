//! What a batch says of each of its records.

/// Where the time of a record comes from.
#[derive(Clone, Copy, Debug, PartialEq, Eq)]
pub(crate) enum Times {
    /// The record's delta is added to this base timestamp.
    Each(i64),
    /// All records have this time, the batch's greatest.
    All(i64),
}

/// What a batch says of each of its records: the offsets lie from `base` to `last`.
#[derive(Clone, Copy, Debug, PartialEq, Eq)]
pub(crate) struct Frame {
    pub base: u64,
    pub last: u64,
    pub times: Times,
}

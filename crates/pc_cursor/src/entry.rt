//! What a log keeps of each of its batches.

/// Where a batch begins, its first and last offset, and how many records stand before it.
#[derive(Clone, Copy, Debug, PartialEq, Eq)]
pub(crate) struct Entry {
    pub(crate) place: u64,
    pub(crate) base: u64,
    pub(crate) last: u64,
    pub(crate) before: u64,
}

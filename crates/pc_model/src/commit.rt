//! What is stored of a part.

use crate::texts::MapText;

/// A position and the map of the offsets from it on that are finished.
#[derive(Debug, Drop)]
pub struct Commit {
    /// The offset of the next record to be read, at most 2^63 - 1.
    pub position: u64,
    /// The map's text, empty where there is none.
    pub map: MapText,
}

/// A commit with the length of the best map, which the commit holds only within the limit.
#[derive(Debug, Drop)]
pub struct SizedCommit {
    pub commit: Commit,
    /// The characters of the best map's text: 0 without bits, 4,294,967,295 where no text holds
    /// them.
    pub size: u32,
}

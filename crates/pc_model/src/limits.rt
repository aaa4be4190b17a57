//! The limits of a run.

/// Parts are numbered from 0 on, below this number.
pub const MAX_PARTS: u32 = 1_024;

/// The most workers of a run.
pub const MAX_WORKERS: u32 = 256;

/// The most records of all logs.
pub const MAX_RECORDS: u32 = 1_000_000;

/// The most events of a journal, with one place kept for each job that is out.
pub const MAX_EVENTS: u64 = 4_000_000;

/// The most bytes of one file.
pub const MAX_FILE_BYTES: u64 = 268_435_456;

/// The most bytes of all logs.
pub const MAX_LOG_BYTES: u64 = 268_435_456;

/// The longest delay before a retry, in milliseconds: a day.
pub const MAX_DELAY: u64 = 86_400_000;

/// The most lines of a script.
pub const MAX_SCRIPT_LINES: usize = 1_000_000;

/// The most bytes of a commit's metadata, which holds its map.
pub const MAX_METADATA_BYTES: usize = 4_096;

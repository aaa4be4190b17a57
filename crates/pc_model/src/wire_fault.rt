//! Why the bytes of a frame are no message.

use thiserror::Error;

/// What is wrong with a frame: the first fault from left to right.
#[derive(Debug, Clone, Copy, PartialEq, Eq, Error)]
pub enum WireFault {
    /// The bytes end within a field, or before the size says.
    #[error("the bytes end within a field")]
    Short,
    /// Bytes remain after the message, or after the size says.
    #[error("bytes remain after the message")]
    Trailing,
    /// The api key is that of another message.
    #[error("the api key is that of another message")]
    BadKey,
    /// The api version is not the one that is read.
    #[error("the api version is not the one that is read")]
    BadVersion,
    /// The size, the count of an array or the length of a string is negative; for a string that
    /// may be null, it is below -1.
    #[error("a size, a count or a length is negative")]
    NegativeLength,
    /// A string is no UTF-8.
    #[error("a string is not UTF-8")]
    NotUtf8,
    /// A committed offset is negative in a commit request, or below -1 in a fetch reply.
    #[error("a committed offset is negative")]
    BadOffset,
}

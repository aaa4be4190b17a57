//! The numbers of the two requests, and the codes of their replies (Kafka's protocol guide, "Api
//! Keys" and "Error Codes").

/// The api key of OffsetCommit.
pub const OFFSET_COMMIT: i16 = 8;

/// The version of OffsetCommit that is read and written.
pub const OFFSET_COMMIT_VERSION: i16 = 2;

/// The api key of OffsetFetch.
pub const OFFSET_FETCH: i16 = 9;

/// The version of OffsetFetch that is read and written.
pub const OFFSET_FETCH_VERSION: i16 = 1;

/// No error.
pub const NO_ERROR: i16 = 0;

/// The broker has no such topic, or the topic no such part.
pub const UNKNOWN_TOPIC_OR_PARTITION: i16 = 3;

/// The metadata of a commit has more than `MAX_METADATA_BYTES` bytes.
pub const OFFSET_METADATA_TOO_LARGE: i16 = 12;

/// The group has another generation than the request.
pub const ILLEGAL_GENERATION: i16 = 22;

/// The group has a generation, and the member is none of its members.
pub const UNKNOWN_MEMBER_ID: i16 = 25;

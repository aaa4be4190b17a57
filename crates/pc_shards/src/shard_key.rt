//! The key of a record, whose bytes are lent from the logs.

/// The key bytes of records that run one after the other. No key is another key than the empty one.
#[derive(Clone, Copy, Debug, PartialEq, Eq, Hash)]
pub struct ShardKey<'a> {
    pub bytes: Option<&'a [u8]>,
}

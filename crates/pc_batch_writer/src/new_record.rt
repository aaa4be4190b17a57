//! The records of a batch that is to be written. Clauses see each as a plain record.

/// A header of a record. A value may be null.
#[derive(Clone, Copy, Debug)]
pub struct NewHeader<'a> {
    pub key: &'a [u8],
    pub value: Option<&'a [u8]>,
}

/// A record, its bytes lent. A key or a value may be null.
#[derive(Clone, Copy, Debug)]
pub struct NewRecord<'a> {
    /// At most 2^63 - 2, and above that of the record before.
    pub offset: u64,
    /// In milliseconds.
    pub time: i64,
    pub key: Option<&'a [u8]>,
    pub value: Option<&'a [u8]>,
    pub headers: &'a [NewHeader<'a>],
}

//! The choices of a configuration that are one word each.

/// Which records share an ordering key, so that they run one after the other.
#[derive(Clone, Copy, Debug, PartialEq, Eq)]
pub enum Order {
    /// Each record has a key of its own.
    None,
    /// The records of a part share one key.
    Partition,
    /// The records of a part with the same key bytes share one, and so do those without a key.
    Key,
}

/// The function that is run on each record's value.
#[derive(Clone, Copy, Debug, PartialEq, Eq)]
pub enum Work {
    /// The number of the value's bytes, as a decimal.
    Length,
    /// The sum of the value's bytes, as a decimal.
    ByteSum,
    /// The value's bytes as lower-case hexadecimal digits.
    Hex,
}

/// What an assignment does with a stored map that does not read.
#[derive(Clone, Copy, Debug, PartialEq, Eq)]
pub enum BadMapRule {
    /// The map passes nothing, and the records from the position on run again.
    Redo,
    /// The assignment is refused.
    Refuse,
}

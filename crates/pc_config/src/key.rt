//! The keys of a configuration, each with its place, its word and its least and most number.

ghost use Rattle.std.specs.Prelude.{◌≡◌};
ghost use Rattle.pc_config.specs.Keys.{place_of, word_of, least_of, most_of};

use crate::place::Place;
use pc_model::limits::{MAX_DELAY, MAX_METADATA_BYTES, MAX_PARTS, MAX_RECORDS, MAX_WORKERS};

/// A key. `Delay` is one item of `delays`.
#[derive(Clone, Copy, Debug, PartialEq, Eq)]
pub(crate) enum Key {
    Order,
    Function,
    Workers,
    MapLimit,
    PressPercent,
    Delays,
    Delay,
    GiveUp,
    Buffer,
    PollMax,
    CommitEvery,
    BadMap,
    Fail,
    FailPart,
    FailOffset,
    FailTimes,
    Start,
    StartPart,
    StartPosition,
    StartMap,
}

/// A line of the table of keys. Both ends of the range are allowed; it is of a number, of a list's
/// length or of a text's bytes. A key that is one word has none: 0 and 0.
#[derive(Clone, Copy, Debug)]
pub(crate) struct Row {
    pub(crate) place: Place,
    pub(crate) word: &'static str,
    pub(crate) least: u64,
    pub(crate) most: u64,
}

const LAST_PART: u64 = MAX_PARTS as u64 - 1;

const MAX_NUMBER: u64 = MAX_RECORDS as u64;

const LAST_POSITION: u64 = (1 << 63) - 1;

impl Key {
    /// The key's line in the table of keys.
    pub(crate) fn row(self) -> Row
        ensures place { result.place ≡ place_of self }
        ensures word { result.word.now ≡ word_of self }
        ensures least { result.least ≡ least_of self }
        ensures most { result.most ≡ most_of self }
    {
        match self {
            Key::Order => key_row(Place::Top, "order", 0, 0),
            Key::Function => key_row(Place::Top, "function", 0, 0),
            Key::Workers => key_row(Place::Top, "workers", 1, u64::from(MAX_WORKERS)),
            Key::MapLimit => key_row(Place::Top, "map_limit", 0, MAX_METADATA_BYTES as u64),
            Key::PressPercent => key_row(Place::Top, "press_percent", 1, 100),
            Key::Delays => key_row(Place::Top, "delays", 1, 16),
            Key::Delay => key_row(Place::Top, "delays", 0, MAX_DELAY),
            Key::GiveUp => key_row(Place::Top, "give_up", 1, MAX_NUMBER),
            Key::Buffer => key_row(Place::Top, "buffer", 1, MAX_NUMBER),
            Key::PollMax => key_row(Place::Top, "poll_max", 1, MAX_NUMBER),
            Key::CommitEvery => key_row(Place::Top, "commit_every", 1, MAX_NUMBER),
            Key::BadMap => key_row(Place::Top, "bad_map", 0, 0),
            Key::Fail => key_row(Place::Top, "fail", 0, MAX_NUMBER),
            Key::FailPart => key_row(Place::Fail, "part", 0, LAST_PART),
            Key::FailOffset => key_row(Place::Fail, "offset", 0, LAST_POSITION - 1),
            Key::FailTimes => key_row(Place::Fail, "times", 1, MAX_NUMBER),
            Key::Start => key_row(Place::Top, "start", 0, u64::from(MAX_PARTS)),
            Key::StartPart => key_row(Place::Start, "part", 0, LAST_PART),
            Key::StartPosition => key_row(Place::Start, "position", 0, LAST_POSITION),
            Key::StartMap => key_row(Place::Start, "map", 0, MAX_METADATA_BYTES as u64),
        }
    }
}

fn key_row(place: Place, word: &'static str, least: u64, most: u64) -> Row
    ensures place { result.place ≡ place }
    ensures word { result.word.now ≡ word.now }
    ensures least { result.least ≡ least }
    ensures most { result.most ≡ most }
{
    Row {
        place,
        word,
        least,
        most,
    }
}

//! The tables of a configuration.

ghost use Rattle.std.specs.Prelude.{◌≡◌};
ghost use Rattle.pc_config.specs.Keys.{prefix_of, keys_at};

use crate::key::Key;

/// A table whose keys are fixed.
#[derive(Clone, Copy, Debug, PartialEq, Eq)]
pub(crate) enum Place {
    /// The document itself.
    Top,
    /// A table of `fail`.
    Fail,
    /// A table of `start`.
    Start,
}

impl Place {
    /// What stands before the name of one of its keys in a fault.
    pub(crate) fn prefix(self) -> &'static str
        ensures { result.now ≡ prefix_of self }
    {
        match self {
            Place::Top => "",
            Place::Fail => "fail.",
            Place::Start => "start.",
        }
    }

    /// The keys that such a table may have.
    pub(crate) fn keys(self) -> &'static [Key]
        ensures { result.now ≡ keys_at self }
    {
        match self {
            Place::Top => &TOP_KEYS,
            Place::Fail => &FAIL_KEYS,
            Place::Start => &START_KEYS,
        }
    }
}

const TOP_KEYS: [Key; 13] = [
    Key::Order,
    Key::Function,
    Key::Workers,
    Key::MapLimit,
    Key::PressPercent,
    Key::Delays,
    Key::GiveUp,
    Key::Buffer,
    Key::PollMax,
    Key::CommitEvery,
    Key::BadMap,
    Key::Fail,
    Key::Start,
];

const FAIL_KEYS: [Key; 3] = [Key::FailPart, Key::FailOffset, Key::FailTimes];

const START_KEYS: [Key; 3] = [Key::StartPart, Key::StartPosition, Key::StartMap];

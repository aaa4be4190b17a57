//! What no clause says: that memory is found, and that every fault of a setup is seen.

use crate::{
    Answer, BadMapRule, Delays, Event, FailRule, FailRules, Journal, KeyText, MapText, NameText,
    Order, Rules, Settings, Setup, SetupFault, SetupField, Start, Starts, Work,
};
use std::alloc::{AllocError, Global};
use std::test::Fail;

/// A field, its least and most, and a value outside.
const RANGES: [(SetupField, u64, u64, u64); 16] = [
    (SetupField::MapLimit, 0, 4_096, 4_097),
    (SetupField::PressPercent, 1, 100, 0),
    (SetupField::Delays, 1, 16, 17),
    (SetupField::Delay, 0, 86_400_000, 86_400_001),
    (SetupField::GiveUp, 1, 1_000_000, 0),
    (SetupField::Buffer, 1, 1_000_000, 1_000_001),
    (SetupField::PollMax, 1, 1_000_000, 0),
    (SetupField::CommitEvery, 1, 1_000_000, 1_000_001),
    (SetupField::Fails, 0, 1_000_000, 1_000_001),
    (SetupField::FailPart, 0, 1_023, 1_024),
    (SetupField::FailOffset, 0, (1 << 63) - 2, (1 << 63) - 1),
    (SetupField::FailTimes, 1, 1_000_000, 0),
    (SetupField::Starts, 0, 1_024, 1_025),
    (SetupField::StartPart, 0, 1_023, 1_024),
    (SetupField::StartPosition, 0, (1 << 63) - 1, 1 << 63),
    (SetupField::StartMap, 0, 4_096, 4_097),
];

/// One value in place of a usual one.
#[derive(Clone, Copy)]
struct Change {
    field: SetupField,
    value: u64,
}

impl Change {
    fn of(&self, field: SetupField, usual: u64) -> u64 {
        if self.field == field {
            self.value
        } else {
            usual
        }
    }

    fn small(&self, field: SetupField, usual: u32) -> u32 {
        u32::try_from(self.of(field, u64::from(usual))).unwrap_or(u32::MAX)
    }

    fn delays(&self, alloc: Global) -> Result<Delays, AllocError> {
        let mut delays = Vec::new(alloc);
        for _ in 0..self.of(SetupField::Delays, 1) {
            delays.push(self.of(SetupField::Delay, 100))?;
        }
        Delays::from_slice(alloc, delays.as_slice())
    }

    fn fails(&self, alloc: Global) -> Result<FailRules, AllocError> {
        let mut fails = Vec::new(alloc);
        for _ in 0..self.of(SetupField::Fails, 1) {
            fails.push(FailRule {
                part: self.small(SetupField::FailPart, 0),
                offset: self.of(SetupField::FailOffset, 0),
                times: self.small(SetupField::FailTimes, 1),
            })?;
        }
        FailRules::from_slice(alloc, fails.as_slice())
    }

    fn starts(&self, alloc: Global) -> Result<Starts, AllocError> {
        let mut text = String::new(alloc);
        for _ in 0..self.of(SetupField::StartMap, 8) {
            text.push('=')?;
        }
        let mut starts = Vec::new(alloc);
        for i in 0..self.small(SetupField::Starts, 2) {
            starts.push(Start {
                part: self.small(SetupField::StartPart, i),
                position: self.of(SetupField::StartPosition, 0),
                map: MapText::from_str(alloc, text.as_str())?,
            })?;
        }
        Starts::from_slice(alloc, starts.as_slice())
    }

    fn settings(&self, alloc: Global) -> Result<Settings, AllocError> {
        Ok(Settings {
            order: Order::Key,
            rules: Rules {
                work: Work::Hex,
                fails: self.fails(alloc)?,
            },
            map_limit: self.small(SetupField::MapLimit, 0),
            press_percent: self.small(SetupField::PressPercent, 100),
            delays: self.delays(alloc)?,
            give_up: self.small(SetupField::GiveUp, 1),
            buffer: self.small(SetupField::Buffer, 1),
            poll_max: self.small(SetupField::PollMax, 1),
            commit_every: self.small(SetupField::CommitEvery, 1),
            bad_map: BadMapRule::Refuse,
            starts: self.starts(alloc)?,
        })
    }
}

/// The fault of a setup, if there is one.
fn fault_of(setup: Result<Setup, SetupFault>) -> Option<SetupFault> {
    setup.err()
}

#[test]
fn every_field_has_its_range(rt: HostRuntime) -> Result<(), Fail> {
    for (field, least, most, value) in RANGES {
        let outside = Change { field, value }.settings(rt.alloc())?;
        let fault = SetupFault::OutOfRange { field, least, most };
        assert_eq!(rt; fault_of(Setup::new(outside)), Some(fault), "at {value}");
        let usual = if field == SetupField::StartPart {
            0
        } else {
            most
        };
        let inside = Change {
            field,
            value: usual,
        }
        .settings(rt.alloc())?;
        let twice = SetupFault::PartTwice { part: 0 };
        let wanted = if field == SetupField::StartPart {
            Some(twice)
        } else {
            None
        };
        assert_eq!(rt; fault_of(Setup::new(inside)), wanted, "at {usual}");
    }
    Ok(())
}

#[test]
fn memory_is_found(rt: HostRuntime) -> Result<(), Fail> {
    let setup = Setup::with_defaults(rt.alloc())?;
    assert_eq!(rt; setup.settings.delays.as_slice(), [100].as_slice());
    assert_eq!(rt; KeyText::from_str(rt.alloc(), "order")?.as_str(), "order");
    assert_eq!(rt; NameText::from_str(rt.alloc(), "a.log")?.as_str(), "a.log");
    let answer = Answer::from_slice(rt.alloc(), b"1")?;
    assert_eq!(rt; answer.as_slice(), b"1".as_slice());
    let mut journal = Journal::new(rt.alloc());
    journal.reserve(2)?;
    journal.push(Event::Tick { now: 7 });
    journal.push(Event::Success { ticket: 1, answer });
    assert_eq!(rt; journal.len(), 2);
    assert!(rt; matches!(journal.get(0), Some(Event::Tick { now: 7 })));
    assert!(rt; journal.get(2).is_none());
    Ok(())
}

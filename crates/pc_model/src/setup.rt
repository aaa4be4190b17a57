//! The setup of a run, whose type keeps each value in its range.
ghost use Rattle.std.specs.Prelude.{◌≡◌, [], ◌==◌, Some, None, IsTrue, is_none, IfOk, IfErr};
ghost use Rattle.std.specs.List.{list_any};
ghost use Rattle.pc_model.specs.Numbers.{first_some};
ghost use Rattle.pc_model.specs.Ranges.{delay_fault, delays_fault, number_fault, range_fault, range_of, refuses, rule_fault, rules_fault, settings_fault, start_fault, starts_fault, twice_fault};

use crate::choices::{BadMapRule, Order, Work};
use crate::limits::{MAX_DELAY, MAX_METADATA_BYTES, MAX_PARTS, MAX_RECORDS};
use crate::lists::{Delays, FailRules, Starts};
use crate::outcome::{FailRule, Rules, Start};
use std::alloc::{AllocError, Global};
use thiserror::Error;

/// The values of a setup before their ranges are known.
#[derive(Debug, Drop)]
pub struct Settings {
    pub order: Order,
    pub rules: Rules,
    pub map_limit: u32,
    pub press_percent: u32,
    pub delays: Delays,
    pub give_up: u32,
    pub buffer: u32,
    pub poll_max: u32,
    pub commit_every: u32,
    pub bad_map: BadMapRule,
    pub starts: Starts,
}

/// The field of a setup that is out of range.
#[derive(Clone, Copy, Debug, PartialEq, Eq)]
pub enum SetupField {
    MapLimit,
    PressPercent,
    /// How many delays there are.
    Delays,
    /// One of the delays.
    Delay,
    GiveUp,
    Buffer,
    PollMax,
    CommitEvery,
    /// How many fail rules there are.
    Fails,
    FailPart,
    FailOffset,
    FailTimes,
    /// How many starts there are.
    Starts,
    StartPart,
    StartPosition,
    /// The bytes of a start's map.
    StartMap,
}

impl SetupField {
    /// The least and the most that the field may be, or how long a list or a text may be.
    pub fn range(self) -> (u64, u64)
        ensures { result ≡ range_of self }
    {
        match self {
            SetupField::MapLimit | SetupField::StartMap => (0, MAX_METADATA_BYTES as u64),
            SetupField::PressPercent => (1, 100),
            SetupField::Delays => (1, 16),
            SetupField::Delay => (0, MAX_DELAY),
            SetupField::GiveUp
            | SetupField::Buffer
            | SetupField::PollMax
            | SetupField::CommitEvery
            | SetupField::FailTimes => (1, u64::from(MAX_RECORDS)),
            SetupField::Fails => (0, u64::from(MAX_RECORDS)),
            SetupField::Starts => (0, u64::from(MAX_PARTS)),
            SetupField::FailPart | SetupField::StartPart => (0, u64::from(MAX_PARTS) - 1),
            SetupField::FailOffset => (0, (1 << 63) - 2),
            SetupField::StartPosition => (0, (1 << 63) - 1),
        }
    }
}

/// Why values make no setup.
#[derive(Clone, Copy, Debug, PartialEq, Eq, Error)]
pub enum SetupFault {
    /// The field's value or length lies outside the range, whose ends are both allowed.
    #[error("{field:?} is not from {least} to {most}")]
    OutOfRange {
        field: SetupField,
        least: u64,
        most: u64,
    },
    /// The part stands in two starts.
    #[error("part {part} stands in two starts")]
    PartTwice {
        part: u32,
    },
}

/// The setup of a run: settings of which each lies in its range (`SetupField::range`), and no part
/// stands in two starts.
#[derive(Debug, Drop)]
pub struct Setup {
    pub settings: Settings,
    pub ghost in_range: { IsTrue (is_none (settings_fault settings)) },
}

impl Setup {
    ghost use Rattle.pc_model.specs.Defaults.{default_settings};

    /// The setup of these values, or the first of them that is out of its range: of the numbers,
    /// then of the delays, the fail rules and the starts. The values are let go where one is.
    pub fn new(settings: Settings) -> Result<Setup, SetupFault>
        ensures settings { IfOk result (λ s. s.settings ≡ settings) }
        ensures ok { IfOk result (λ _. settings_fault settings ≡ None) }
        ensures fault { IfErr result (λ f. settings_fault settings ≡ Some f) }
    {
        check_settings(&settings)?;
        Ok(Setup { settings })
    }

    /// The setup that holds where nothing else is said. The only error is want of memory.
    pub fn with_defaults(alloc: Global) -> Result<Setup, AllocError>
        ensures { IfOk result (λ s. s.settings ≡ default_settings) }
    {
        let settings = Settings {
            order: Order::None,
            rules: Rules {
                work: Work::Length,
                fails: FailRules::from_slice(alloc, &[])?,
            },
            map_limit: MAX_METADATA_BYTES as u32,
            press_percent: 75,
            delays: Delays::from_slice(alloc, &[100])?,
            give_up: 10,
            buffer: 5_000,
            poll_max: 500,
            commit_every: 1_000,
            bad_map: BadMapRule::Redo,
            starts: Starts::from_slice(alloc, &[])?,
        };
        Ok(Setup { settings })
    }
}

#[tactic(auto, unfolding(crate::specs::Ranges::settings_fault))]
fn check_settings(s: &Settings) -> Result<(), SetupFault>
    ensures { result ≡ refuses (settings_fault s.now) }
{
    check_numbers(s)?;
    check_delays(s.delays.as_slice())?;
    check_rules(s.rules.fails.as_slice())?;
    check_starts(s.starts.as_slice())
}

/// Refuses a value outside the field's range.
fn check_range(field: SetupField, value: u64) -> Result<(), SetupFault>
    ensures { result ≡ refuses (range_fault field value) }
{
    let (least, most) = field.range();
    if least <= value && value <= most {
        Ok(())
    } else {
        Err(SetupFault::OutOfRange { field, least, most })
    }
}

fn check_numbers(s: &Settings) -> Result<(), SetupFault>
    ensures { result ≡ refuses (number_fault s.now) }
{
    check_range(SetupField::MapLimit, u64::from(s.map_limit))?;
    check_range(SetupField::PressPercent, u64::from(s.press_percent))?;
    check_range(SetupField::GiveUp, u64::from(s.give_up))?;
    check_range(SetupField::Buffer, u64::from(s.buffer))?;
    check_range(SetupField::PollMax, u64::from(s.poll_max))?;
    check_range(SetupField::CommitEvery, u64::from(s.commit_every))
}

fn check_delays(delays: &[u64]) -> Result<(), SetupFault>
    ensures { result ≡ refuses (delays_fault delays.now) }
{
    check_range(SetupField::Delays, delays.len() as u64)?;
    check_each_delay(delays)
}

fn check_each_delay(delays: &[u64]) -> Result<(), SetupFault>
    ensures { result ≡ refuses (first_some delay_fault delays.now) }
{
    for delay in delays {
        check_range(SetupField::Delay, *delay)?;
    }
    Ok(())
}

fn check_rule(rule: &FailRule) -> Result<(), SetupFault>
    ensures { result ≡ refuses (rule_fault rule.now) }
{
    check_range(SetupField::FailPart, u64::from(rule.part))?;
    check_range(SetupField::FailOffset, rule.offset)?;
    check_range(SetupField::FailTimes, u64::from(rule.times))
}

fn check_rules(fails: &[FailRule]) -> Result<(), SetupFault>
    ensures { result ≡ refuses (rules_fault fails.now) }
{
    check_range(SetupField::Fails, fails.len() as u64)?;
    check_each_rule(fails)
}

fn check_each_rule(fails: &[FailRule]) -> Result<(), SetupFault>
    ensures { result ≡ refuses (first_some rule_fault fails.now) }
{
    for rule in fails {
        check_rule(rule)?;
    }
    Ok(())
}

fn check_start(start: &Start) -> Result<(), SetupFault>
    ensures { result ≡ refuses (start_fault start.now) }
{
    check_range(SetupField::StartPart, u64::from(start.part))?;
    check_range(SetupField::StartPosition, start.position)?;
    check_range(SetupField::StartMap, start.map.as_str().len() as u64)
}

fn check_starts(starts: &[Start]) -> Result<(), SetupFault>
    ensures { result ≡ refuses (starts_fault starts.now) }
{
    check_range(SetupField::Starts, starts.len() as u64)?;
    check_each_start(starts)?;
    check_parts(starts)
}

fn check_each_start(starts: &[Start]) -> Result<(), SetupFault>
    ensures { result ≡ refuses (first_some start_fault starts.now) }
{
    for start in starts {
        check_start(start)?;
    }
    Ok(())
}

/// Refuses a part that stands in two starts.
fn check_parts(starts: &[Start]) -> Result<(), SetupFault>
    ensures { result ≡ refuses (twice_fault [] starts.now) }
{
    for (i, start) in starts.iter().enumerate() {
        if has_part(&starts[..i], start.part) {
            return Err(SetupFault::PartTwice { part: start.part });
        }
    }
    Ok(())
}

/// Whether one of the starts is of the part.
fn has_part(starts: &[Start], part: u32) -> bool
    ensures { result ≡ list_any (λ t. t.part == part) starts.now }
{
    starts.iter().any(|start| start.part == part)
}

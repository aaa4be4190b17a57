//! The keys whose value is one word or one number.

ghost use Rattle.std.specs.Prelude.{◌≡◌, IfOk};
ghost use Rattle.toml.specs.View.{table_view};
ghost use Rattle.pc_config.specs.Config.{front_of, back_of, IsFront, IsBack};

use crate::fault::KeyFault;
use crate::key::Key;
use crate::member::number_or_default;
use crate::words::{bad_map, order, work};
use pc_model::{BadMapRule, Order, Work};
use toml::Table;

/// What holds where a key is absent.
pub(crate) const DEFAULT_WORKERS: u64 = 16;

const DEFAULT_MAP_LIMIT: u64 = 4_096;

const DEFAULT_PRESS_PERCENT: u64 = 75;

const DEFAULT_GIVE_UP: u64 = 10;

const DEFAULT_BUFFER: u64 = 5_000;

const DEFAULT_POLL_MAX: u64 = 500;

const DEFAULT_COMMIT_EVERY: u64 = 1_000;

/// The keys before the delays.
#[derive(Clone, Copy, Debug)]
pub(crate) struct FrontKeys {
    pub(crate) order: Order,
    pub(crate) work: Work,
    pub(crate) workers: u32,
    pub(crate) map_limit: u32,
    pub(crate) press_percent: u32,
}

/// The keys from the delays to the lists of tables.
#[derive(Clone, Copy, Debug)]
pub(crate) struct BackKeys {
    pub(crate) give_up: u32,
    pub(crate) buffer: u32,
    pub(crate) poll_max: u32,
    pub(crate) commit_every: u32,
    pub(crate) bad_map: BadMapRule,
}

#[tactic(auto, unfolding(crate::specs::Config::front_of))]
pub(crate) fn front(table: &Table) -> Result<FrontKeys, KeyFault>
    ensures read { result ≡ front_of (table_view table.now) }
    ensures in_range { IfOk result (λ f. IsFront f) }
{
    let order = order(table)?;
    let work = work(table)?;
    let workers = number_or_default(table, Key::Workers, DEFAULT_WORKERS)? as u32;
    let map_limit = number_or_default(table, Key::MapLimit, DEFAULT_MAP_LIMIT)? as u32;
    let press_percent = number_or_default(table, Key::PressPercent, DEFAULT_PRESS_PERCENT)? as u32;
    Ok(FrontKeys {
        order,
        work,
        workers,
        map_limit,
        press_percent,
    })
}

#[tactic(auto, unfolding(crate::specs::Config::back_of))]
pub(crate) fn back(table: &Table) -> Result<BackKeys, KeyFault>
    ensures read { result ≡ back_of (table_view table.now) }
    ensures in_range { IfOk result (λ b. IsBack b) }
{
    let give_up = number_or_default(table, Key::GiveUp, DEFAULT_GIVE_UP)? as u32;
    let buffer = number_or_default(table, Key::Buffer, DEFAULT_BUFFER)? as u32;
    let poll_max = number_or_default(table, Key::PollMax, DEFAULT_POLL_MAX)? as u32;
    let commit_every = number_or_default(table, Key::CommitEvery, DEFAULT_COMMIT_EVERY)? as u32;
    let bad_map = bad_map(table)?;
    Ok(BackKeys {
        give_up,
        buffer,
        poll_max,
        commit_every,
        bad_map,
    })
}

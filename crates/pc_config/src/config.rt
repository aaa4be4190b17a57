//! The configuration of a run.

ghost use Rattle.std.specs.Prelude.{◌≡◌, ◌≤◌, [], Ok, Err, None, IfOk, IfErr};
ghost use Rattle.toml.specs.View.{table_view};
ghost use Rattle.pc_model.specs.Defaults.{default_settings};
ghost use Rattle.pc_model.specs.Ranges.{settings_fault};
ghost use Rattle.pc_config.specs.declared.fault.ConfigFault.TheVariants.{NoMemory};
ghost use Rattle.pc_config.specs.Config.{config_of, configured, configured_of, settings_from, IsFront};

use crate::delays::delays;
use crate::fails::fails;
use crate::fault::{ConfigFault, or_fault};
use crate::place::Place;
use crate::scalars::{DEFAULT_WORKERS, back, front};
use crate::starts::starts;
use crate::unknown::check_keys;
use pc_model::{Rules, Settings, Setup};
use std::alloc::{AllocError, Global};
use toml::Table;

/// The setup of a run, and how many workers run its jobs.
#[derive(Debug, Drop)]
pub struct Config {
    pub setup: Setup,
    /// From 1 to 256; 16 where the text does not say.
    pub workers: u32,
}

/// The configuration of a TOML document, or its first fault: `NotToml`; the least unknown key by
/// its bytes; then key by key, in the order of `order`, `function`, `workers`, `map_limit`,
/// `press_percent`, `delays`, `give_up`, `buffer`, `poll_max`, `commit_every`, `bad_map`, `fail`,
/// `start`.
///
/// For one key `BadValue` stands before `OutOfRange`. In a list an item of another type stands
/// before the length, and the length before what is wrong inside an item. In a table of `fail` or
/// `start` its least unknown key comes first, then each key: `MissingKey`, `BadValue`,
/// `OutOfRange`. A part that an earlier table of `start` has is `BadValue` of `start.part`.
#[tactic(auto, unfolding(crate::specs::Config::config_of))]
pub fn read_config(alloc: Global, bytes: &[u8]) -> Result<Config, ConfigFault>
    ensures ok { IfOk result (λ c. config_of bytes.now ≡ Ok (configured c)) }
    ensures fault { IfErr result (λ f. ¬ (f ≡ NoMemory) → config_of bytes.now ≡ Err f) }
    ensures workers_least { IfOk result (λ c. 1 ≤ c.workers) }
    ensures workers_most { IfOk result (λ c. c.workers ≤ 256) }
{
    match toml::table_from_slice(alloc, bytes) {
        Ok(table) => of_table(alloc, &table),
        Err(error) => {
            if error.is_memory() {
                Err(ConfigFault::NoMemory)
            } else {
                Err(ConfigFault::NotToml)
            }
        }
    }
}

fn of_table(alloc: Global, table: &Table) -> Result<Config, ConfigFault>
    ensures ok { IfOk result (λ c. configured_of (table_view table.now) ≡ Ok (configured c)) }
    ensures fault { IfErr result
        (λ f. ¬ (f ≡ NoMemory) → configured_of (table_view table.now) ≡ Err f) }
    ensures workers_least { IfOk result (λ c. 1 ≤ c.workers) }
    ensures workers_most { IfOk result (λ c. c.workers ≤ 256) }
{
    let (settings, workers) = settings(alloc, table)?;
    Ok(in_range(settings, workers))
}

#[tactic(auto, unfolding(crate::specs::Config::configured_of))]
fn settings(alloc: Global, table: &Table) -> Result<(Settings, u32), ConfigFault>
    ensures ok { IfOk result (λ p. configured_of (table_view table.now)
        ≡ Ok (record { settings = p.0; workers = p.1 })) }
    ensures fault { IfErr result
        (λ f. ¬ (f ≡ NoMemory) → configured_of (table_view table.now) ≡ Err f) }
    ensures in_range { IfOk result (λ p. settings_fault p.0 ≡ None) }
    ensures workers_least { IfOk result (λ p. 1 ≤ p.1) }
    ensures workers_most { IfOk result (λ p. p.1 ≤ 256) }
{
    check_keys(alloc, Place::Top, table)?;
    let front = or_fault(alloc, front(table))?;
    let delays = delays(alloc, table)?;
    let back = or_fault(alloc, back(table))?;
    let fails = fails(alloc, table)?;
    let starts = starts(alloc, table)?;
    let settings = Settings {
        order: front.order,
        rules: Rules {
            work: front.work,
            fails,
        },
        map_limit: front.map_limit,
        press_percent: front.press_percent,
        delays,
        give_up: back.give_up,
        buffer: back.buffer,
        poll_max: back.poll_max,
        commit_every: back.commit_every,
        bad_map: back.bad_map,
        starts,
    };
    Ok((settings, front.workers))
}

/// The configuration of values that are all in range.
fn in_range(settings: Settings, workers: u32) -> Config
    requires { settings_fault settings ≡ None }
    ensures { configured result ≡ record { settings = settings; workers = workers } }
{
    match Setup::new(settings) {
        Ok(setup) => Config { setup, workers },
        Err(_) => unreachable!(),
    }
}

/// The configuration of the empty text. The only error is out of memory.
pub fn default_config(alloc: Global) -> Result<Config, AllocError>
    ensures empty { IfOk result (λ c. config_of [] ≡ Ok (configured c)) }
    ensures settings { IfOk result (λ c. c.setup.settings ≡ default_settings) }
    ensures workers { IfOk result (λ c. c.workers ≡ 16) }
{
    Ok(Config {
        setup: Setup::with_defaults(alloc)?,
        workers: DEFAULT_WORKERS as u32,
    })
}

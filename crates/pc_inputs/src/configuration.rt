//! The setup and the number of workers that the text of a configuration gives.

ghost use Rattle.std.specs.Prelude.{◌≡◌, ◌≤◌, ◌⊎◌, Err, IfOk};
ghost use Rattle.std.specs.Result.{result_map_both};
ghost use Rattle.pc_config.specs.Config.{configured};
ghost use Rattle.pc_inputs.specs.Configuration.{configured_in};
ghost use Rattle.pc_inputs.specs.Reading.{config_text};
ghost use Rattle.pc_inputs.specs.declared.status.Status.TheVariants.{NoMemory};

use crate::status::Status;
use pc_config::{Config, default_config, read_config};
use std::alloc::Global;

/// The configuration of a text, or the status of its first fault. Without a file it is the default
/// configuration.
pub(crate) fn config_in(alloc: Global, text: &Option<Vec<u8>>) -> Result<Config, Status>
    ensures config { (result ≡ Err NoMemory) ⊎ (result_map_both configured (λ s. s) result
        ≡ configured_in (config_text text.now)) }
    ensures least { IfOk result (λ config. 1 ≤ config.workers) }
    ensures most { IfOk result (λ config. config.workers ≤ 256) }
{
    match text {
        Some(text) => Ok(read_config(alloc, text.as_slice())?),
        None => Ok(default_config(alloc)?),
    }
}

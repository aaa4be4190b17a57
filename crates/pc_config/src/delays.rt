//! The key `delays`.

ghost use Rattle.std.specs.Prelude.{◌≡◌, [], map, Ok, Err, IfOk, IfErr};
ghost use Rattle.toml.specs.View.{view, table_view};
ghost use Rattle.pc_config.specs.declared.fault.ConfigFault.TheVariants.{NoMemory};
ghost use Rattle.pc_config.specs.Lists.{read_each, delay_of, delays_of};

use crate::fault::{ConfigFault, KeyFault, or_fault, public_fault};
use crate::key::Key;
use crate::lists::check_integers;
use crate::member::{list_of, number};
use pc_model::Delays;
use std::alloc::Global;
use toml::{Table, Value};

/// The one delay where the key is absent.
const DEFAULT_DELAY: u64 = 100;

/// The delays of a configuration.
#[tactic(auto, unfolding(crate::specs::Lists::delays_of))]
pub(crate) fn delays(alloc: Global, table: &Table) -> Result<Delays, ConfigFault>
    ensures ok { IfOk result (λ d. delays_of (table_view table.now) ≡ Ok d) }
    ensures fault { IfErr result
        (λ f. ¬ (f ≡ NoMemory) → delays_of (table_view table.now) ≡ Err f) }
{
    match list_of(table, Key::Delays) {
        None => Ok(Delays::from_slice(alloc, &[DEFAULT_DELAY])?),
        Some(None) => Err(public_fault(alloc, KeyFault::Bad(Key::Delays))),
        Some(Some(values)) => {
            or_fault(alloc, check_integers(Key::Delays, values))?;
            let items = each_delay(alloc, values)?;
            Ok(Delays::from_slice(alloc, items.as_slice())?)
        }
    }
}

fn each_delay(alloc: Global, values: &[Value]) -> Result<Vec<u64>, ConfigFault>
    ensures ok { IfOk result (λ d. read_each delay_of [] (map view values.now) ≡ Ok d.items) }
    ensures fault { IfErr result
        (λ f. ¬ (f ≡ NoMemory) → read_each delay_of [] (map view values.now) ≡ Err f) }
{
    let mut items = Vec::new(alloc);
    for value in values {
        match delay(alloc, value) {
            Ok(delay) => items.push(delay)?,
            Err(fault) => return Err(fault),
        }
    }
    Ok(items)
}

fn delay(alloc: Global, value: &Value) -> Result<u64, ConfigFault>
    ensures ok { IfOk result (λ d. delay_of [] (view value.now) ≡ Ok d) }
    ensures fault { IfErr result
        (λ f. ¬ (f ≡ NoMemory) → delay_of [] (view value.now) ≡ Err f) }
{
    or_fault(alloc, number(Key::Delay, value.as_integer()))
}

//! The key `fail`.

ghost use Rattle.std.specs.Prelude.{◌≡◌, [], map, Ok, Err, IfOk, IfErr};
ghost use Rattle.toml.specs.View.{view, table_view};
ghost use Rattle.pc_config.specs.declared.fault.ConfigFault.TheVariants.{NoMemory};
ghost use Rattle.pc_config.specs.Lists.{read_each, fail_item, fail_of, fail_numbers, fails_of};

use crate::fault::{ConfigFault, KeyFault, or_fault, public_fault};
use crate::key::Key;
use crate::lists::check_tables;
use crate::member::{list_of, needed_number};
use crate::place::Place;
use crate::unknown::check_keys;
use pc_model::{FailRule, FailRules};
use std::alloc::Global;
use toml::{Table, Value};

/// The fail rules of a configuration.
#[tactic(auto, unfolding(crate::specs::Lists::fails_of))]
pub(crate) fn fails(alloc: Global, table: &Table) -> Result<FailRules, ConfigFault>
    ensures ok { IfOk result (λ f. fails_of (table_view table.now) ≡ Ok f) }
    ensures fault { IfErr result
        (λ f. ¬ (f ≡ NoMemory) → fails_of (table_view table.now) ≡ Err f) }
{
    match list_of(table, Key::Fail) {
        None => Ok(FailRules::from_slice(alloc, &[])?),
        Some(None) => Err(public_fault(alloc, KeyFault::Bad(Key::Fail))),
        Some(Some(values)) => {
            or_fault(alloc, check_tables(Key::Fail, values))?;
            let items = each_rule(alloc, values)?;
            Ok(FailRules::from_slice(alloc, items.as_slice())?)
        }
    }
}

fn each_rule(alloc: Global, values: &[Value]) -> Result<Vec<FailRule>, ConfigFault>
    ensures ok { IfOk result (λ d. read_each fail_item [] (map view values.now) ≡ Ok d.items) }
    ensures fault { IfErr result
        (λ f. ¬ (f ≡ NoMemory) → read_each fail_item [] (map view values.now) ≡ Err f) }
{
    let mut items = Vec::new(alloc);
    for value in values {
        match rule(alloc, value) {
            Ok(rule) => items.push(rule)?,
            Err(fault) => return Err(fault),
        }
    }
    Ok(items)
}

fn rule(alloc: Global, value: &Value) -> Result<FailRule, ConfigFault>
    ensures ok { IfOk result (λ r. fail_item [] (view value.now) ≡ Ok r) }
    ensures fault { IfErr result
        (λ f. ¬ (f ≡ NoMemory) → fail_item [] (view value.now) ≡ Err f) }
{
    match value.as_table() {
        Some(table) => {
            check_keys(alloc, Place::Fail, table)?;
            or_fault(alloc, numbers(table))
        }
        None => Err(public_fault(alloc, KeyFault::Bad(Key::Fail))),
    }
}

#[tactic(auto, unfolding(crate::specs::Lists::fail_numbers))]
fn numbers(table: &Table) -> Result<FailRule, KeyFault>
    ensures { result ≡ fail_numbers (table_view table.now) }
{
    let part = needed_number(table, Key::FailPart)? as u32;
    let offset = needed_number(table, Key::FailOffset)?;
    let times = needed_number(table, Key::FailTimes)? as u32;
    Ok(FailRule {
        part,
        offset,
        times,
    })
}

//! The key `start`.

ghost use Rattle.std.specs.Prelude.{◌≡◌, ◌≤◌, ◌==◌, [], map, option_map, Ok, Err, IfOk, IfErr};
ghost use Rattle.std.specs.List.{list_any};
ghost use Rattle.std.specs.Result.{MatchResult};
ghost use Rattle.toml.specs.View.{view, table_view};
ghost use Rattle.pc_config.specs.declared.fault.ConfigFault.TheVariants.{NoMemory};
ghost use Rattle.pc_config.specs.Lists.{read_each, start_item, start_of, start_place, start_map, start_values, starts_of};

use crate::fault::{ConfigFault, KeyFault, or_fault, public_fault};
use crate::key::Key;
use crate::lists::{check_count, check_tables};
use crate::member::{list_of, needed_number, text_of};
use crate::place::Place;
use crate::unknown::check_keys;
use pc_model::{MapText, Start, Starts};
use std::alloc::Global;
use toml::{Table, Value};

/// The starts of a configuration.
#[tactic(auto, unfolding(crate::specs::Lists::starts_of))]
pub(crate) fn starts(alloc: Global, table: &Table) -> Result<Starts, ConfigFault>
    ensures ok { IfOk result (λ s. starts_of (table_view table.now) ≡ Ok s) }
    ensures fault { IfErr result
        (λ f. ¬ (f ≡ NoMemory) → starts_of (table_view table.now) ≡ Err f) }
{
    match list_of(table, Key::Start) {
        None => Ok(Starts::from_slice(alloc, &[])?),
        Some(None) => Err(public_fault(alloc, KeyFault::Bad(Key::Start))),
        Some(Some(values)) => {
            or_fault(alloc, check_tables(Key::Start, values))?;
            let items = each_start(alloc, values)?;
            Ok(Starts::from_slice(alloc, items.as_slice())?)
        }
    }
}

fn each_start(alloc: Global, values: &[Value]) -> Result<Vec<Start>, ConfigFault>
    ensures ok { IfOk result (λ d. read_each start_item [] (map view values.now) ≡ Ok d.items) }
    ensures fault { IfErr result
        (λ f. ¬ (f ≡ NoMemory) → read_each start_item [] (map view values.now) ≡ Err f) }
{
    let mut items = Vec::new(alloc);
    for value in values {
        match start(alloc, items.as_slice(), value) {
            Ok(start) => items.push(start)?,
            Err(fault) => return Err(fault),
        }
    }
    Ok(items)
}

fn start(alloc: Global, before: &[Start], value: &Value) -> Result<Start, ConfigFault>
    ensures ok { IfOk result (λ s. start_item before.now (view value.now) ≡ Ok s) }
    ensures fault { IfErr result
        (λ f. ¬ (f ≡ NoMemory) → start_item before.now (view value.now) ≡ Err f) }
{
    match value.as_table() {
        Some(table) => {
            check_keys(alloc, Place::Start, table)?;
            values(alloc, before, table)
        }
        None => Err(public_fault(alloc, KeyFault::Bad(Key::Start))),
    }
}

#[tactic(auto, unfolding(crate::specs::Lists::start_values))]
fn values(alloc: Global, before: &[Start], table: &Table) -> Result<Start, ConfigFault>
    ensures ok { IfOk result (λ s. start_values before.now (table_view table.now) ≡ Ok s) }
    ensures fault { IfErr result
        (λ f. ¬ (f ≡ NoMemory) → start_values before.now (table_view table.now) ≡ Err f) }
{
    let (part, position) = or_fault(alloc, place(before, table))?;
    match map_text(table) {
        Ok(text) => Ok(Start {
            part,
            position,
            map: MapText::from_str(alloc, text)?,
        }),
        Err(fault) => Err(public_fault(alloc, fault)),
    }
}

#[tactic(auto, unfolding(crate::specs::Lists::start_place))]
fn place(before: &[Start], table: &Table) -> Result<(u32, u64), KeyFault>
    ensures { result ≡ start_place before.now (table_view table.now) }
{
    let part = needed_number(table, Key::StartPart)? as u32;
    if has_part(before, part) {
        return Err(KeyFault::Bad(Key::StartPart));
    }
    let position = needed_number(table, Key::StartPosition)?;
    Ok((part, position))
}

/// Whether one of the starts is of the part.
fn has_part(starts: &[Start], part: u32) -> bool
    ensures { result ≡ list_any (λ s. s.part == part) starts.now }
{
    starts.iter().any(|start| start.part == part)
}

#[tactic(auto, unfolding(crate::specs::Lists::start_map))]
fn map_text<'a>(table: &'a Table) -> Result<&'a str, KeyFault>
    ensures { let read = start_map (table_view table.now) in
        MatchResult result (λ s. read ≡ Ok s.now) (λ f. read ≡ Err f) }
{
    match text_of(table, Key::StartMap) {
        None => Ok(""),
        Some(None) => Err(KeyFault::Bad(Key::StartMap)),
        Some(Some(text)) => match check_count(Key::StartMap, text.len()) {
            Ok(()) => Ok(text),
            Err(fault) => Err(fault),
        },
    }
}

//! Keys that a table may not have.

ghost use Rattle.std.specs.Prelude.{◌≡◌, Ok, Err, IfOk, IfErr, not, option_copied, option_map, string_bytes};
ghost use Rattle.std.specs.BTreeMap.{keys};
ghost use Rattle.std.specs.List.{find};
ghost use Rattle.std.specs.List.Sorted.{IsStrictlySortedBy};
ghost use Rattle.std.specs.String.{string_cmp};
ghost use Rattle.toml.specs.View.{table_view};
ghost use Rattle.pc_config.specs.declared.fault.ConfigFault.TheVariants.{NoMemory};
ghost use Rattle.pc_config.specs.Members.{is_key, unknown_in, known_keys};

use crate::fault::{ConfigFault, unknown_key};
use crate::place::Place;
use std::alloc::Global;
use toml::Table;

/// Refuses a table with a key that its place does not have, and names the least by its bytes.
#[tactic(auto, unfolding(crate::specs::Members::known_keys))]
pub(crate) fn check_keys(alloc: Global, place: Place, table: &Table) -> Result<(), ConfigFault>
    ensures ok { IfOk result (λ x. known_keys place (table_view table.now) ≡ Ok x) }
    ensures fault { IfErr result
        (λ f. ¬ (f ≡ NoMemory) → known_keys place (table_view table.now) ≡ Err f) }
{
    match unknown_word(place, table) {
        Some(word) => Err(unknown_key(alloc, place.prefix(), word)),
        None => Ok(()),
    }
}

/// The least key by its bytes that the table may not have.
fn unknown_word<'a>(place: Place, table: &'a Table) -> Option<&'a str>
    ensures { option_map (λ s. s.now) result ≡ unknown_in place (table_view table.now) }
{
    match first_unknown(place, table) {
        Some(word) => Some(word.as_str()),
        None => None,
    }
}

/// The first such key of the map, whose keys ascend.
fn first_unknown<'a>(place: Place, table: &'a Table) -> Option<&'a String>
    ensures first { option_copied result
        ≡ find (λ word. not (is_key place (string_bytes word))) (keys table.now) }
    ensures ascend { IsStrictlySortedBy string_cmp (keys table.now) }
{
    table.keys().find(|word| !is_key(place, word.as_str()))
}

/// Whether a table of this place may have the key.
fn is_key(place: Place, word: &str) -> bool
    ensures { result ≡ is_key place word.now }
{
    place.keys().iter().any(|key| key.row().word == word)
}

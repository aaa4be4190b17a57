//! The members of a table, each of its type.

ghost use Rattle.std.specs.Prelude.{◌≡◌, ◌≤◌, IfOk, map, option_map};
ghost use Rattle.toml.specs.Data.{get_member};
ghost use Rattle.toml.specs.View.{view, table_view};
ghost use Rattle.pc_config.specs.Keys.{least_of, most_of};
ghost use Rattle.pc_config.specs.Members.{number_in, number_of, number_or, number_needed, member_of, integer_at, text_at, items_in, list_at};

use crate::fault::KeyFault;
use crate::key::Key;
use toml::{Table, Value};

/// The value at a word.
fn value_at<'a>(table: &'a Table, word: &str) -> Option<&'a Value>
    ensures { option_map (λ v. view v.now) result ≡ get_member word.now (table_view table.now) }
{
    table.get(word)
}

/// The value of a key.
#[tactic(auto, unfolding(crate::specs::Members::member_of))]
fn value_of<'a>(table: &'a Table, key: Key) -> Option<&'a Value>
    ensures { option_map (λ v. view v.now) result ≡ member_of key (table_view table.now) }
{
    value_at(table, key.row().word)
}

/// The integer of a key, or `None` inside where it has another type.
fn integer_of(table: &Table, key: Key) -> Option<Option<i64>>
    ensures { result ≡ integer_at key (table_view table.now) }
{
    match value_of(table, key) {
        Some(value) => Some(value.as_integer()),
        None => None,
    }
}

/// A number of the key, from its least to its most.
fn number_in_range(key: Key, value: i64) -> Result<u64, KeyFault>
    ensures read { result ≡ number_in key value }
    ensures least { IfOk result (λ n. least_of key ≤ n) }
    ensures most { IfOk result (λ n. n ≤ most_of key) }
{
    if value < 0 {
        return Err(KeyFault::Beyond(key));
    }
    let number = value as u64;
    let row = key.row();
    if row.least <= number && number <= row.most {
        Ok(number)
    } else {
        Err(KeyFault::Beyond(key))
    }
}

/// The number of a value.
pub(crate) fn number(key: Key, value: Option<i64>) -> Result<u64, KeyFault>
    ensures read { result ≡ number_of key value }
    ensures least { IfOk result (λ n. least_of key ≤ n) }
    ensures most { IfOk result (λ n. n ≤ most_of key) }
{
    match value {
        Some(value) => number_in_range(key, value),
        None => Err(KeyFault::Bad(key)),
    }
}

/// The number of a key that may be absent.
pub(crate) fn number_or_default(table: &Table, key: Key, default: u64) -> Result<u64, KeyFault>
    requires least { least_of key ≤ default }
    requires most { default ≤ most_of key }
    ensures read { result ≡ number_or key default (integer_at key (table_view table.now)) }
    ensures least { IfOk result (λ n. least_of key ≤ n) }
    ensures most { IfOk result (λ n. n ≤ most_of key) }
{
    match integer_of(table, key) {
        Some(value) => number(key, value),
        None => Ok(default),
    }
}

/// The number of a key that may not be absent.
pub(crate) fn needed_number(table: &Table, key: Key) -> Result<u64, KeyFault>
    ensures read { result ≡ number_needed key (integer_at key (table_view table.now)) }
    ensures least { IfOk result (λ n. least_of key ≤ n) }
    ensures most { IfOk result (λ n. n ≤ most_of key) }
{
    match integer_of(table, key) {
        Some(value) => number(key, value),
        None => Err(KeyFault::Missing(key)),
    }
}

/// The text of a key, or `None` inside where it has another type.
pub(crate) fn text_of<'a>(table: &'a Table, key: Key) -> Option<Option<&'a str>>
    ensures { option_map (option_map (λ s. s.now)) result ≡ text_at key (table_view table.now) }
{
    match value_of(table, key) {
        Some(value) => Some(value.as_str()),
        None => None,
    }
}

/// The items of a key's list, or `None` inside where it has another type.
pub(crate) fn list_of<'a>(table: &'a Table, key: Key) -> Option<Option<&'a [Value]>>
    ensures { option_map (option_map (λ vs. map view vs.now)) result
        ≡ list_at key (table_view table.now) }
{
    match value_of(table, key) {
        Some(value) => Some(items_in(value)),
        None => None,
    }
}

/// The items of a list.
fn items_in<'a>(value: &'a Value) -> Option<&'a [Value]>
    ensures { option_map (λ vs. map view vs.now) result ≡ items_in (view value.now) }
{
    match value.as_array() {
        Some(items) => Some(items.as_slice()),
        None => None,
    }
}

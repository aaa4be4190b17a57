//! What the lists of a configuration have in common.

ghost use Rattle.std.specs.Prelude.{◌≡◌, map};
ghost use Rattle.std.specs.List.{list_all};
ghost use Rattle.toml.specs.View.{view};
ghost use Rattle.pc_config.specs.Lists.{count_in, is_integer, is_table, list_fits};

use crate::fault::KeyFault;
use crate::key::Key;
use toml::Value;

/// Refuses a length that is out of the key's range.
pub(crate) fn check_count(key: Key, count: usize) -> Result<(), KeyFault>
    ensures { result ≡ count_in key count }
{
    let count = count as u64;
    let row = key.row();
    if row.least <= count && count <= row.most {
        Ok(())
    } else {
        Err(KeyFault::Beyond(key))
    }
}

/// Refuses a list of another type, then one of another length.
pub(crate) fn check_integers(key: Key, values: &[Value]) -> Result<(), KeyFault>
    ensures { result ≡ list_fits key is_integer (map view values.now) }
{
    if are_integers(values) {
        check_count(key, values.len())
    } else {
        Err(KeyFault::Bad(key))
    }
}

/// Refuses a list of another type, then one of another length.
pub(crate) fn check_tables(key: Key, values: &[Value]) -> Result<(), KeyFault>
    ensures { result ≡ list_fits key is_table (map view values.now) }
{
    if are_tables(values) {
        check_count(key, values.len())
    } else {
        Err(KeyFault::Bad(key))
    }
}

fn are_integers(values: &[Value]) -> bool
    ensures { result ≡ list_all (λ v. is_integer (view v)) values.now }
{
    values.iter().all(|value| value.is_integer())
}

fn are_tables(values: &[Value]) -> bool
    ensures { result ≡ list_all (λ v. is_table (view v)) values.now }
{
    values.iter().all(|value| value.is_table())
}

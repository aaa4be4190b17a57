//! Why a configuration is refused.

ghost use Rattle.std.specs.Prelude.{◌≡◌, ◌++◌, IfOk, IfErr, Ok, Err};
ghost use Rattle.pc_config.specs.declared.fault.ConfigFault.TheVariants.{UnknownKey, NoMemory};
ghost use Rattle.pc_config.specs.Faults.{fault_of, public};
ghost use Rattle.pc_config.specs.Keys.{name_of};

use crate::key::Key;
use pc_model::KeyText;
use std::alloc::{AllocError, AllocFailed, Global};
use std::error::Error;
use std::fmt;

/// The first fault of a configuration. A key of a table of `fail` or `start` is named with its
/// table, as `fail.part`.
#[derive(Debug, Drop)]
pub enum ConfigFault {
    /// The bytes are not a TOML document, or not UTF-8.
    NotToml,
    /// The document, or a table of `fail` or `start`, has this key, which is not one of its keys.
    UnknownKey(KeyText),
    /// A table of `fail` or `start` lacks this key.
    MissingKey(KeyText),
    /// The value has another type, or is a word that the key does not take; at `start.part` also a
    /// part that an earlier table has.
    BadValue(KeyText),
    /// A number, the length of a list or the bytes of a text lie outside the range, whose ends are
    /// both allowed.
    OutOfRange { key: KeyText, least: u64, most: u64 },
    /// Out of memory.
    NoMemory,
}

impl fmt::Display for ConfigFault {
    fn fmt<W: fmt::Write>(&self, f: &mut fmt::Formatter<W>) -> fmt::Result {
        match self {
            ConfigFault::NotToml => write!(f, "not TOML"),
            ConfigFault::UnknownKey(key) => {
                let key = key.as_str();
                write!(f, "unknown key {key}")
            }
            ConfigFault::MissingKey(key) => {
                let key = key.as_str();
                write!(f, "missing key {key}")
            }
            ConfigFault::BadValue(key) => {
                let key = key.as_str();
                write!(f, "bad value of {key}")
            }
            ConfigFault::OutOfRange { key, least, most } => {
                let key = key.as_str();
                write!(f, "{key} lies outside {least} to {most}")
            }
            ConfigFault::NoMemory => write!(f, "out of memory"),
        }
    }
}

impl Error for ConfigFault {}

impl<T: Drop> From<AllocFailed<T>> for ConfigFault {
    ghost from_gives = { λ _ e. e ≡ NoMemory };

    fn from(_failed: AllocFailed<T>) -> ConfigFault {
        ConfigFault::NoMemory
    }
}

impl From<AllocError> for ConfigFault {
    ghost from_gives = { λ _ e. e ≡ NoMemory };

    fn from(_failed: AllocError) -> ConfigFault {
        ConfigFault::NoMemory
    }
}

/// A fault of a key's value, before its name is written out.
#[derive(Clone, Copy, Debug, PartialEq, Eq)]
pub(crate) enum KeyFault {
    Missing(Key),
    Bad(Key),
    Beyond(Key),
}

/// The fault as callers see it, or `NoMemory`.
pub(crate) fn public_fault(alloc: Global, fault: KeyFault) -> ConfigFault
    ensures { ¬ (result ≡ NoMemory) → result ≡ fault_of fault }
{
    match written(alloc, fault) {
        Ok(fault) => fault,
        Err(_) => ConfigFault::NoMemory,
    }
}

fn written(alloc: Global, fault: KeyFault) -> Result<ConfigFault, AllocError>
    ensures { IfOk result (λ f. f ≡ fault_of fault) }
{
    match fault {
        KeyFault::Missing(key) => Ok(ConfigFault::MissingKey(named(alloc, key)?)),
        KeyFault::Bad(key) => Ok(ConfigFault::BadValue(named(alloc, key)?)),
        KeyFault::Beyond(key) => Ok(ConfigFault::OutOfRange {
            key: named(alloc, key)?,
            least: key.row().least,
            most: key.row().most,
        }),
    }
}

fn named(alloc: Global, key: Key) -> Result<KeyText, AllocError>
    ensures { IfOk result (λ t. t ≡ name_of key) }
{
    let row = key.row();
    joined(alloc, row.place.prefix(), row.word)
}

fn joined(alloc: Global, prefix: &str, word: &str) -> Result<KeyText, AllocError>
    ensures { IfOk result (λ t. t ≡ prefix.now ++ word.now) }
{
    let mut name = String::from_str(alloc, prefix)?;
    name.push_str(word)?;
    KeyText::from_str(alloc, name.as_str())
}

/// A key that its table does not have, or `NoMemory`.
pub(crate) fn unknown_key(alloc: Global, prefix: &str, word: &str) -> ConfigFault
    ensures { ¬ (result ≡ NoMemory) → result ≡ UnknownKey (prefix.now ++ word.now) }
{
    match joined(alloc, prefix, word) {
        Ok(key) => ConfigFault::UnknownKey(key),
        Err(_) => ConfigFault::NoMemory,
    }
}

/// What was read, with its fault as callers see it.
pub(crate) fn or_fault<T>(alloc: Global, read: Result<T, KeyFault>) -> Result<T, ConfigFault>
    ensures ok { IfOk result (λ x. public read ≡ Ok x) }
    ensures fault { IfErr result (λ f. ¬ (f ≡ NoMemory) → public read ≡ Err f) }
{
    match read {
        Ok(value) => Ok(value),
        Err(fault) => Err(public_fault(alloc, fault)),
    }
}

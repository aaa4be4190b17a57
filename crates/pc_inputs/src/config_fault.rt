//! The fault line of a configuration.

ghost use Rattle.std.specs.Prelude.{◌≡◌, ◌++◌, ◌∷◌, [], OnOk, OnErr, codes};
ghost use Rattle.pc_print.specs.Line.{marked};
ghost use Rattle.pc_config.specs.declared.fault.ConfigFault.TheVariants.{OutOfRange};
ghost use Rattle.pc_inputs.specs.ConfigFault.{config_words};
ghost use Rattle.pc_inputs.specs.Status.{fault_words_line};

use pc_config::ConfigFault;
use pc_model::KeyText;
use pc_print::Word::{Marked, Name, Number};
use pc_print::put_line;
use std::alloc::AllocError;

/// Appends the line of a configuration's fault, with its line feed. When out of memory `out` stays as
/// it was.
pub(crate) fn put_config_fault(out: &mut Vec<u8>, fault: &ConfigFault) -> Result<(), AllocError>
    ensures ok { OnOk result (out.new.items ≡ out.old.items
        ++ fault_words_line (codes "config" ∷ config_words fault.now)) }
    ensures err { OnErr result (out.new.items ≡ out.old.items) }
{
    match fault {
        ConfigFault::NotToml => put_line(out, b"fault", &[Name(b"config"), Name(b"not-toml")]),
        ConfigFault::UnknownKey(key) => put_key(out, b"unknown", key),
        ConfigFault::MissingKey(key) => put_key(out, b"missing", key),
        ConfigFault::BadValue(key) => put_key(out, b"value", key),
        ConfigFault::OutOfRange { key, least, most } => put_range(out, key, *least, *most),
        ConfigFault::NoMemory => put_line(out, b"fault", &[Name(b"config"), Name(b"no-memory")]),
    }
}

/// Appends the line of a fault of this kind at a key.
fn put_key<'a>(out: &mut Vec<u8>, kind: &'a [u8], key: &'a KeyText) -> Result<(), AllocError>
    ensures ok { OnOk result (out.new.items
        ≡ out.old.items ++ fault_words_line (codes "config" ∷ kind.now ∷ marked key.now ∷ [])) }
    ensures err { OnErr result (out.new.items ≡ out.old.items) }
{
    put_line(
        out,
        b"fault",
        &[Name(b"config"), Name(kind), Marked(key.as_str().as_bytes())],
    )
}

/// Appends the line of a key whose value lies outside this range.
fn put_range(out: &mut Vec<u8>, key: &KeyText, least: u64, most: u64) -> Result<(), AllocError>
    ensures ok { OnOk result (out.new.items
        ≡ out.old.items
        ++ fault_words_line (codes "config" ∷ config_words (OutOfRange key.now least most))) }
    ensures err { OnErr result (out.new.items ≡ out.old.items) }
{
    put_line(
        out,
        b"fault",
        &[
            Name(b"config"),
            Name(b"range"),
            Marked(key.as_str().as_bytes()),
            Number(least),
            Number(most),
        ],
    )
}

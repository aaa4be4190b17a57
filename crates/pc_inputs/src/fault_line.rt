//! Fault lines: the last line of the output of a status that is a fault of the input.

ghost use Rattle.std.specs.Prelude.{◌≡◌, ◌++◌, ◌∷◌, OnOk, OnErr, codes};
ghost use Rattle.pc_inputs.specs.Status.{client_words, fault_line, fault_words_line, limit_name};
ghost use Rattle.pc_inputs.specs.declared.status.Status.TheVariants.{BadScript, Undrained};

use crate::config_fault::put_config_fault;
use crate::log_fault::{LogPlace, put_log_fault};
use crate::status::{LimitKind, Status};
use pc_offset_client::ClientFault;
use pc_print::Word::{Marked, Name, Number, Signed};
use pc_print::{put_line, put_map_line};
use pc_script::ScriptKind;
use std::alloc::{AllocError, Global};

/// Appends the fault line of a status, with its line feed, and nothing where it has none. Out of
/// memory, `out` is as before.
#[tactic(auto, unfolding(crate::specs::Status::fault_line))]
pub fn put_fault(alloc: Global, out: &mut Vec<u8>, status: &Status) -> Result<(), AllocError>
    ensures ok { OnOk result (out.new.items ≡ out.old.items ++ fault_line status.now) }
    ensures err { OnErr result (out.new.items ≡ out.old.items) }
{
    match status {
        Status::Whole | Status::SinkFault | Status::NoMemory => Ok(()),
        Status::Usage => put_line(out, b"fault", &[Name(b"usage")]),
        Status::ReadFault { name } => put_line(
            out,
            b"fault",
            &[Name(b"read"), Marked(name.as_str().as_bytes())],
        ),
        Status::BadConfig(fault) => put_config_fault(out, fault),
        Status::BadLog { name, place, fault } => {
            let name = name.as_str().as_bytes();
            put_log_fault(
                out,
                LogPlace {
                    name,
                    place: *place,
                },
                *fault,
            )
        }
        Status::BadScript { line, kind } => put_bad_line(alloc, out, *line, *kind),
        Status::Undrained {
            part,
            offset,
            failures,
        } => put_undrained(out, *part, *offset, *failures),
        Status::LinkFault(fault) => put_link_fault(out, *fault),
        Status::Limit { which, number } => put_line(
            out,
            b"fault",
            &[Name(b"limit"), Name(limit_name(*which)), Number(*number)],
        ),
        Status::BadMap { part, fault } => put_map_line(
            out,
            b"fault",
            Name(b"map"),
            Number(u64::from(*part)),
            *fault,
        ),
    }
}

/// The word for what has a limit.
fn limit_name(which: LimitKind) -> &'static [u8]
    ensures { result.now ≡ limit_name which }
{
    match which {
        LimitKind::FileBytes => b"file-bytes",
        LimitKind::LogBytes => b"log-bytes",
        LimitKind::Records => b"records",
        LimitKind::ScriptLines => b"script-lines",
        LimitKind::Events => b"events",
    }
}

/// Appends the fault line of a bad line of a script.
#[tactic(auto, unfolding(crate::specs::Status::fault_line))]
fn put_bad_line(
    alloc: Global,
    out: &mut Vec<u8>,
    line: u64,
    kind: ScriptKind,
) -> Result<(), AllocError>
    ensures ok { OnOk result (out.new.items ≡ out.old.items ++ fault_line (BadScript line kind)) }
    ensures err { OnErr result (out.new.items ≡ out.old.items) }
{
    let text = format!(in alloc; "{kind}")?;
    let words = [Name(b"script"), Number(line), Name(text.as_bytes())];
    put_line(out, b"fault", &words)
}

/// Appends the fault line of a record that failed as often as it may.
#[tactic(auto, unfolding(crate::specs::Status::fault_line))]
fn put_undrained(out: &mut Vec<u8>, part: u32, offset: u64, failures: u32) -> Result<(), AllocError>
    ensures ok { OnOk result (out.new.items
        ≡ out.old.items ++ fault_line (Undrained part offset failures)) }
    ensures err { OnErr result (out.new.items ≡ out.old.items) }
{
    let words = [
        Name(b"undrained"),
        Number(u64::from(part)),
        Number(offset),
        Number(u64::from(failures)),
    ];
    put_line(out, b"fault", &words)
}

/// Appends the fault line of what the link's client did not do.
fn put_link_fault(out: &mut Vec<u8>, fault: ClientFault) -> Result<(), AllocError>
    ensures ok { OnOk result (out.new.items
        ≡ out.old.items ++ fault_words_line (codes "link" ∷ client_words fault)) }
    ensures err { OnErr result (out.new.items ≡ out.old.items) }
{
    match fault {
        ClientFault::LinkFailed => put_line(out, b"fault", &[Name(b"link"), Name(b"link-failed")]),
        ClientFault::Refused(code) => put_line(
            out,
            b"fault",
            &[Name(b"link"), Name(b"refused"), Signed(i64::from(code))],
        ),
        ClientFault::BadReply(_) => put_line(out, b"fault", &[Name(b"link"), Name(b"bad-reply")]),
        ClientFault::OtherReply { .. } => {
            put_line(out, b"fault", &[Name(b"link"), Name(b"other-reply")])
        }
        ClientFault::NoMemory => put_line(out, b"fault", &[Name(b"link"), Name(b"no-memory")]),
    }
}

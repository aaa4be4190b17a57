//! The lines of remarks.

ghost use Rattle.std.specs.Prelude.{◌≡◌, ◌++◌, ◌∷◌, OnOk, OnErr, codes};
ghost use Rattle.pc_inputs.specs.Status.{client_words};
ghost use Rattle.pc_print.specs.MapFault.{map_words};
ghost use Rattle.parcon.specs.Remark.{refusal_words, remark_line, words_at};

use pc_engine::EngineFault;
use pc_model::MapFault;
use pc_offset_client::ClientFault;
use pc_play::{Notice, Remark};
use pc_print::Word::{Label, Name, Number, Signed};
use pc_print::{put_line, put_map_line};
use std::alloc::AllocError;

/// Appends the line of a remark, with its line feed. When out of memory `out` stays as
/// it was.
#[tactic(auto, unfolding(crate::specs::Remark::remark_line))]
pub(crate) fn put_remark(out: &mut Vec<u8>, remark: &Remark) -> Result<(), AllocError>
    ensures ok { OnOk result (out.new.items ≡ out.old.items ++ remark_line remark.now) }
    ensures err { OnErr result (out.new.items ≡ out.old.items) }
{
    let n = remark.line;
    match remark.notice {
        Notice::Refused(fault) => put_refusal(out, n, fault),
        Notice::NoJob => put_line(out, b"line", &[Label(n), Name(b"none")]),
        Notice::AtEnd => put_line(out, b"line", &[Label(n), Name(b"at-end")]),
        Notice::OldTime => put_line(out, b"line", &[Label(n), Name(b"old-time")]),
        Notice::Stranger => put_line(out, b"line", &[Label(n), Name(b"stranger")]),
    }
}

/// Appends the line of a refusal.
fn put_refusal(out: &mut Vec<u8>, n: u64, fault: EngineFault) -> Result<(), AllocError>
    ensures ok { OnOk result (out.new.items ≡ out.old.items ++ words_at n (refusal_words fault)) }
    ensures err { OnErr result (out.new.items ≡ out.old.items) }
{
    match fault {
        EngineFault::Closed => put_line(out, b"line", &[Label(n), Name(b"closed")]),
        EngineFault::UnknownPart => put_line(out, b"line", &[Label(n), Name(b"unknown-part")]),
        EngineFault::AlreadyHeld => put_line(out, b"line", &[Label(n), Name(b"already-held")]),
        EngineFault::NotHeld => put_line(out, b"line", &[Label(n), Name(b"not-held")]),
        EngineFault::Draining => put_line(out, b"line", &[Label(n), Name(b"draining")]),
        EngineFault::Pressed { high } => {
            put_line(out, b"line", &[Label(n), Name(b"pressed"), Number(high)])
        }
        EngineFault::JournalFull => put_line(out, b"line", &[Label(n), Name(b"journal-full")]),
        EngineFault::NotDone { part, offset } => put_line(
            out,
            b"line",
            &[
                Label(n),
                Name(b"not-done"),
                Number(u64::from(part)),
                Number(offset),
            ],
        ),
        EngineFault::Uncommitted {
            part,
            stored,
            position,
        } => put_line(
            out,
            b"line",
            &[
                Label(n),
                Name(b"uncommitted"),
                Number(u64::from(part)),
                Number(stored),
                Number(position),
            ],
        ),
        EngineFault::Client(fault) => put_client(out, n, fault),
        EngineFault::BadMap(fault) => put_map(out, n, fault),
        EngineFault::NoMemory => put_line(out, b"line", &[Label(n), Name(b"no-memory")]),
    }
}

/// Appends the line of a remark that the link's client failed.
fn put_client(out: &mut Vec<u8>, n: u64, fault: ClientFault) -> Result<(), AllocError>
    ensures ok { OnOk result (out.new.items ≡ out.old.items ++ words_at n (client_words fault)) }
    ensures err { OnErr result (out.new.items ≡ out.old.items) }
{
    match fault {
        ClientFault::LinkFailed => put_line(out, b"line", &[Label(n), Name(b"link-failed")]),
        ClientFault::Refused(code) => put_line(
            out,
            b"line",
            &[Label(n), Name(b"refused"), Signed(i64::from(code))],
        ),
        ClientFault::BadReply(_) => put_line(out, b"line", &[Label(n), Name(b"bad-reply")]),
        ClientFault::OtherReply { .. } => put_line(out, b"line", &[Label(n), Name(b"other-reply")]),
        ClientFault::NoMemory => put_line(out, b"line", &[Label(n), Name(b"no-memory")]),
    }
}

/// Appends the line of a remark that a stored map does not read.
fn put_map(out: &mut Vec<u8>, n: u64, fault: MapFault) -> Result<(), AllocError>
    ensures ok { OnOk result (out.new.items
        ≡ out.old.items ++ words_at n (codes "bad-map" ∷ map_words fault)) }
    ensures err { OnErr result (out.new.items ≡ out.old.items) }
{
    put_map_line(out, b"line", Label(n), Name(b"bad-map"), fault)
}

//! The fault line of a log that does not read: its file, the place of the batch, and what is wrong.

ghost use Rattle.std.specs.Prelude.{◌≡◌, ◌++◌, ◌∷◌, [], OnOk, OnErr};
ghost use Rattle.pc_print.specs.Word.{word_text};
ghost use Rattle.pc_inputs.specs.LogFault.{batch_words, fault_words, log_line, record_word};

use pc_batch::{BatchFault, RecordKind};
use pc_cursor::LogFaultKind;
use pc_print::Word::{self, Marked, Name, Number, Signed};
use pc_print::put_line;
use std::alloc::AllocError;

/// A place in the log of a file.
#[derive(Clone, Copy, Debug)]
pub(crate) struct LogPlace<'a> {
    pub(crate) name: &'a [u8],
    pub(crate) place: u64,
}

/// Appends the line of a log's fault, with its line feed. Out of memory, `out` is as
/// before.
pub(crate) fn put_log_fault(
    out: &mut Vec<u8>,
    at: LogPlace<'_>,
    fault: LogFaultKind,
) -> Result<(), AllocError>
    ensures ok { OnOk result
        (out.new.items ≡ out.old.items ++ log_line at.entry.name.now at.entry.place (fault_words fault)) }
    ensures err { OnErr result (out.new.items ≡ out.old.items) }
{
    match fault {
        LogFaultKind::Batch(fault) => put_batch_fault(out, at, fault),
        LogFaultKind::OffsetsFall { last, next } => {
            put_two(out, at, b"offsets-fall", Number(last), Number(next))
        }
    }
}

/// Appends the line of a batch's fault.
fn put_batch_fault(out: &mut Vec<u8>, at: LogPlace<'_>, fault: BatchFault) -> Result<(), AllocError>
    ensures ok { OnOk result
        (out.new.items ≡ out.old.items ++ log_line at.entry.name.now at.entry.place (batch_words fault)) }
    ensures err { OnErr result (out.new.items ≡ out.old.items) }
{
    match fault {
        BatchFault::Short { place, need } => {
            put_two(out, at, b"short", Number(place), Number(need))
        }
        BatchFault::BadMagic(magic) => put_one(out, at, b"magic", Signed(i64::from(magic))),
        BatchFault::BadLength(length) => put_one(out, at, b"length", Signed(i64::from(length))),
        BatchFault::BadCrc { stored, found } => {
            let found = Number(u64::from(found));
            put_two(out, at, b"crc", Number(u64::from(stored)), found)
        }
        BatchFault::Compressed(code) => { put_one(out, at, b"compressed", Number(u64::from(code))) }
        BatchFault::OffsetRange { base, delta } => {
            put_two(
                out,
                at,
                b"offset-range",
                Signed(base),
                Signed(i64::from(delta)),
            )
        }
        BatchFault::BadRecord { place, kind } => {
            put_two(out, at, b"record", Number(place), Name(record_word(kind)))
        }
        BatchFault::Count { header, found } => {
            let found = Number(u64::from(found));
            put_two(out, at, b"count", Signed(i64::from(header)), found)
        }
    }
}

/// The word for what is wrong with a record.
fn record_word(kind: RecordKind) -> &'static [u8]
    ensures { result.now ≡ record_word kind }
{
    match kind {
        RecordKind::Varint => b"varint",
        RecordKind::Length => b"length",
        RecordKind::Time => b"time",
        RecordKind::Delta => b"delta",
        RecordKind::KeyLength => b"keylength",
        RecordKind::ValueLength => b"valuelength",
        RecordKind::HeaderCount => b"headercount",
        RecordKind::HeaderKeyLength => b"headerkeylength",
        RecordKind::HeaderValueLength => b"headervaluelength",
        RecordKind::Past => b"past",
        RecordKind::Leftover => b"leftover",
    }
}

/// Appends the line of a fault of this name, which one word tells more of.
#[tactic(auto, unfolding(crate::specs::LogFault::log_line))]
fn put_one<'a>(
    out: &mut Vec<u8>,
    at: LogPlace<'a>,
    kind: &'a [u8],
    word: Word<'a>,
) -> Result<(), AllocError>
    ensures ok { OnOk result (out.new.items
        ≡ out.old.items ++ log_line at.entry.name.now at.entry.place (kind.now ∷ word_text word.entry ∷ [])) }
    ensures err { OnErr result (out.new.items ≡ out.old.items) }
{
    let words = [
        Name(b"log"),
        Marked(at.name),
        Name(b"at"),
        Number(at.place),
        Name(kind),
        word,
    ];
    put_line(out, b"fault", &words)
}

/// Appends the line of a fault of this name, which two words tell more of.
#[tactic(auto, unfolding(crate::specs::LogFault::log_line))]
fn put_two<'a>(
    out: &mut Vec<u8>,
    at: LogPlace<'a>,
    kind: &'a [u8],
    first: Word<'a>,
    second: Word<'a>,
) -> Result<(), AllocError>
    ensures ok { OnOk result (out.new.items ≡ out.old.items
        ++ log_line at.entry.name.now at.entry.place (kind.now ∷ word_text first.entry ∷ word_text second.entry ∷ [])) }
    ensures err { OnErr result (out.new.items ≡ out.old.items) }
{
    let words = [
        Name(b"log"),
        Marked(at.name),
        Name(b"at"),
        Number(at.place),
        Name(kind),
        first,
        second,
    ];
    put_line(out, b"fault", &words)
}

//! One record, read in place.

ghost use Rattle.std.specs.Prelude.{◌≡◌, ◌≤◌, ◌<◌, ◌^◌, Ok, Err, IfOk, IfErr, ◌↔◌, IsTrue};
ghost use Rattle.pc_bytes.specs.Fields.{Moves};
ghost use Rattle.pc_batch.specs.Fields.{Reads};
ghost use Rattle.pc_batch.specs.Record.{time_of, offset_of, body_at, record_at, plain, IsSound};

use crate::fault::RecordKind;
use crate::fields;
use crate::frame::{Frame, Times};
use crate::headers::Headers;
use pc_bytes::Reader;

/// A record, with its key, value and headers lent from the bytes of its log. A null key or value is
/// `None`, which is not the empty one. The time is in milliseconds.
#[derive(Clone, Copy, Debug)]
pub struct RecordRef<'a> {
    pub offset: u64,
    pub time: i64,
    pub key: Option<&'a [u8]>,
    pub value: Option<&'a [u8]>,
    pub headers: Headers<'a>,
}

impl RecordRef<'_> {
    /// Whether both records are the same: their offsets, times, keys, values and headers. A null
    /// key or value is another than the empty one.
    pub fn is_same(&self, other: &RecordRef<'_>) -> bool
        ensures { IsTrue result ↔ (plain self.now ≡ plain other.now) }
    {
        self.offset == other.offset
            && self.time == other.time
            && self.key == other.key
            && self.value == other.value
            && self.headers.are_same(other.headers)
    }
}

/// The record's time, from its delta.
fn time(times: Times, delta: i64) -> Result<i64, RecordKind>
    ensures { result ≡ time_of times delta }
{
    match times {
        Times::Each(base) => base.checked_add(delta).ok_or(RecordKind::Time),
        Times::All(greatest) => Ok(greatest),
    }
}

/// The record's offset, from its delta. It is not below `least`.
fn offset(frame: &Frame, least: u64, delta: i32) -> Result<u64, RecordKind>
    requires { IsSound frame.now }
    ensures value { result ≡ offset_of frame.now least delta }
    ensures within { IfOk result (λ offset. offset ≤ frame.now.last) }
{
    if delta < 0 {
        return Err(RecordKind::Delta);
    }
    let offset = frame.base + delta as u64;
    if offset < least || frame.last < offset {
        return Err(RecordKind::Delta);
    }
    Ok(offset)
}

/// The record that all of the bytes are, after its length.
#[tactic(auto, unfolding(crate::specs::Record::body_at))]
fn body<'a>(frame: &Frame, least: u64, bytes: &'a [u8]) -> Result<RecordRef<'a>, RecordKind>
    requires { IsSound frame.now }
    ensures value { IfOk result (λ r. body_at frame.now least bytes.now ≡ Ok (plain r)) }
    ensures within { IfOk result (λ r. r.offset ≤ frame.now.last) }
    ensures fault { IfErr result (λ kind. body_at frame.now least bytes.now ≡ Err kind) }
{
    let mut reader = Reader::new(bytes, 0);
    fields::byte(&mut reader)?;
    let stamp = fields::long(&mut reader)?;
    let time = time(frame.times, stamp)?;
    let delta = fields::int(&mut reader)?;
    let offset = offset(frame, least, delta)?;
    let key = fields::nullable(&mut reader, RecordKind::KeyLength)?;
    let value = fields::nullable(&mut reader, RecordKind::ValueLength)?;
    let headers = Headers::of_rest(&mut reader)?;
    Ok(RecordRef {
        offset,
        time,
        key,
        value,
        headers,
    })
}

/// The next record. Its offset is not below `least`.
#[tactic(auto, unfolding(crate::specs::Record::record_at))]
pub(crate) fn next<'a>(
    frame: &Frame,
    least: u64,
    reader: &mut Reader<'a>,
) -> Result<RecordRef<'a>, RecordKind>
    requires { IsSound frame.now }
    ensures value { Reads plain (record_at frame.now least reader.old.bytes)
        reader.new.bytes result }
    ensures moves { Moves reader.old reader.new }
    ensures within { IfOk result (λ r. r.offset ≤ frame.now.last) }
{
    let bytes = fields::sized(reader, RecordKind::Length, RecordKind::Length)?;
    body(frame, least, bytes)
}

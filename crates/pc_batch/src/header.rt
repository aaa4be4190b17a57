//! The header of a batch: its fields at their places, and the conditions that are on them.

ghost use Rattle.std.specs.Prelude.{◌≡◌, ◌≤◌, ◌+◌, ◌<◌, ◌^◌, Ok, Err, length, IfOk, IfErr};
ghost use Rattle.std.specs.Int.{w32, w64};
ghost use Rattle.pc_batch.specs.Record.{IsSound};
ghost use Rattle.pc_batch.specs.Batch.{number_from, signed_from, attributes, times_in, range_of, frame_of, is_control, intact, whole_at, whole_of, length_of, record_count};

use crate::fault::BatchFault;
use crate::frame::{Frame, Times};
use byteorder::{BigEndian, ByteOrder};
use pc_bytes::crc32c;

/// How many bytes the header has, up to the records.
pub(crate) const HEADER_LEN: usize = 61;

// How many bytes stand up to the end of the length field.
const LENGTH_END: usize = 12;
// The least length, that of a batch without records.
const LEAST_LENGTH: i32 = 49;
// The magic byte of version 2.
const MAGIC_2: u8 = 2;
// One more than the greatest offset.
const OFFSET_LIMIT: u64 = (1 << 63) - 1;

// The places of the fields.
const BASE_OFFSET: usize = 0;

const LENGTH: usize = 8;

const MAGIC: usize = 16;

const CRC: usize = 17;

const ATTRIBUTES: usize = 21;

const LAST_DELTA: usize = 23;

const BASE_TIME: usize = 27;

const MAX_TIME: usize = 35;

const COUNT: usize = 57;

fn i32_at(bytes: &[u8], at: usize) -> i32
    requires { at + 4 ≤ length bytes.now }
    ensures { result ≡ signed_from w32 at bytes.now }
{
    let (_, field) = bytes.split_at(at);
    BigEndian::read_i32(field)
}

fn i64_at(bytes: &[u8], at: usize) -> i64
    requires { at + 8 ≤ length bytes.now }
    ensures { result ≡ signed_from w64 at bytes.now }
{
    let (_, field) = bytes.split_at(at);
    BigEndian::read_i64(field)
}

fn attributes(bytes: &[u8]) -> u16
    requires { 61 ≤ length bytes.now }
    ensures { result ≡ attributes bytes.now }
{
    BigEndian::read_u16(&bytes[ATTRIBUTES..])
}

/// Whether the records are markers of the broker's own.
pub(crate) fn is_control(bytes: &[u8]) -> bool
    requires { 61 ≤ length bytes.now }
    ensures { result ≡ is_control bytes.now }
{
    attributes(bytes) / 32 % 2 == 1
}

/// How many records the batch says that it has.
pub(crate) fn record_count(bytes: &[u8]) -> i32
    requires { 61 ≤ length bytes.now }
    ensures { result ≡ record_count bytes.now }
{
    i32_at(bytes, COUNT)
}

// The whole batch's length, from its length field.
fn length_of(len: i32) -> Result<usize, BatchFault>
    ensures { result ≡ length_of len }
{
    if len < LEAST_LENGTH {
        return Err(BatchFault::BadLength(len));
    }
    Ok(LENGTH_END + len as usize)
}

/// The bytes of the batch that begins at the front, which is the place `at`.
#[tactic(auto, unfolding(crate::specs::Batch::whole_at))]
pub(crate) fn whole(at: u64, bytes: &[u8]) -> Result<&[u8], BatchFault>
    ensures value { IfOk result (λ text. whole_at at bytes.now ≡ Ok text.now) }
    ensures fault { IfErr result (λ f. whole_at at bytes.now ≡ Err f) }
    ensures header { IfOk result (λ text. 61 ≤ length text.now) }
    ensures bound { IfOk result (λ text. length text.now < 2 ^ 32) }
    ensures within { IfOk result (λ text. length text.now ≤ length bytes.now) }
{
    if bytes.len() < HEADER_LEN {
        return Err(BatchFault::Short {
            place: at,
            need: HEADER_LEN as u64,
        });
    }
    let magic = bytes[MAGIC];
    if magic != MAGIC_2 {
        return Err(BatchFault::BadMagic(magic.cast_signed()));
    }
    let len = length_of(i32_at(bytes, LENGTH))?;
    if bytes.len() < len {
        return Err(BatchFault::Short {
            place: at,
            need: len as u64,
        });
    }
    Ok(&bytes[..len])
}

/// Whether the bytes are those that the crc was made of, and the records are not compressed.
#[tactic(auto, unfolding(crate::specs::Batch::intact))]
pub(crate) fn check_intact(bytes: &[u8]) -> Result<(), BatchFault>
    requires { 61 ≤ length bytes.now }
    ensures value { IfOk result (λ _. intact bytes.now ≡ Ok bytes.now) }
    ensures fault { IfErr result (λ f. intact bytes.now ≡ Err f) }
{
    let stored = BigEndian::read_u32(&bytes[CRC..]);
    let found = crc32c(&bytes[ATTRIBUTES..]);
    if stored != found {
        return Err(BatchFault::BadCrc { stored, found });
    }
    let code = attributes(bytes) % 8;
    if code != 0 {
        return Err(BatchFault::Compressed(code as u8));
    }
    Ok(())
}

// Where the time of the records comes from.
fn times(bytes: &[u8]) -> Times
    requires { 61 ≤ length bytes.now }
    ensures { result ≡ times_in bytes.now }
{
    if attributes(bytes) / 8 % 2 == 1 {
        Times::All(i64_at(bytes, MAX_TIME))
    } else {
        Times::Each(i64_at(bytes, BASE_TIME))
    }
}

// The range of the offsets.
fn range(base: i64, delta: i32, times: Times) -> Result<Frame, BatchFault>
    ensures value { result ≡ range_of base delta times }
    ensures sound { IfOk result IsSound }
{
    if base < 0 || delta < 0 {
        return Err(BatchFault::OffsetRange { base, delta });
    }
    let first = base as u64;
    let last = first + delta as u64;
    if last >= OFFSET_LIMIT {
        return Err(BatchFault::OffsetRange { base, delta });
    }
    Ok(Frame {
        base: first,
        last,
        times,
    })
}

/// What the batch says of each of its records.
#[tactic(auto, unfolding(crate::specs::Batch::frame_of))]
pub(crate) fn frame(bytes: &[u8]) -> Result<Frame, BatchFault>
    requires { 61 ≤ length bytes.now }
    ensures value { result ≡ frame_of bytes.now }
    ensures sound { IfOk result IsSound }
{
    range(
        i64_at(bytes, BASE_OFFSET),
        i32_at(bytes, LAST_DELTA),
        times(bytes),
    )
}

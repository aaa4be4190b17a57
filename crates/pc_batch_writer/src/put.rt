//! The records, put one after the other, every number in its shortest spelling.

ghost use Rattle.std.specs.Prelude.{◌≡◌, ◌++◌, All, pos, map, length, OnOk};
ghost use Rattle.std.specs.List.{flat_map};
ghost use Rattle.std.specs.Option.{option_copied};
ghost use Rattle.pc_bytes.specs.Varint.{shortest_of};
ghost use Rattle.pc_batch_writer.specs.Writing.{Puts, IsNear, plain_header, plain_new, sized_spelling, nullable_spelling, header_spelling, headers_spelling, counted_spelling, stamps_spelling, contents_spelling, body_spelling, record_spelling};

use crate::fault::WriteFault;
use crate::new_record::{NewHeader, NewRecord};
use pc_bytes::{write_varint, write_varlong};
use std::alloc::{AllocError, Global};

/// The greatest length.
const LEN_MAX: usize = i32::MAX as usize;

/// The attributes of a record.
const ATTRIBUTES: u8 = 0;

/// Puts a length.
fn put_len(out: &mut Vec<u8>, len: usize) -> Result<(), WriteFault>
    ensures { Puts len (shortest_of (pos len)) out.old.items out.new.items result }
{
    if len > LEN_MAX {
        return Err(WriteFault::TooLong);
    }
    write_varint(out, len as i32)?;
    Ok(())
}

/// Puts a length and the bytes.
fn put_sized(out: &mut Vec<u8>, part: &[u8]) -> Result<(), WriteFault>
    ensures { Puts (length (sized_spelling part.now)) (sized_spelling part.now) out.old.items
        out.new.items result }
{
    put_len(out, part.len())?;
    out.extend_from_slice(part)?;
    Ok(())
}

/// Puts a length and the bytes, or the length -1 for null.
fn put_nullable(out: &mut Vec<u8>, part: Option<&[u8]>) -> Result<(), WriteFault>
    ensures { let text = nullable_spelling (option_copied part.entry) in
        Puts (length text) text out.old.items out.new.items result }
{
    match part {
        Some(part) => put_sized(out, part),
        None => {
            write_varint(out, -1)?;
            Ok(())
        }
    }
}

/// Puts a header.
fn put_header(out: &mut Vec<u8>, header: &NewHeader<'_>) -> Result<(), WriteFault>
    ensures { let text = header_spelling (plain_header header.now) in
        Puts (length text) text out.old.items out.new.items result }
{
    put_sized(out, header.key)?;
    put_nullable(out, header.value)
}

/// Puts the headers.
fn put_headers(out: &mut Vec<u8>, headers: &[NewHeader<'_>]) -> Result<(), WriteFault>
    ensures { let text = headers_spelling (map plain_header headers.now) in
        Puts (length text) text out.old.items out.new.items result }
{
    for header in headers {
        put_header(out, header)?;
    }
    Ok(())
}

/// Puts the count of the headers, and the headers.
fn put_counted(out: &mut Vec<u8>, headers: &[NewHeader<'_>]) -> Result<(), WriteFault>
    ensures { let text = counted_spelling (map plain_header headers.now) in
        Puts (length text) text out.old.items out.new.items result }
{
    put_len(out, headers.len())?;
    put_headers(out, headers)
}

/// Puts the attributes and the two deltas.
fn put_stamps(
    out: &mut Vec<u8>,
    base: u64,
    first: i64,
    record: &NewRecord<'_>,
) -> Result<(), AllocError>
    requires { IsNear base first record.now }
    ensures { OnOk result (out.new.items
        ≡ out.old.items ++ stamps_spelling base first (plain_new record.now)) }
{
    out.extend_from_slice(&[ATTRIBUTES])?;
    write_varlong(out, record.time - first)?;
    write_varint(out, (record.offset - base) as i32)
}

/// Puts the key, the value and the headers.
fn put_contents(out: &mut Vec<u8>, record: &NewRecord<'_>) -> Result<(), WriteFault>
    ensures { let text = contents_spelling (plain_new record.now) in
        Puts (length text) text out.old.items out.new.items result }
{
    put_nullable(out, record.key)?;
    put_nullable(out, record.value)?;
    put_counted(out, record.headers)
}

/// Puts the fields of a record, after its length.
fn put_body(
    out: &mut Vec<u8>,
    base: u64,
    first: i64,
    record: &NewRecord<'_>,
) -> Result<(), WriteFault>
    requires { IsNear base first record.now }
    ensures { let text = body_spelling base first (plain_new record.now) in
        Puts (length text) text out.old.items out.new.items result }
{
    put_stamps(out, base, first, record)?;
    put_contents(out, record)
}

/// Puts a record. What was in `body` is of no use.
fn put_record(
    out: &mut Vec<u8>,
    body: &mut Vec<u8>,
    base: u64,
    first: i64,
    record: &NewRecord<'_>,
) -> Result<(), WriteFault>
    requires { IsNear base first record.now }
    ensures { let text = record_spelling base first (plain_new record.now) in
        Puts (length text) text out.old.items out.new.items result }
{
    body.clear();
    put_body(body, base, first, record)?;
    put_sized(out, body)
}

/// Puts the records.
pub(crate) fn put_records(
    alloc: Global,
    out: &mut Vec<u8>,
    base: u64,
    first: i64,
    records: &[NewRecord<'_>],
) -> Result<(), WriteFault>
    requires { All (IsNear base first) records.now }
    ensures { let text = flat_map (record_spelling base first) (map plain_new records.now) in
        Puts (length text) text out.old.items out.new.items result }
{
    let mut body = Vec::new(alloc);
    for record in records {
        put_record(out, &mut body, base, first, record)?;
    }
    Ok(())
}

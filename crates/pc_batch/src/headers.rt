//! The headers of a record: clauses see what is left of them as a list of keys and values.

ghost use Rattle.std.specs.Prelude.{◌≡◌, ◌+◌, ◌<◌, ◌^◌, [], Ok, Err, IfOk, IfErr, length, ◌↔◌, IsTrue};
ghost use Rattle.std.specs.Option.{option_copied};
ghost use Rattle.pc_batch.specs.Fields.{Reads};
ghost use Rattle.pc_batch.specs.Headers.{header_at, after_headers, all_headers_at};

use crate::fault::RecordKind;
use crate::fields;
use pc_bytes::Reader;

/// The headers of a record, read in place: pairs of a key and a value, which may be null.
#[derive(Clone, Copy, Debug)]
pub struct Headers<'a> {
    bytes: &'a [u8],
    count: u32,
}

/// One header.
#[tactic(auto, unfolding(crate::specs::Headers::header_at))]
fn header<'a>(reader: &mut Reader<'a>) -> Result<(&'a [u8], Option<&'a [u8]>), RecordKind>
    ensures { Reads (λ h. (h.0.now, option_copied h.1)) (header_at reader.old.bytes)
        reader.new.bytes result }
{
    let key = fields::sized(reader, RecordKind::HeaderKeyLength, RecordKind::Past)?;
    let value = fields::nullable(reader, RecordKind::HeaderValueLength)?;
    Ok((key, value))
}

/// Passes over this many headers.
fn skip(reader: &mut Reader<'_>, count: u32) -> Result<(), RecordKind>
    ensures value { IfOk result (λ _. after_headers count reader.old.bytes ≡ Ok reader.new.bytes) }
    ensures fault { IfErr result (λ kind. after_headers count reader.old.bytes ≡ Err kind) }
{
    for _ in 0..count {
        header(reader)?;
    }
    Ok(())
}

impl<'a> Headers<'a> {
    ghost use Rattle.pc_batch.specs.Headers.{headers_left};

    /// No headers.
    #[tactic(auto, unfolding(crate::specs::Headers::headers_left, crate::specs::Headers::front_headers))]
    pub fn none() -> Headers<'a>
        ensures { headers_left result ≡ [] }
    {
        Headers {
            bytes: &[],
            count: 0,
        }
    }

    /// The count of headers, and as many headers up to the end of the bytes, each of them checked.
    pub(crate) fn of_rest(reader: &mut Reader<'a>) -> Result<Headers<'a>, RecordKind>
        ensures value { IfOk result (λ h. all_headers_at reader.old.bytes ≡ Ok (headers_left h)) }
        ensures fault { IfErr result (λ kind. all_headers_at reader.old.bytes ≡ Err kind) }
    {
        let count = fields::count(reader)?;
        let bytes = fields::rest(reader);
        let mut ahead = Reader::new(bytes, 0);
        skip(&mut ahead, count)?;
        if ahead.left() > 0 {
            return Err(RecordKind::Leftover);
        }
        Ok(Headers { bytes, count })
    }

    /// Whether both have the same headers left, in the same order.
    pub(crate) fn are_same(self, mut other: Headers<'_>) -> bool
        ensures { IsTrue result ↔ (headers_left self.entry ≡ headers_left other.entry) }
    {
        for header in self {
            if other.next() != Some(header) {
                return false;
            }
        }
        other.next().is_none()
    }
}

impl<'a> Iterator for Headers<'a> {
    ghost use Rattle.std.specs.Iterator.{YieldsFirstBy, item_count};
    ghost use Rattle.std.specs.Option.{option_copied};
    ghost use Rattle.pc_batch.specs.Headers.{headers_left};

    type Item = (&'a [u8], Option<&'a [u8]>);

    ghost next_gives = { YieldsFirstBy (λ h. (h.0.now, option_copied h.1)) headers_left };

    ghost remaining = { item_count headers_left };

    fn next(&mut self) -> Option<(&'a [u8], Option<&'a [u8]>)> {
        if self.count == 0 {
            return None;
        }
        let mut reader = Reader::new(self.bytes, 0);
        let Ok(found) = header(&mut reader) else {
            return None;
        };
        self.bytes = fields::rest(&mut reader);
        self.count -= 1;
        Some(found)
    }
}

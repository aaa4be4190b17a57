//! OffsetFetch: its request and its reply, written.

ghost use Rattle.std.specs.Prelude.{◌≡◌, ℕ, List, All, length, IfOk, Err};
ghost use Rattle.std.specs.Option.{option_copied};
ghost use Rattle.pc_model.specs.Messages.{IsFetchRequest, IsFetchReply, IsEntry, IsArray, AreTopics, fetch_request_body, fetch_reply_body, entry_spelling, array_spelling, topics_spelling};
ghost use Rattle.pc_model.specs.MessageReading.{part_id_at};
ghost use Rattle.pc_offset_wire.specs.declared.write_fault.WireWriteFault.TheVariants.{TooLong};
ghost use Rattle.pc_offset_wire.specs.Items.{items_left};
ghost use Rattle.pc_offset_wire.specs.Views.{plain_fetch_request};
ghost use Rattle.pc_offset_wire.specs.Writing.{Puts, fetch_message, IsFetchBody, IsFetchReplyBody};
ghost use Rattle.pc_offset_wire.specs.Replies.{item_count, answered_items, answered_topics, entry_for, fetch_reply_to, IsAnswerable};

use crate::fetch::{FetchEntry, FetchRequest, PartItems};
use crate::put::{self, PutItem};
use crate::write_fault::WireWriteFault;
use pc_model::api::{OFFSET_FETCH, OFFSET_FETCH_VERSION};
use std::alloc::Global;

/// A topic, and some of its parts.
#[derive(Clone, Copy, Debug)]
pub struct FetchTopic<'a> {
    pub name: &'a str,
    pub parts: &'a [i32],
}

impl PutItem for i32 {
    ghost use Rattle.std.specs.Prelude.{ℤ};
    ghost use Rattle.pc_model.specs.Messages.{part_spelling, IsPart};

    ghost Plain = { ℤ };

    ghost plain = { λ part. part };

    ghost spelled = { part_spelling };

    ghost IsItem = { IsPart };

    ghost IsPutable = { λ _. Unit {0} };

    fn put(&self, out: &mut Vec<u8>) -> Result<(), WireWriteFault> {
        put::put_i32(out, *self)?;
        Ok(())
    }
}

impl PutItem for FetchTopic<'_> {
    ghost use Rattle.std.specs.Prelude.{ℤ};
    ghost use Rattle.pc_model.specs.Messages.{Topic, part_spelling, topic_spelling, IsPart, IsTopic};
    ghost use Rattle.pc_offset_wire.specs.Writing.{plain_fetch_topic};

    ghost Plain = { Topic ℤ };

    ghost plain = { plain_fetch_topic };

    ghost spelled = { topic_spelling part_spelling };

    ghost IsItem = { IsTopic IsPart };

    ghost IsPutable = { λ _. Unit {0} };

    fn put(&self, out: &mut Vec<u8>) -> Result<(), WireWriteFault> {
        put::put_string(out, self.name)?;
        put::put_array(out, self.parts)
    }
}

/// Puts the body of a fetch request.
fn put_fetch_request(
    out: &mut Vec<u8>,
    correlation: i32,
    client: Option<&str>,
    group: &str,
    topics: &[FetchTopic<'_>],
) -> Result<(), WireWriteFault>
    ensures { let message = fetch_message correlation (option_copied client.entry) group.now
        topics.now in
        Puts (fetch_request_body message) (IsFetchBody message) out.old.items out.new.items
        result }
{
    put::put_header(out, OFFSET_FETCH, OFFSET_FETCH_VERSION, correlation, client)?;
    put::put_string(out, group)?;
    put::put_array(out, topics)
}

/// Puts a part and what is stored for it.
fn put_entry(out: &mut Vec<u8>, part: i32, entry: &FetchEntry<'_>) -> Result<(), WireWriteFault>
    requires { IsAnswerable entry.now }
    ensures { let item = entry_for part entry.now in
        Puts (entry_spelling item) (IsEntry item) out.old.items out.new.items result }
{
    put::put_i32(out, part)?;
    put::put_i64(out, entry.position)?;
    put::put_nullable(out, entry.metadata)?;
    put::put_i16(out, entry.code)?;
    Ok(())
}

/// Puts an array of the parts that were asked, each with its entry.
fn put_entries(
    out: &mut Vec<u8>,
    parts: PartItems<'_>,
    entries: &[FetchEntry<'_>],
) -> Result<(), WireWriteFault>
    requires count { length entries.now ≡ length (items_left part_id_at parts) }
    requires positions { All IsAnswerable entries.now }
    ensures { let made = answered_items entry_for (items_left part_id_at parts.entry)
        entries.now in
        Puts (array_spelling entry_spelling made) (IsArray IsEntry made) out.old.items
        out.new.items result }
{
    put::put_count(out, entries.len())?;
    let mut parts = parts;
    for entry in entries {
        if let Some(part) = parts.next() {
            put_entry(out, part, entry)?;
        }
    }
    Ok(())
}

/// Puts an array of the topics that were asked, with an entry for each of their parts.
fn put_entry_topics(
    out: &mut Vec<u8>,
    request: &FetchRequest<'_>,
    entries: &[FetchEntry<'_>],
) -> Result<(), WireWriteFault>
    requires count { length entries.now ≡ item_count (plain_fetch_request request.now).topics }
    requires positions { All IsAnswerable entries.now }
    ensures { let made = answered_topics entry_for (plain_fetch_request request.now).topics
        entries.now in
        Puts (topics_spelling entry_spelling made) (AreTopics IsEntry made) out.old.items
        out.new.items result }
{
    put::put_count(out, request.topics().len())?;
    let mut done = 0;
    for (name, parts) in request.topics() {
        let end = done + parts.len();
        put::put_string(out, name)?;
        put_entries(out, parts, &entries[done..end])?;
        done = end;
    }
    Ok(())
}

/// Puts the body of the reply to a fetch request.
fn put_fetch_reply(
    out: &mut Vec<u8>,
    request: &FetchRequest<'_>,
    entries: &[FetchEntry<'_>],
) -> Result<(), WireWriteFault>
    requires count { length entries.now ≡ item_count (plain_fetch_request request.now).topics }
    requires positions { All IsAnswerable entries.now }
    ensures { let message = fetch_reply_to (plain_fetch_request request.now)
        entries.now in
        Puts (fetch_reply_body message) (IsFetchReplyBody message) out.old.items out.new.items
        result }
{
    put::put_i32(out, request.correlation)?;
    put_entry_topics(out, request, entries)
}

/// Writes a fetch request. A topic may have no parts, and stand more than once.
pub fn write_fetch_request(
    alloc: Global,
    correlation: i32,
    client: Option<&str>,
    group: &str,
    topics: &[FetchTopic<'_>],
) -> Result<Vec<u8>, WireWriteFault>
    ensures frame { IfOk result (λ frame. IsFetchRequest frame.items
        (fetch_message correlation (option_copied client.entry) group.now topics.now)) }

    // Only what no frame spells is too long.
    ensures too_long { result ≡ Err TooLong → (frame : List ℕ) → IsFetchRequest frame
        (fetch_message correlation (option_copied client.entry) group.now topics.now) → ⊥ }
{
    let mut body = Vec::new(alloc);
    put_fetch_request(&mut body, correlation, client, group, topics)?;
    put::frame_of(alloc, &body)
}

/// Writes the reply to a fetch request, with an entry for each of its parts in their order.
pub fn write_fetch_reply(
    alloc: Global,
    request: &FetchRequest<'_>,
    entries: &[FetchEntry<'_>],
) -> Result<Vec<u8>, WireWriteFault>
    requires count { length entries.now ≡ item_count (plain_fetch_request request.now).topics }

    // No position is below -1.
    requires positions { All IsAnswerable entries.now }
    ensures frame { IfOk result (λ frame. IsFetchReply frame.items
        (fetch_reply_to (plain_fetch_request request.now) entries.now)) }

    // Only what no frame spells is too long.
    ensures too_long { result ≡ Err TooLong → (frame : List ℕ) → IsFetchReply frame
        (fetch_reply_to (plain_fetch_request request.now) entries.now) → ⊥ }
{
    let mut body = Vec::new(alloc);
    put_fetch_reply(&mut body, request, entries)?;
    put::frame_of(alloc, &body)
}

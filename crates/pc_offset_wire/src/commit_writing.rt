//! OffsetCommit: its request and its reply, written.

ghost use Rattle.std.specs.Prelude.{◌≡◌, ℕ, List, All, length, IfOk, Err};
ghost use Rattle.std.specs.Option.{option_copied};
ghost use Rattle.pc_model.specs.Messages.{IsCommitRequest, IsCommitReply, IsCommitCode, IsArray, AreTopics, commit_request_body, commit_reply_body, commit_code_spelling, array_spelling, topics_spelling};
ghost use Rattle.pc_model.specs.MessageReading.{commit_item_at};
ghost use Rattle.pc_offset_wire.specs.declared.write_fault.WireWriteFault.TheVariants.{TooLong};
ghost use Rattle.pc_offset_wire.specs.Items.{items_left};
ghost use Rattle.pc_offset_wire.specs.Views.{plain_commit_request};
ghost use Rattle.pc_offset_wire.specs.Writing.{Puts, AreStorable, commit_message, IsCommitBody, IsCommitReplyBody};
ghost use Rattle.pc_offset_wire.specs.Replies.{item_count, answered_items, answered_topics, code_of, commit_reply_to};

use crate::commit::{CommitCode, CommitItem, CommitItems, CommitRequest};
use crate::put::{self, PutItem};
use crate::write_fault::WireWriteFault;
use pc_model::api::{OFFSET_COMMIT, OFFSET_COMMIT_VERSION};
use std::alloc::Global;

/// A topic, and what is to be stored for some of its parts.
#[derive(Clone, Copy, Debug)]
pub struct CommitTopic<'a> {
    pub name: &'a str,
    pub items: &'a [CommitItem<'a>],
}

impl PutItem for CommitItem<'_> {
    ghost use Rattle.pc_model.specs.Messages.{CommitItem as PlainCommitItem, commit_item_spelling, IsCommitItem};
    ghost use Rattle.pc_offset_wire.specs.Views.{plain_commit_item};
    ghost use Rattle.pc_offset_wire.specs.Writing.{IsStorable};

    ghost Plain = { PlainCommitItem };

    ghost plain = { plain_commit_item };

    ghost spelled = { commit_item_spelling };

    ghost IsItem = { IsCommitItem };

    ghost IsPutable = { IsStorable };

    fn put(&self, out: &mut Vec<u8>) -> Result<(), WireWriteFault> {
        put::put_i32(out, self.part)?;
        put::put_i64(out, self.position)?;
        put::put_nullable(out, self.metadata)
    }
}

impl PutItem for CommitTopic<'_> {
    ghost use Rattle.pc_model.specs.Messages.{Topic, CommitItem as PlainCommitItem, commit_item_spelling, topic_spelling, IsCommitItem, IsTopic};
    ghost use Rattle.pc_offset_wire.specs.Writing.{AreStorable, plain_commit_topic};

    ghost Plain = { Topic PlainCommitItem };

    ghost plain = { plain_commit_topic };

    ghost spelled = { topic_spelling commit_item_spelling };

    ghost IsItem = { IsTopic IsCommitItem };

    ghost IsPutable = { AreStorable };

    fn put(&self, out: &mut Vec<u8>) -> Result<(), WireWriteFault> {
        put::put_string(out, self.name)?;
        put::put_array(out, self.items)
    }
}

impl PutItem for CommitCode {
    ghost use Rattle.pc_model.specs.Messages.{CommitCode as PlainCommitCode, commit_code_spelling, IsCommitCode};
    ghost use Rattle.pc_offset_wire.specs.Views.{plain_commit_code};

    ghost Plain = { PlainCommitCode };

    ghost plain = { plain_commit_code };

    ghost spelled = { commit_code_spelling };

    ghost IsItem = { IsCommitCode };

    ghost IsPutable = { λ _. Unit {0} };

    fn put(&self, out: &mut Vec<u8>) -> Result<(), WireWriteFault> {
        put::put_i32(out, self.part)?;
        put::put_i16(out, self.code)?;
        Ok(())
    }
}

/// Puts the body of a commit request.
#[allow(clippy::too_many_arguments)]
fn put_commit_request(
    out: &mut Vec<u8>,
    correlation: i32,
    client: Option<&str>,
    group: &str,
    generation: i32,
    member: &str,
    retention: i64,
    topics: &[CommitTopic<'_>],
) -> Result<(), WireWriteFault>
    requires { All AreStorable topics.now }
    ensures { let message = commit_message correlation (option_copied client.entry) group.now
        generation member.now retention topics.now in
        Puts (commit_request_body message) (IsCommitBody message) out.old.items out.new.items
        result }
{
    put::put_header(
        out,
        OFFSET_COMMIT,
        OFFSET_COMMIT_VERSION,
        correlation,
        client,
    )?;
    put::put_string(out, group)?;
    put::put_i32(out, generation)?;
    put::put_string(out, member)?;
    put::put_i64(out, retention)?;
    put::put_array(out, topics)
}

/// Puts an array of the parts that were asked, each with its code.
fn put_codes(out: &mut Vec<u8>, items: CommitItems<'_>, codes: &[i16]) -> Result<(), WireWriteFault>
    requires { length codes.now ≡ length (items_left commit_item_at items) }
    ensures { let made = answered_items code_of (items_left commit_item_at items.entry) codes.now in
        Puts (array_spelling commit_code_spelling made) (IsArray IsCommitCode made) out.old.items
        out.new.items result }
{
    put::put_count(out, codes.len())?;
    let mut items = items;
    for code in codes {
        if let Some(item) = items.next() {
            let part = item.part;
            CommitCode { part, code: *code }.put(out)?;
        }
    }
    Ok(())
}

/// Puts an array of the topics that were asked, with a code for each of their items.
fn put_code_topics(
    out: &mut Vec<u8>,
    request: &CommitRequest<'_>,
    codes: &[i16],
) -> Result<(), WireWriteFault>
    requires { length codes.now ≡ item_count (plain_commit_request request.now).topics }
    ensures { let made = answered_topics code_of (plain_commit_request request.now).topics
        codes.now in
        Puts (topics_spelling commit_code_spelling made) (AreTopics IsCommitCode made)
        out.old.items out.new.items result }
{
    put::put_count(out, request.topics().len())?;
    let mut done = 0;
    for (name, items) in request.topics() {
        let end = done + items.len();
        put::put_string(out, name)?;
        put_codes(out, items, &codes[done..end])?;
        done = end;
    }
    Ok(())
}

/// Puts the body of the reply to a commit request.
fn put_commit_reply(
    out: &mut Vec<u8>,
    request: &CommitRequest<'_>,
    codes: &[i16],
) -> Result<(), WireWriteFault>
    requires { length codes.now ≡ item_count (plain_commit_request request.now).topics }
    ensures { let message = commit_reply_to (plain_commit_request request.now) codes.now in
        Puts (commit_reply_body message) (IsCommitReplyBody message) out.old.items out.new.items
        result }
{
    put::put_i32(out, request.correlation)?;
    put_code_topics(out, request, codes)
}

/// Writes a commit request. A topic may have no items, and stand more than once.
#[allow(clippy::too_many_arguments)]
pub fn write_commit_request(
    alloc: Global,
    correlation: i32,
    client: Option<&str>,
    group: &str,
    generation: i32,
    member: &str,
    retention: i64,
    topics: &[CommitTopic<'_>],
) -> Result<Vec<u8>, WireWriteFault>
    // No position is negative.
    requires { All AreStorable topics.now }
    ensures frame { IfOk result (λ frame. IsCommitRequest frame.items
        (commit_message correlation (option_copied client.entry) group.now generation member.now
        retention topics.now)) }

    // Only what no frame spells is too long.
    ensures too_long { result ≡ Err TooLong → (frame : List ℕ) → IsCommitRequest frame
        (commit_message correlation (option_copied client.entry) group.now generation member.now
        retention topics.now) → ⊥ }
{
    let mut body = Vec::new(alloc);
    put_commit_request(
        &mut body,
        correlation,
        client,
        group,
        generation,
        member,
        retention,
        topics,
    )?;
    put::frame_of(alloc, &body)
}

/// Writes the reply to a commit request, with a code for each of its items in their order.
pub fn write_commit_reply(
    alloc: Global,
    request: &CommitRequest<'_>,
    codes: &[i16],
) -> Result<Vec<u8>, WireWriteFault>
    requires { length codes.now ≡ item_count (plain_commit_request request.now).topics }
    ensures frame { IfOk result (λ frame. IsCommitReply frame.items
        (commit_reply_to (plain_commit_request request.now) codes.now)) }

    // Only what no frame spells is too long.
    ensures too_long { result ≡ Err TooLong → (frame : List ℕ) → IsCommitReply frame
        (commit_reply_to (plain_commit_request request.now) codes.now) → ⊥ }
{
    let mut body = Vec::new(alloc);
    put_commit_reply(&mut body, request, codes)?;
    put::frame_of(alloc, &body)
}

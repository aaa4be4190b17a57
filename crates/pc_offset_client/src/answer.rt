//! What the reply to a question for one part answers.

ghost use Rattle.std.specs.Prelude.{◌≡◌, ◌<◌, ◌^◌, ◌⊎◌, Ok, Err, IfErr, IfOk};
ghost use Rattle.std.specs.Option.{option_copied};
ghost use Rattle.pc_model.specs.Messages.{IsNullable};
ghost use Rattle.pc_model.specs.MessageReading.{commit_code_at, entry_at, topic_at};
ghost use Rattle.pc_offset_client.specs.declared.fault.ClientFault.TheVariants.{NoMemory};
ghost use Rattle.pc_offset_wire.specs.Items.{items_left};
ghost use Rattle.pc_offset_wire.specs.Views.{plain_commit_code, plain_fetch_entry, plain_part_entry};
ghost use Rattle.pc_offset_client.specs.Client.{IsFrameCommit, accepted, commit_answer, entry_commit, fetch_answer, only_item, only_one, same, same_topic};

use crate::fault::ClientFault;
use crate::question::{TOPIC, part_id};
use pc_model::api::NO_ERROR;
use pc_model::{Commit, MapText};
use pc_offset_wire::{
    CodeTopics, CommitCode, EntryTopics, FetchEntry, Items, WireItem, read_commit_reply,
    read_fetch_reply,
};
use std::alloc::Global;

/// The only item, or the fault that says how many there are.
fn only<'a, T: WireItem<'a>>(items: Items<'a, T>) -> Result<T, ClientFault>
    ensures ok { IfOk result (λ item. only_one (items_left T.at items.entry) ≡ Ok (T.plain item)) }
    ensures err { IfErr result (λ e. only_one (items_left T.at items.entry) ≡ Err e) }
{
    let mut rest = items;
    let first = rest.next();
    match (first, rest.next()) {
        (Some(item), None) => Ok(item),
        _ => Err(ClientFault::OtherReply {
            asked: 1,
            got: i32::try_from(items.len()).unwrap_or(i32::MAX),
        }),
    }
}

/// Refuses two numbers that differ.
fn same(asked: i32, got: i32) -> Result<(), ClientFault>
    ensures { result ≡ same asked got }
{
    if asked == got {
        Ok(())
    } else {
        Err(ClientFault::OtherReply { asked, got })
    }
}

/// Refuses another topic than the client's.
fn same_topic(name: &str) -> Result<(), ClientFault>
    ensures { result ≡ same_topic name.now }
{
    if name == TOPIC {
        Ok(())
    } else {
        Err(ClientFault::OtherReply { asked: 0, got: 1 })
    }
}

/// The only code of the only topic.
#[tactic(auto, unfolding(crate::specs::Client::only_item))]
fn only_code<'a>(topics: CodeTopics<'a>) -> Result<CommitCode, ClientFault>
    ensures ok { IfOk result (λ item. only_item (items_left (topic_at commit_code_at) topics.entry)
        ≡ Ok (plain_commit_code item)) }
    ensures err { IfErr result
        (λ e. only_item (items_left (topic_at commit_code_at) topics.entry) ≡ Err e) }
{
    let (name, items) = only(topics)?;
    same_topic(name)?;
    only(items)
}

/// The only entry of the only topic.
#[tactic(auto, unfolding(crate::specs::Client::only_item))]
fn only_entry<'a>(topics: EntryTopics<'a>) -> Result<(i32, FetchEntry<'a>), ClientFault>
    ensures ok { IfOk result (λ item. only_item (items_left (topic_at entry_at) topics.entry)
        ≡ Ok (plain_part_entry item)) }
    ensures err { IfErr result
        (λ e. only_item (items_left (topic_at entry_at) topics.entry) ≡ Err e) }
{
    let (name, items) = only(topics)?;
    same_topic(name)?;
    only(items)
}

/// What a reply says of the commit of the part.
#[tactic(auto, unfolding(crate::specs::Client::commit_answer))]
pub(crate) fn of_commit(id: i32, part: u32, reply: &[u8]) -> Result<(), ClientFault>
    requires { part < 2 ^ 31 }
    ensures { result ≡ commit_answer id part reply.now }
{
    let reply = read_commit_reply(reply)?;
    same(id, reply.correlation)?;
    let item = only_code(reply.topics())?;
    same(part_id(part), item.part)?;
    if item.code != NO_ERROR {
        return Err(ClientFault::Refused(item.code));
    }
    Ok(())
}

/// Refuses an entry with a code that is not 0.
fn accepted(entry: &FetchEntry<'_>) -> Result<(), ClientFault>
    ensures { result ≡ accepted (plain_fetch_entry entry.now).code }
{
    if entry.code != NO_ERROR {
        return Err(ClientFault::Refused(entry.code));
    }
    Ok(())
}

/// The entry for the part in a reply.
#[tactic(auto, unfolding(crate::specs::Client::fetch_answer))]
fn entry_in(id: i32, part: u32, reply: &[u8]) -> Result<FetchEntry<'_>, ClientFault>
    requires { part < 2 ^ 31 }
    ensures ok { IfOk result (λ entry. fetch_answer id part reply.now
        ≡ Ok (entry_commit (plain_fetch_entry entry))) }
    ensures err { IfErr result (λ e. fetch_answer id part reply.now ≡ Err e) }
    ensures text { IfOk result (λ entry. IsNullable (option_copied entry.metadata)) }
{
    let reply = read_fetch_reply(reply)?;
    same(id, reply.correlation)?;
    let (found, entry) = only_entry(reply.topics())?;
    same(part_id(part), found)?;
    accepted(&entry)?;
    Ok(entry)
}

/// A copy of the commit of an entry.
fn copied(alloc: Global, entry: &FetchEntry<'_>) -> Result<Commit, ClientFault>
    requires { IsNullable (option_copied entry.now.metadata) }
    ensures ok { IfOk result (λ c. c ≡ entry_commit (plain_fetch_entry entry.now)) }
    ensures small { IfOk result IsFrameCommit }
    ensures fault { IfErr result (λ e. e ≡ NoMemory) }
{
    if entry.position < 0 {
        return Ok(Commit {
            position: 0,
            map: MapText::empty(alloc),
        });
    }
    Ok(Commit {
        position: entry.position as u64,
        map: MapText::from_str(alloc, entry.metadata.unwrap_or(""))?,
    })
}

/// What a reply says is stored for the part, as a copy.
pub(crate) fn of_fetch(
    alloc: Global,
    id: i32,
    part: u32,
    reply: &[u8],
) -> Result<Commit, ClientFault>
    requires { part < 2 ^ 31 }
    ensures answer { (result ≡ Err NoMemory) ⊎ (result ≡ fetch_answer id part reply.now) }
    ensures small { IfOk result IsFrameCommit }
{
    let entry = entry_in(id, part, reply)?;
    copied(alloc, &entry)
}

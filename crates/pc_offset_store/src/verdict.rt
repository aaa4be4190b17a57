//! What a broker decides of the items of a commit request, before it stores any of them.

ghost use Rattle.std.specs.Prelude.{◌≡◌, [], ◌∷◌, map, unsigned_abs, IfOk, OnOk};
ghost use Rattle.std.specs.List.{flat_map};
ghost use Rattle.std.specs.Option.{option_copied};
ghost use Rattle.pc_model.specs.Broker.{commit_in, item_code, metadata_text};
ghost use Rattle.pc_model.specs.Messages.{CommitItem as PlainItem, Topic};
ghost use Rattle.pc_model.specs.MessageReading.{commit_item_at};
ghost use Rattle.pc_offset_wire.specs.Items.{items_left};
ghost use Rattle.pc_offset_wire.specs.Views.{plain_commit_item, plain_commit_request};
ghost use Rattle.pc_offset_store.specs.Store.{IsDecided, accepted_item, accepted_of, codes_of, stored_of};

use crate::broker::OffsetBroker;
use crate::commits::GroupCommit;
use pc_model::api::NO_ERROR;
use pc_offset_wire::{CommitItem, CommitItems, CommitRequest};
use std::alloc::{AllocError, Global};

/// The code of each item, and the commits that are to be stored.
#[derive(Debug, Drop)]
pub struct Verdict {
    pub codes: Vec<i16>,
    pub accepted: Vec<GroupCommit>,
}

/// The verdict on a request. The only error is out of memory.
pub fn of(
    alloc: Global,
    broker: &OffsetBroker,
    request: &CommitRequest<'_>,
) -> Result<Verdict, AllocError>
    ensures codes { IfOk result (λ v. v.codes.items ≡
        flat_map (codes_of broker.now (plain_commit_request request.now))
        (plain_commit_request request.now).topics) }
    ensures accepted { IfOk result (λ v. map stored_of v.accepted.items ≡
        flat_map (accepted_of broker.now (plain_commit_request request.now))
        (plain_commit_request request.now).topics) }
{
    let mut verdict = Verdict {
        codes: Vec::new(alloc),
        accepted: Vec::new(alloc),
    };
    for (name, items) in request.topics() {
        put_topic(alloc, broker, request, name, items, &mut verdict)?;
    }
    Ok(verdict)
}

/// Decides each item of a topic.
fn put_topic(
    alloc: Global,
    broker: &OffsetBroker,
    request: &CommitRequest<'_>,
    name: &str,
    items: CommitItems<'_>,
    verdict: &mut Verdict,
) -> Result<(), AllocError>
    ensures { let topic : Topic PlainItem = record
        { name = name.now; items = items_left commit_item_at items.entry } in
        OnOk result (IsDecided (codes_of broker.now (plain_commit_request request.now) topic)
        (accepted_of broker.now (plain_commit_request request.now) topic) verdict.old verdict.new) }
{
    for item in items {
        put_item(alloc, broker, request, name, &item, verdict)?;
    }
    Ok(())
}

/// Decides an item.
fn put_item(
    alloc: Global,
    broker: &OffsetBroker,
    request: &CommitRequest<'_>,
    name: &str,
    item: &CommitItem<'_>,
    verdict: &mut Verdict,
) -> Result<(), AllocError>
    ensures { OnOk result (IsDecided
        (item_code broker.now (plain_commit_request request.now) name.now (plain_commit_item item.now)
        ∷ []) (accepted_item broker.now (plain_commit_request request.now) name.now
        (plain_commit_item item.now)) verdict.old verdict.new) }
{
    let code = broker.code_of(request, name, item);
    verdict.codes.push(code)?;
    if code == NO_ERROR {
        let commit = commit_of(alloc, request.group, item)?;
        verdict.accepted.push(commit)?;
    }
    Ok(())
}

/// What is stored for an item of a group.
fn commit_of(alloc: Global, group: &str, item: &CommitItem<'_>) -> Result<GroupCommit, AllocError>
    ensures { let plain = plain_commit_item item.now in IfOk result (λ c. stored_of c ≡ record
        { group = group.now; part = unsigned_abs plain.part; commit = commit_in plain }) }
{
    let part = item.part.unsigned_abs();
    let position = item.position.unsigned_abs();
    GroupCommit::of(alloc, group, part, position, text_of(item.metadata))
}

/// The text of metadata, which is the empty text where it is null.
pub fn text_of(metadata: Option<&str>) -> &str
    ensures { result.now ≡ metadata_text (option_copied metadata.entry) }
{
    match metadata {
        Some(text) => text,
        None => "",
    }
}

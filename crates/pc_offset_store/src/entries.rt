//! What a broker answers of the parts of a fetch request.

ghost use Rattle.std.specs.Prelude.{◌≡◌, ◌++◌, ◌<◌, ◌^◌, [], Some, map, IfOk, OnOk};
ghost use Rattle.std.proofs.Common.{negsuc};
ghost use Rattle.std.specs.List.{flat_map};
ghost use Rattle.pc_model.specs.Broker.{entry_of, fetch_entry};
ghost use Rattle.pc_model.specs.MessageReading.{part_id_at};
ghost use Rattle.pc_offset_wire.specs.Items.{items_left};
ghost use Rattle.pc_offset_wire.specs.Views.{plain_fetch_entry, plain_fetch_request};
ghost use Rattle.pc_offset_store.specs.Store.{entries_of};

use crate::broker::OffsetBroker;
use pc_model::Commit;
use pc_model::api::NO_ERROR;
use pc_offset_wire::{FetchEntry, FetchRequest, PartItems};
use std::alloc::{AllocError, Global};

/// The entries of a request, one for each of its parts. The only error is out of memory.
pub fn of<'a>(
    alloc: Global,
    broker: &'a OffsetBroker,
    request: &FetchRequest<'_>,
) -> Result<Vec<FetchEntry<'a>>, AllocError>
    ensures { IfOk result (λ entries. map plain_fetch_entry entries.items ≡
        flat_map (entries_of broker.now (plain_fetch_request request.now))
        (plain_fetch_request request.now).topics) }
{
    let mut entries = Vec::new(alloc);
    for (name, parts) in request.topics() {
        put_topic(broker, request.group, name, parts, &mut entries)?;
    }
    Ok(entries)
}

/// Puts an entry for each part of a topic.
fn put_topic<'a>(
    broker: &'a OffsetBroker,
    group: &str,
    name: &str,
    parts: PartItems<'_>,
    entries: &mut Vec<FetchEntry<'a>>,
) -> Result<(), AllocError>
    ensures { OnOk result (map plain_fetch_entry entries.new.items
        ≡ map plain_fetch_entry entries.old.items
        ++ map (fetch_entry broker.now group.now name.now) (items_left part_id_at parts.entry)) }
{
    for part in parts {
        entries.push(broker.entry_of(group, name, part))?;
    }
    Ok(())
}

/// The entry where nothing is stored, with a code.
pub fn nothing<'a>(code: i16) -> FetchEntry<'a>
    ensures { plain_fetch_entry result ≡ record
        { position = negsuc 0; metadata = Some []; code = code } }
{
    FetchEntry {
        position: -1,
        metadata: Some(""),
        code,
    }
}

/// The entry of a commit that is stored.
pub fn stored(commit: &Commit) -> FetchEntry<'_>
    requires { commit.now.position < 2 ^ 63 }
    ensures { plain_fetch_entry result ≡ entry_of (Some commit.now) }
{
    FetchEntry {
        position: commit.position as i64,
        metadata: Some(commit.map.as_str()),
        code: NO_ERROR,
    }
}

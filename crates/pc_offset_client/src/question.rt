//! The frames that the client sends: each is for one part of the topic.

ghost use Rattle.std.specs.Prelude.{◌≡◌, ◌≤◌, ◌<◌, ◌^◌, pos, IfOk, length};
ghost use Rattle.pc_model.specs.Messages.{IsCommitRequest, IsFetchRequest};
ghost use Rattle.pc_world.specs.declared.link.TheConstants.{MAX_FRAME_BYTES};
ghost use Rattle.pc_offset_client.specs.Client.{commit_question, fetch_question};

use pc_model::Commit;
use pc_offset_wire::{
    CommitItem, CommitTopic, FetchTopic, WireWriteFault, write_commit_request, write_fetch_request,
};
use std::alloc::{AllocError, Global};

/// The id that the client's frames have.
pub const CLIENT: &str = "pc";

/// The group whose commits these are.
pub const GROUP: &str = "parcon";

/// The topic of all parts.
pub const TOPIC: &str = "log";

// What stands where there is no generation, no member, and no retention.
const NO_GENERATION: i32 = -1;

const NO_MEMBER: &str = "";

const NO_RETENTION: i64 = -1;

/// A part as a number of the protocol.
pub(crate) fn part_id(part: u32) -> i32
    requires { part < 2 ^ 31 }
    ensures { result ≡ pos part }
{
    part as i32
}

/// An offset as a number of the protocol.
fn offset(position: u64) -> i64
    requires { position < 2 ^ 63 }
    ensures { result ≡ pos position }
{
    position as i64
}

/// The frame that has the commit stored for the part.
pub(crate) fn commit_frame(
    alloc: Global,
    id: i32,
    part: u32,
    commit: &Commit,
) -> Result<Vec<u8>, AllocError>
    requires part { part < 2 ^ 31 }
    requires position { commit.now.position < 2 ^ 63 }
    requires map { length commit.now.map < 2 ^ 15 }
    ensures frame { IfOk result
        (λ frame. IsCommitRequest frame.items (commit_question id part commit.now)) }
    ensures short { IfOk result (λ frame. length frame.items ≤ MAX_FRAME_BYTES) }
{
    let items = [CommitItem {
        part: part_id(part),
        position: offset(commit.position),
        metadata: Some(commit.map.as_str()),
    }];
    let topics = [CommitTopic {
        name: TOPIC,
        items: &items,
    }];
    match write_commit_request(
        alloc,
        id,
        Some(CLIENT),
        GROUP,
        NO_GENERATION,
        NO_MEMBER,
        NO_RETENTION,
        &topics,
    ) {
        Ok(frame) => Ok(frame),
        Err(WireWriteFault::NoMemory) => Err(AllocError),
        Err(WireWriteFault::TooLong) => unreachable!(),
    }
}

/// The frame that asks what is stored for the part.
pub(crate) fn fetch_frame(alloc: Global, id: i32, part: u32) -> Result<Vec<u8>, AllocError>
    requires { part < 2 ^ 31 }
    ensures frame { IfOk result (λ frame. IsFetchRequest frame.items (fetch_question id part)) }
    ensures short { IfOk result (λ frame. length frame.items ≤ MAX_FRAME_BYTES) }
{
    let parts = [part_id(part)];
    let topics = [FetchTopic {
        name: TOPIC,
        parts: &parts,
    }];
    match write_fetch_request(alloc, id, Some(CLIENT), GROUP, &topics) {
        Ok(frame) => Ok(frame),
        Err(WireWriteFault::NoMemory) => Err(AllocError),
        Err(WireWriteFault::TooLong) => unreachable!(),
    }
}

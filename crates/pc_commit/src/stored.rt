//! The state of a part at its assignment.

ghost use Rattle.std.specs.Prelude.{◌≡◌, ◌^◌, ◌<◌, ◌⊎◌, map, None, Some, IfOk, IfErr, OnOk};
ghost use Rattle.pc_model.specs.declared.map_fault.MapFault.{MapFault};
ghost use Rattle.pc_cursor.specs.Log.{contents_of, records_of};
ghost use Rattle.pc_partition.specs.Window.{RisesFrom, StandsFor};
ghost use Rattle.pc_commit.specs.declared.fault.ResumeFault.TheVariants.{BadMap, NoMemory};
ghost use Rattle.pc_commit.specs.Resume.{IsMapOf, map_refusal, refusal_of, resumed_marks, resumed_pairs};

use crate::fault::ResumeFault;
use pc_cursor::Log;
use pc_model::{BadMapRule, Commit, MapFault};
use pc_offset_map::{OffsetMap, read_map};
use pc_partition::PartitionState;
use std::alloc::{AllocError, Global};

/// The state of a part that begins at the stored commit's position: what its map says of the log's
/// records is known, and none is polled.
///
/// A map that does not read is refused with its fault, or passes nothing, as the rule says.
pub fn resume(
    alloc: Global,
    log: &Log<'_>,
    stored: &Commit,
    rule: BadMapRule,
) -> Result<PartitionState, ResumeFault>
    requires { stored.now.position < 2 ^ 63 }
    ensures state { IfOk result (λ state. StandsFor state.window stored.now.position 0
        (resumed_marks stored.now (records_of (contents_of log.now)))) }
    ensures read { OnOk result (map_refusal rule stored.now ≡ None) }
    ensures fault { IfErr result (λ e. (e ≡ NoMemory) ⊎ ((f : MapFault) × (e ≡ BadMap f)
        × (map_refusal rule stored.now ≡ Some f))) }
{
    let map = stored_map(alloc, stored, rule)?;
    let pairs = inherited(alloc, log, stored, &map)?;
    Ok(PartitionState::start(alloc, stored.position, pairs.as_slice())?)
}

// The stored map. None where there is none, or where it does not read and the rule lets that pass.
fn stored_map(
    alloc: Global,
    stored: &Commit,
    rule: BadMapRule,
) -> Result<Option<OffsetMap>, ResumeFault>
    ensures map { IfOk result (IsMapOf stored.now) }
    ensures read { OnOk result (map_refusal rule stored.now ≡ None) }
    ensures fault { IfErr result (λ e. (e ≡ NoMemory) ⊎ ((f : MapFault) × (e ≡ BadMap f)
        × (map_refusal rule stored.now ≡ Some f))) }
{
    match read_map(alloc, stored.position, stored.map.as_str().as_bytes()) {
        Ok(map) => Ok(map),
        Err(fault) => match refusal(rule, fault) {
            Some(refusal) => Err(refusal),
            None => Ok(None),
        },
    }
}

// Why a map that was not read is refused under the rule, if it is.
fn refusal(rule: BadMapRule, fault: MapFault) -> Option<ResumeFault>
    ensures { result ≡ refusal_of rule fault }
{
    match fault {
        MapFault::NoMemory => Some(ResumeFault::NoMemory),
        fault => match rule {
            BadMapRule::Redo => None,
            BadMapRule::Refuse => Some(ResumeFault::BadMap(fault)),
        },
    }
}

// The offsets of the records that the map says something about, each with whether it is passed
// over.
fn inherited(
    alloc: Global,
    log: &Log<'_>,
    stored: &Commit,
    read: &Option<OffsetMap>,
) -> Result<Vec<(u64, bool)>, AllocError>
    requires read { IsMapOf stored.now read.now }
    requires small { stored.now.position < 2 ^ 63 }
    ensures pairs { IfOk result (λ pairs. pairs.items
        ≡ resumed_pairs stored.now (records_of (contents_of log.now))) }
    ensures rises { IfOk result
        (λ pairs. RisesFrom stored.now.position (map (λ pair. pair.0) pairs.items)) }
{
    let mut pairs = Vec::new(alloc);
    let _rising = log.records();
    let Some(map) = read else {
        return Ok(pairs);
    };
    let end = map.base + map.bits.count();
    let mut cursor = log.cursor();
    cursor.seek(map.base);
    while let Some(record) = cursor.next() {
        if record.offset >= end {
            break;
        }
        pairs.push((record.offset, map.passes(record.offset)))?;
    }
    Ok(pairs)
}

//! The offsets that a commit passes over.

ghost use Rattle.std.specs.Prelude.{◌≡◌, IfOk, IfSome, OnOk};
ghost use Rattle.std.specs.Option.{ForSome};
ghost use Rattle.pc_model.specs.declared.map_fault.MapFault.TheVariants.{NoMemory};
ghost use Rattle.pc_model.specs.Stored.{map_bits};
ghost use Rattle.pc_print.specs.HeldParts.{plain_first};
ghost use Rattle.pc_print.specs.MapBits.{bits_in};

use crate::held_parts::First;
use pc_model::MapFault;
use pc_offset_map::{OffsetMap, read_map};
use std::alloc::{AllocError, Global};

/// A commit whose map was read. A map that does not read passes over nothing.
#[derive(Debug, Drop)]
pub(crate) struct Passed {
    pub(crate) position: u64,
    map: Option<OffsetMap>,
    ghost base: { ForSome map (λ m. m.base ≡ position) },
}

impl Passed {
    ghost use Rattle.pc_print.specs.Passed.{IsReadOf, is_over};

    /// Reads the map of a commit. The only error is out of memory.
    pub(crate) fn by(alloc: Global, commit: &First<'_>) -> Result<Passed, AllocError>
        ensures { IfOk result (IsReadOf (plain_first commit.now)) }
    {
        let map = read(alloc, commit)?;
        Ok(Passed {
            position: commit.position,
            map,
        })
    }

    /// Whether the commit passes over the offset.
    #[tactic(auto, unfolding(crate::specs::Passed::is_over))]
    pub(crate) fn has(&self, offset: u64) -> bool
        ensures { result ≡ is_over self.now offset }
    {
        if offset < self.position {
            return true;
        }
        match &self.map {
            Some(map) => map.passes(offset),
            None => false,
        }
    }
}

/// The commit's map. None where there is none or it does not read.
fn read(alloc: Global, commit: &First<'_>) -> Result<Option<OffsetMap>, AllocError>
    ensures bits { IfOk result (λ map. bits_in map ≡ map_bits (plain_first commit.now)) }
    ensures base { IfOk result (λ map. IfSome map (λ m. m.base ≡ commit.now.position)) }
{
    match read_map(alloc, commit.position, commit.map.as_str().as_bytes()) {
        Ok(map) => Ok(map),
        Err(fault) => {
            not_for_memory(fault)?;
            Ok(None)
        }
    }
}

/// Fails where the fault is out of memory.
fn not_for_memory(fault: MapFault) -> Result<(), AllocError>
    ensures { OnOk result (¬ (fault ≡ NoMemory)) }
{
    match fault {
        MapFault::NoMemory => Err(AllocError),
        _ => Ok(()),
    }
}

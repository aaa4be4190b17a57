//! The parts that a step assigns.

ghost use Rattle.std.specs.Prelude.{◌≡◌, ◌∷◌, [], IfOk};
ghost use Rattle.pc_engine.specs.Engine.{given_of};
ghost use Rattle.pc_rebalance.specs.Block.{assigned_parts};
ghost use Rattle.pc_rebalance.specs.Stop.{first_free};

use crate::calls::held_parts;
use pc_engine::Engine;
use pc_model::Act;
use pc_task::Task;
use pc_world::Link;
use std::alloc::{AllocError, Global};

/// The parts that an act assigns, in this order: its own, or at a crash those that are held, in
/// rising order. Fails when out of memory.
pub fn assigned_parts<L: Link, T: Task>(
    alloc: Global,
    engine: &Engine<'_, L, T>,
    act: Act,
) -> Result<Vec<u32>, AllocError>
    ensures { IfOk result (λ parts. parts.items
        ≡ assigned_parts (given_of T.outcome engine.now) engine.now.journal.events act) }
{
    match act {
        Act::Assign(part) => one_part(alloc, part),
        Act::Revoke(_) | Act::Lose(_) => Ok(Vec::new(alloc)),
        Act::Crash => held_parts(alloc, engine),
    }
}

/// A list of one part.
fn one_part(alloc: Global, part: u32) -> Result<Vec<u32>, AllocError>
    ensures { IfOk result (λ parts. parts.items ≡ part ∷ []) }
{
    let mut parts = Vec::new(alloc);
    parts.push(part)?;
    Ok(parts)
}

/// The first of these parts that is not held. Takes no memory.
pub fn first_free<L: Link, T: Task>(engine: &Engine<'_, L, T>, parts: &[u32]) -> Option<u32>
    ensures { result ≡ first_free engine.now.journal.events parts.now }
{
    parts.iter().copied().find(|part| !engine.held(*part))
}

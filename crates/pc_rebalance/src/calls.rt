//! The calls of a step's block, one after the other, up to the first refusal.

ghost use Rattle.std.specs.Prelude.{◌≡◌, IfOk, true};
ghost use Rattle.pc_model.specs.Given.{has_log};
ghost use Rattle.pc_model.specs.Lawful.{held_parts};
ghost use Rattle.pc_engine.specs.Effect.{StoresOnly};
ghost use Rattle.pc_engine.specs.Engine.{Asks, given_of};
ghost use Rattle.pc_engine.specs.Stand.{stand_of};
ghost use Rattle.pc_rebalance.specs.Apply.{Applies, AssignsAll, Crashes, Revokes};

use pc_engine::{Engine, EngineFault};
use pc_model::Act;
use pc_task::Task;
use pc_world::Link;
use std::alloc::{AllocError, Global};

/// Makes the calls of an act.
pub(crate) fn perform<L: Link, T: Task>(
    alloc: Global,
    engine: &mut Engine<'_, L, T>,
    act: Act,
) -> Result<(), EngineFault>
    ensures block { Applies (L.is_told engine.old.link) (given_of T.outcome engine.old) act
        (stand_of L.store L.faults engine.old) (stand_of L.store L.faults engine.new) result }
    ensures asks { Asks T.outcome L.is_told L.faults engine.old engine.new }
    ensures others { L.is_told engine.old.link ≡ true → StoresOnly (has_log (given_of T.outcome engine.old))
        (L.store engine.old.link) (L.store engine.new.link) }
{
    match act {
        Act::Assign(part) => engine.assign(part),
        Act::Revoke(part) => give_back(engine, part),
        Act::Lose(part) => engine.lose(part),
        Act::Crash => crash(alloc, engine),
    }
}

/// Gives a part back, also where its commit fails.
fn give_back<L: Link, T: Task>(engine: &mut Engine<'_, L, T>, part: u32) -> Result<(), EngineFault>
    ensures block { Revokes (L.is_told engine.old.link) (given_of T.outcome engine.old) part
        (stand_of L.store L.faults engine.old) (stand_of L.store L.faults engine.new) result }
    ensures asks { Asks T.outcome L.is_told L.faults engine.old engine.new }
    ensures others { L.is_told engine.old.link ≡ true → StoresOnly (has_log (given_of T.outcome engine.old))
        (L.store engine.old.link) (L.store engine.new.link) }
{
    let _failed = engine.revoke(part)?;
    Ok(())
}

/// Lets the engine crash, and assigns each part again that was held.
fn crash<L: Link, T: Task>(alloc: Global, engine: &mut Engine<'_, L, T>) -> Result<(), EngineFault>
    ensures block { Crashes (L.is_told engine.old.link) (given_of T.outcome engine.old)
        (stand_of L.store L.faults engine.old) (stand_of L.store L.faults engine.new) result }
    ensures asks { Asks T.outcome L.is_told L.faults engine.old engine.new }
    ensures keeps { L.is_told engine.old.link ≡ true
        → L.store engine.new.link ≡ L.store engine.old.link }
{
    let parts = held_parts(alloc, engine)?;
    engine.crash()?;
    assign_all(engine, parts.as_slice())
}

/// The parts that are held, in rising order.
pub(crate) fn held_parts<L: Link, T: Task>(
    alloc: Global,
    engine: &Engine<'_, L, T>,
) -> Result<Vec<u32>, AllocError>
    ensures { IfOk result (λ parts. parts.items
        ≡ held_parts (given_of T.outcome engine.now) engine.now.journal.events) }
{
    (0..engine.parts())
        .filter(|part| engine.held(*part))
        .collect(alloc)
}

/// Assigns the parts in this order, up to the first that is refused.
fn assign_all<L: Link, T: Task>(
    engine: &mut Engine<'_, L, T>,
    parts: &[u32],
) -> Result<(), EngineFault>
    ensures block { AssignsAll (L.is_told engine.old.link) (given_of T.outcome engine.old) parts.now
        (stand_of L.store L.faults engine.old) (stand_of L.store L.faults engine.new) result }
    ensures asks { Asks T.outcome L.is_told L.faults engine.old engine.new }
    ensures keeps { L.is_told engine.old.link ≡ true
        → L.store engine.new.link ≡ L.store engine.old.link }
{
    for part in parts {
        engine.assign(*part)?;
    }
    Ok(())
}

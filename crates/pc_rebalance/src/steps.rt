//! The steps of a run: whether one is due, and its block.

ghost use Rattle.std.specs.Prelude.{◌≡◌, ℕ, List, [], IfErr, OnOk, Err, true};
ghost use Rattle.pc_model.specs.declared.step.Step.{Step};
ghost use Rattle.pc_model.specs.Given.{has_log};
ghost use Rattle.pc_model.specs.Pace.{is_paced};
ghost use Rattle.pc_model.specs.Steps.{follows, is_step_due, may_begin, place_of};
ghost use Rattle.pc_offset_client.specs.declared.fault.ClientFault.TheVariants.{LinkFailed};
ghost use Rattle.pc_run_laws.specs.Run.{AnyMayCome};
ghost use Rattle.pc_world.specs.World.{HasRisen};
ghost use Rattle.pc_engine.specs.declared.fault.EngineFault.TheVariants.{Client as Failed, JournalFull};
ghost use Rattle.pc_engine.specs.Effect.{StoresOnly, is_full};
ghost use Rattle.pc_engine.specs.Engine.{Asks, given_of};
ghost use Rattle.pc_engine.specs.Stand.{stand_of};
ghost use Rattle.pc_rebalance.specs.Apply.{Applies};
ghost use Rattle.pc_rebalance.specs.Block.{AddsBlock, assigned_parts, next_place};
ghost use Rattle.pc_rebalance.specs.Refusal.{IsFromOutside, MayDo};
ghost use Rattle.pc_rebalance.specs.Stop.{IsOfPart, StopsAt};

use crate::calls::perform;
use pc_engine::{Engine, EngineFault};
use pc_model::Step;
use pc_task::Task;
use pc_world::Link;
use std::alloc::Global;

/// Whether the time of the step has come: this many records have succeeded, or the run is at rest.
/// Takes no memory.
pub fn due<L: Link, T: Task>(engine: &Engine<'_, L, T>, step: &Step) -> bool
    ensures { result
        ≡ is_step_due (given_of T.outcome engine.now) step.now engine.now.journal.events }
{
    step.count <= engine.successes() || engine.at_rest()
}

/// Makes the calls of a step. A crash assigns each part again that was held, in rising order. The
/// first refusal ends it and is the answer, and what was added before it stays. That the commit of a
/// revocation failed is no refusal.
pub fn apply<L: Link, T: Task>(
    alloc: Global,
    engine: &mut Engine<'_, L, T>,
    step: &Step,
) -> Result<(), EngineFault>
    ensures block { Applies (L.is_told engine.old.link) (given_of T.outcome engine.old) step.now.act
        (stand_of L.store L.faults engine.old) (stand_of L.store L.faults engine.new) result }
    ensures asks { Asks T.outcome L.is_told L.faults engine.old engine.new }
    ensures others { L.is_told engine.old.link ≡ true → StoresOnly (has_log (given_of T.outcome engine.old))
        (L.store engine.old.link) (L.store engine.new.link) }

    // Only events of the act's block are added.
    ensures adds { AddsBlock step.now.act engine.old.journal.events engine.new.journal.events }

    // Where the link or a map refuses it, it stops at the first of its parts that is not held then.
    // Where the journal is full, two more events would pass the limit.
    ensures stops { let given = given_of T.outcome engine.old in
        IfErr result (λ fault. IsOfPart fault → (p : ℕ) × StopsAt (L.is_told engine.old.link) given
        (assigned_parts given engine.old.journal.events step.now.act)
        (stand_of L.store L.faults engine.old) (stand_of L.store L.faults engine.new) fault p) }
    ensures full { result ≡ Err JournalFull → is_full engine.new.journal.events 2 ≡ true }
    ensures cause { result ≡ Err (Failed LinkFailed) → HasRisen (L.faults engine.old.link)
        (L.faults engine.new.link) }

    // Where the act may be done, only the limit of events, the link, a map or memory refuses it.
    ensures refusal { MayDo (given_of T.outcome engine.old) engine.old.journal.events step.now.act
        → IfErr result IsFromOutside }

    // Where the step may begin, a history that follows the steps does so with what was added, whole
    // or cut short.
    ensures follows { let given = given_of T.outcome engine.old in
        let h = engine.old.journal.events in
        (steps : List Step) → may_begin given steps h step.now.act ≡ true
        → follows given steps h ≡ true → follows given steps engine.new.journal.events ≡ true }
    ensures whole { let given = given_of T.outcome engine.old in
        let h = engine.old.journal.events in
        OnOk result ((place_of given h).left ≡ []
        → place_of given engine.new.journal.events ≡ next_place (place_of given h)) }

    // And one that keeps to the pace still does, unless its last event asks for another.
    ensures paced { let given = given_of T.outcome engine.old in
        let h = engine.old.journal.events in
        (steps : List Step) → may_begin given steps h step.now.act ≡ true → AnyMayCome given h
        → is_paced given steps h ≡ true → is_paced given steps engine.new.journal.events ≡ true }
    ensures any { let given = given_of T.outcome engine.old in
        AnyMayCome given engine.old.journal.events → AnyMayCome given engine.new.journal.events }
{
    perform(alloc, engine, step.act)
}

//! A step that is due is applied, and what refuses it ends the run.

ghost use Rattle.std.specs.Prelude.{◌≡◌, ◌<◌, ◌^◌, ℕ, Option, None, Some, IsSome, length, slice_get, true};
ghost use Rattle.pc_model.specs.Steps.{is_step_due};
ghost use Rattle.pc_engine.specs.Engine.{Asks, given_of};
ghost use Rattle.pc_rebalance.specs.Block.{AddsBlock};
ghost use Rattle.pc_rebalance.specs.Refusal.{IsFromOutside, MayDo};
ghost use Rattle.pc_rebalance.specs.Stop.{IsOfPart};
ghost use Rattle.pc_state_lock.specs.Heading.{Heading};
ghost use Rattle.pc_pool.specs.Applied.{ending_by, used_after};
ghost use Rattle.pc_pool.specs.Run.{IsConsuming};

use crate::ending::Ending;
use crate::run::legal;
use pc_engine::{Engine, EngineFault};
use pc_model::Step;
use pc_rebalance::{apply, assigned_parts, first_free};
use pc_run_laws::events_are_bounded;
use pc_script::Steps;
use pc_task::Task;
use pc_world::Link;
use std::alloc::Global;

/// Applies a step that is due, and returns why the run ends where that is refused.
pub(crate) fn applied<L: Link, T: Task>(
    alloc: Global,
    engine: &mut Engine<'_, L, T>,
    step: &Step,
) -> Option<Ending>
    requires { MayDo (given_of T.outcome engine.old) engine.old.journal.events step.now.act }
    ensures asks { Asks T.outcome L.is_told L.faults engine.old engine.new }
    ensures adds { AddsBlock step.now.act engine.old.journal.events engine.new.journal.events }

    // A run whose next step this is, and due, stays one.
    ensures keeps { (run : Heading) (used : ℕ) → run.given ≡ given_of T.outcome engine.old
        → slice_get run.steps used ≡ Some step.now
        → is_step_due run.given step.now engine.old.journal.events ≡ true
        → IsConsuming run (L.is_told engine.old.link) engine.old.journal.events
        (L.store engine.old.link) (L.faults engine.old.link) used None
        → IsConsuming run (L.is_told engine.new.link) engine.new.journal.events
        (L.store engine.new.link) (L.faults engine.new.link) (used_after used result) result }
{
    let Ok(parts) = assigned_parts(alloc, engine, step.act) else {
        return Some(Ending::NoMemory);
    };
    events_are_bounded();
    let answer = apply(alloc, engine, step);
    legal(engine);
    match answer {
        Ok(()) => None,
        Err(fault) => Some(ending_of(fault, first_free(engine, parts.as_slice()))),
    }
}

/// Why a run ends whose step was refused, where this is the part that was not assigned.
fn ending_of(fault: EngineFault, part: Option<u32>) -> Ending
    requires outside { IsFromOutside fault }
    requires part { IsOfPart fault → IsSome part }
    ensures { result ≡ ending_by fault part }
{
    match fault {
        EngineFault::Client(failed) => Ending::Client(failed),
        EngineFault::BadMap(fault) => match part {
            Some(part) => Ending::BadMap { part, fault },
            None => unreachable!(),
        },
        EngineFault::JournalFull => Ending::JournalFull,
        EngineFault::NoMemory => Ending::NoMemory,
        _ => unreachable!(),
    }
}

/// The steps are no more than a count of them holds.
pub(crate) fn are_countable(steps: &Steps)
    ensures { length steps.now < 2 ^ 64 }
{
    let _count = steps.len();
}

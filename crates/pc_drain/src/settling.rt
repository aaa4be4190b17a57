//! A result that was taken: it is settled, and the clock is moved first where it is a failure.

ghost use Rattle.std.specs.Prelude.{◌≡◌, ℕ, true, false};
ghost use Rattle.pc_model.specs.declared.outcome.Outcome.TheVariants.{Bad};
ghost use Rattle.pc_model.specs.Jobs.{has_ended};
ghost use Rattle.pc_task.specs.Results.{finished_job};
ghost use Rattle.pc_engine.specs.Engine.{Expects, Keeps, given_of};
ghost use Rattle.pc_engine.specs.Stand.{stand_of};
ghost use Rattle.pc_drain.specs.declared.turn.Turn.TheVariants.{Went};
ghost use Rattle.pc_drain.specs.Turn.{Concludes, Fails, Settles, SettlesFound};

use crate::turn::{Turn, refused};
use pc_engine::Engine;
use pc_model::Outcome;
use pc_task::{Finished, Task};
use pc_world::Link;

/// Settles a result that the engine expects, and drops another. Before a failure the clock is moved
/// on to `now`; where that is refused, the result is dropped.
pub(crate) fn settle<'a, L: Link, T: Task + Drop>(
    engine: &mut Engine<'a, L, T>,
    done: Finished<'a, T>,
    now: u64,
) -> Turn
    requires goes_on { has_ended engine.old.journal.events ≡ false }
    ensures turn { Settles T.outcome T.same now engine.old done.entry
        (stand_of L.store L.faults engine.old) (stand_of L.store L.faults engine.new) result }
    ensures keeps { Keeps T.outcome engine.old engine.new }
{
    if engine.expects(&done) {
        settle_expected(engine, done, now)
    } else {
        Turn::Went
    }
}

/// Settles a result that the engine expects.
fn settle_expected<'a, L: Link, T: Task + Drop>(
    engine: &mut Engine<'a, L, T>,
    done: Finished<'a, T>,
    now: u64,
) -> Turn
    requires goes_on { has_ended engine.old.journal.events ≡ false }
    requires expected { Expects T.outcome T.same engine.old done }
    ensures turn { SettlesFound (given_of T.outcome engine.old) now true (finished_job done.entry)
        done.entry.outcome
        (stand_of L.store L.faults engine.old) (stand_of L.store L.faults engine.new) result }
    ensures keeps { Keeps T.outcome engine.old engine.new }
{
    match done.outcome {
        Outcome::Good(_) => conclude(engine, done),
        Outcome::Bad(_) => settle_failure(engine, done, now),
    }
}

/// Settles a failure that the engine expects, after the clock is moved.
fn settle_failure<'a, L: Link, T: Task + Drop>(
    engine: &mut Engine<'a, L, T>,
    done: Finished<'a, T>,
    now: u64,
) -> Turn
    requires goes_on { has_ended engine.old.journal.events ≡ false }
    requires expected { Expects T.outcome T.same engine.old done }
    ensures turn { (code : ℕ) → done.entry.outcome ≡ Bad code
        → Fails (given_of T.outcome engine.old) now (finished_job done.entry) code
        (stand_of L.store L.faults engine.old) (stand_of L.store L.faults engine.new) result }
    ensures keeps { Keeps T.outcome engine.old engine.new }
{
    match engine.tick(now) {
        Ok(_) => conclude(engine, done),
        Err(fault) => refused(fault),
    }
}

/// Settles a result that the engine expects, at the time of its clock.
fn conclude<'a, L: Link, T: Task + Drop>(
    engine: &mut Engine<'a, L, T>,
    done: Finished<'a, T>,
) -> Turn
    requires goes_on { has_ended engine.old.journal.events ≡ false }
    requires expected { Expects T.outcome T.same engine.old done }
    ensures turn { result ≡ Went }
    ensures settles { Concludes (given_of T.outcome engine.old) (finished_job done.entry)
        done.entry.outcome
        (stand_of L.store L.faults engine.old) (stand_of L.store L.faults engine.new) }
    ensures keeps { Keeps T.outcome engine.old engine.new }
{
    let _settled = engine.settle(done);
    Turn::Went
}

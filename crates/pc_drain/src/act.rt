//! The actions of a control turn that found no result.

ghost use Rattle.std.specs.Prelude.{◌≡◌, IfErr, Some, None, Err, true, false, find};
ghost use Rattle.pc_model.specs.Given.{has_log, parts_of};
ghost use Rattle.pc_model.specs.Jobs.{has_ended, is_draining};
ghost use Rattle.pc_model.specs.Run.{is_unsaved, poll_number};
ghost use Rattle.pc_model.specs.Epochs.{is_held};
ghost use Rattle.pc_engine.specs.Effect.{StoresOnly, poll_step, tick_step};
ghost use Rattle.pc_engine.specs.Ending.{drain_step};
ghost use Rattle.pc_engine.specs.Engine.{Asks, Keeps, given_of};
ghost use Rattle.pc_engine.specs.Stand.{stand_of};
ghost use Rattle.pc_drain.specs.Action.{action_of};
ghost use Rattle.pc_drain.specs.Turn.{Calls, Commits, DoesAction, Finishes, IsCommitRefusal, IsEndRefusal, commit_turn, finish_turn, save_turn};

use crate::action::{Action, next_action};
use crate::turn::{Turn, called};
use pc_engine::{Committed, Engine, EngineFault};
use pc_task::Task;
use pc_world::Link;

/// Does the first action that applies.
pub(crate) fn act<L: Link, T: Task>(engine: &mut Engine<'_, L, T>, now: u64, last: bool) -> Turn
    requires goes_on { has_ended engine.old.journal.events ≡ false }
    ensures turn { DoesAction (L.is_told engine.old.link) (given_of T.outcome engine.old) now
        (action_of (given_of T.outcome engine.old) engine.old.journal.events now last)
        (stand_of L.store L.faults engine.old) (stand_of L.store L.faults engine.new) result }
    ensures asks { Asks T.outcome L.is_told L.faults engine.old engine.new }
    ensures others { L.is_told engine.old.link ≡ true → StoresOnly (has_log (given_of T.outcome engine.old))
        (L.store engine.old.link) (L.store engine.new.link) }
{
    match next_action(engine, now, last) {
        Action::MoveClock => move_clock(engine, now),
        Action::Commit(part) => commit(engine, part),
        Action::Poll(part, count) => poll(engine, part, count),
        Action::BeginDrain => begin_drain(engine),
        Action::Save(part) => save(engine, part),
        Action::Finish => finish(engine),
        Action::Rest => Turn::Idle,
    }
}

/// Moves the clock on.
fn move_clock<L: Link, T: Task>(engine: &mut Engine<'_, L, T>, now: u64) -> Turn
    requires goes_on { has_ended engine.old.journal.events ≡ false }
    ensures turn { Calls (tick_step engine.old.journal.events now)
        (stand_of L.store L.faults engine.old) (stand_of L.store L.faults engine.new) result }
    ensures keeps { Keeps T.outcome engine.old engine.new }
{
    called(engine.tick(now))
}

/// Commits a part whose commit is due.
fn commit<L: Link, T: Task>(engine: &mut Engine<'_, L, T>, part: u32) -> Turn
    requires goes_on { has_ended engine.old.journal.events ≡ false }
    requires held { is_held engine.old.journal.events part ≡ true }
    ensures turn { Commits (L.is_told engine.old.link) (given_of T.outcome engine.old) part commit_turn
        (stand_of L.store L.faults engine.old) (stand_of L.store L.faults engine.new) result }
    ensures asks { Asks T.outcome L.is_told L.faults engine.old engine.new }
    ensures others { L.is_told engine.old.link ≡ true → StoresOnly (has_log (given_of T.outcome engine.old))
        (L.store engine.old.link) (L.store engine.new.link) }
{
    let _legal = engine.journal();
    committed(engine.commit(part))
}

/// What a commit that was due answered, as a turn: that it failed is no end.
fn committed(answer: Result<Committed, EngineFault>) -> Turn
    requires { IfErr answer IsCommitRefusal }
    ensures { result ≡ commit_turn answer }
{
    match answer {
        Ok(_) | Err(EngineFault::Client(_)) => Turn::Went,
        Err(EngineFault::JournalFull) => Turn::JournalFull,
        Err(EngineFault::NoMemory) => Turn::NoMemory,
        Err(_) => unreachable!(),
    }
}

/// Polls so many records of a part whose poll is open.
fn poll<L: Link, T: Task>(engine: &mut Engine<'_, L, T>, part: u32, count: u32) -> Turn
    requires goes_on { has_ended engine.old.journal.events ≡ false }
    requires opened { poll_number (given_of T.outcome engine.old) engine.old.journal.events part ≡ Some count }
    ensures turn { Calls (poll_step (given_of T.outcome engine.old) engine.old.journal.events part count)
        (stand_of L.store L.faults engine.old) (stand_of L.store L.faults engine.new) result }
    ensures keeps { Keeps T.outcome engine.old engine.new }
{
    let _legal = engine.journal();
    called(engine.poll(part, count))
}

/// Begins the drain.
fn begin_drain<L: Link, T: Task>(engine: &mut Engine<'_, L, T>) -> Turn
    requires goes_on { has_ended engine.old.journal.events ≡ false }
    requires flows { is_draining engine.old.journal.events ≡ false }
    ensures turn { Calls (drain_step engine.old.journal.events)
        (stand_of L.store L.faults engine.old) (stand_of L.store L.faults engine.new) result }
    ensures keeps { Keeps T.outcome engine.old engine.new }
{
    called(engine.begin_drain())
}

/// Commits a part that has something to save.
fn save<L: Link, T: Task>(engine: &mut Engine<'_, L, T>, part: u32) -> Turn
    requires goes_on { has_ended engine.old.journal.events ≡ false }
    requires held { is_held engine.old.journal.events part ≡ true }
    ensures turn { Commits (L.is_told engine.old.link) (given_of T.outcome engine.old) part save_turn
        (stand_of L.store L.faults engine.old) (stand_of L.store L.faults engine.new) result }
    ensures asks { Asks T.outcome L.is_told L.faults engine.old engine.new }
    ensures others { L.is_told engine.old.link ≡ true → StoresOnly (has_log (given_of T.outcome engine.old))
        (L.store engine.old.link) (L.store engine.new.link) }
{
    let _legal = engine.journal();
    saved(engine.commit(part))
}

/// What a commit that was to save answered, as a turn.
fn saved(answer: Result<Committed, EngineFault>) -> Turn
    requires { IfErr answer IsCommitRefusal }
    ensures { result ≡ save_turn answer }
{
    match answer {
        Ok(_) => Turn::Went,
        Err(EngineFault::Client(failed)) => Turn::Client(failed),
        Err(EngineFault::JournalFull) => Turn::JournalFull,
        Err(EngineFault::NoMemory) => Turn::NoMemory,
        Err(_) => unreachable!(),
    }
}

/// Ends the engine, where all is saved.
fn finish<L: Link, T: Task>(engine: &mut Engine<'_, L, T>) -> Turn
    requires goes_on { has_ended engine.old.journal.events ≡ false }
    requires saved { find (is_unsaved (given_of T.outcome engine.old) engine.old.journal.events)
        (parts_of (given_of T.outcome engine.old)) ≡ None }
    ensures turn { Finishes (given_of T.outcome engine.old)
        (stand_of L.store L.faults engine.old) (stand_of L.store L.faults engine.new) result }
    ensures keeps { Keeps T.outcome engine.old engine.new }
{
    match engine.finish() {
        Ok(()) => Turn::Done,
        Err(fault) => unfinished(engine, fault),
    }
}

/// Why the engine did not end, as a turn.
fn unfinished<L: Link, T: Task>(engine: &Engine<'_, L, T>, fault: EngineFault) -> Turn
    requires { IsEndRefusal fault }
    ensures { result ≡ finish_turn engine.now.journal.events (Err fault) }
{
    match fault {
        EngineFault::NotDone { part, offset } => Turn::Undrained {
            part,
            offset,
            failures: engine.failures(part, offset),
        },
        EngineFault::JournalFull => Turn::JournalFull,
        EngineFault::NoMemory => Turn::NoMemory,
        _ => unreachable!(),
    }
}

//! The control turn: a result is settled, or else the first action is done that applies.

ghost use Rattle.std.specs.Prelude.{◌≡◌, ◌≤◌, ◌+◌, ◌⊎◌, List, [], true, false, length};
ghost use Rattle.std.specs.List.{list_all};
ghost use Rattle.pc_model.specs.declared.step.Step.{Step};
ghost use Rattle.pc_model.specs.Given.{has_log, parts_of};
ghost use Rattle.pc_model.specs.Jobs.{has_ended};
ghost use Rattle.pc_model.specs.Pace.{is_paced, is_tended};
ghost use Rattle.pc_model.specs.Run.{is_at_rest};
ghost use Rattle.pc_model.specs.Steps.{follows, place_of};
ghost use Rattle.pc_offset_client.specs.declared.fault.ClientFault.TheVariants.{LinkFailed};
ghost use Rattle.pc_world.specs.World.{HasRisen};
ghost use Rattle.pc_mailbox.specs.Ends.{Missed};
ghost use Rattle.pc_run_laws.specs.Run.{AnyMayCome};
ghost use Rattle.pc_engine.specs.Effect.{StoresOnly, is_full};
ghost use Rattle.pc_engine.specs.Engine.{Asks, given_of};
ghost use Rattle.pc_engine.specs.Stand.{stand_of};
ghost use Rattle.pc_drain.specs.declared.turn.Turn.TheVariants.{Client as Unsaved, Done, Idle, JournalFull};
ghost use Rattle.pc_drain.specs.Action.{action_of};
ghost use Rattle.pc_drain.specs.Causes.{KeepsCauses};
ghost use Rattle.pc_drain.specs.Counts.{dispatch_workers, settled_count, taken_count};
ghost use Rattle.pc_drain.specs.Turn.{DoesAction, EndsUnsaved, Receives};

use crate::act::act;
use crate::settling::settle;
use crate::turn::Turn;
use pc_engine::Engine;
use pc_mailbox::{Inbox, Mailbox};
use pc_task::{Finished, Task};
use pc_world::Link;
use std::sync::Wait;

/// Does the first of these that applies, where `now` is the time in milliseconds and `last` says that
/// all steps are used up:
///
/// 1. It takes a result from the inbox and settles it. Before a failure that the engine expects it
///    moves the clock on to `now`. A result that the engine does not expect is dropped.
/// 2. Where a record waits for a time up to `now`, it moves the clock on to `now`.
/// 3. It commits the least part whose commit is due. That it fails is no end.
/// 4. It polls the least part whose poll is open.
/// 5. At rest, with all steps used up, it begins the drain; once that is begun it commits the least
///    part that has something unsaved, and where there is none it finishes.
/// 6. It is idle.
///
/// It may wait for another thread that puts a result.
pub fn control_turn<'a, R: Wait, L: Link, T: Task + Drop>(
    rt: &R,
    engine: &mut Engine<'a, L, T>,
    mail: &Mailbox<Finished<'a, T>>,
    inbox: &mut Inbox<Finished<'a, T>>,
    now: u64,
    last: bool,
) -> Turn
    requires goes_on { has_ended engine.old.journal.events ≡ false }
    requires inbox { inbox.old.mailbox ≡ mail.now }

    // What it does, by what was found and what the link did.
    ensures turn { (Missed inbox.old inbox.new × DoesAction (L.is_told engine.old.link)
        (given_of T.outcome engine.old) now
        (action_of (given_of T.outcome engine.old) engine.old.journal.events now last)
        (stand_of L.store L.faults engine.old) (stand_of L.store L.faults engine.new) result)
        ⊎ Receives T.outcome T.same now engine.old inbox.old inbox.new
        (stand_of L.store L.faults engine.old) (stand_of L.store L.faults engine.new) result }
    ensures asks { Asks T.outcome L.is_told L.faults engine.old engine.new }
    ensures others { L.is_told engine.old.link ≡ true → StoresOnly (has_log (given_of T.outcome engine.old))
        (L.store engine.old.link) (L.store engine.new.link) }
    ensures inbox { inbox.new.mailbox ≡ inbox.old.mailbox }

    // When it is idle, ended or full.
    ensures idle { result ≡ Idle → (engine.new.journal.events ≡ engine.old.journal.events)
        × (list_all (is_tended (given_of T.outcome engine.old) engine.old.journal.events)
        (parts_of (given_of T.outcome engine.old)) ≡ true)
        × (last ≡ true → is_at_rest (given_of T.outcome engine.old) engine.old.journal.events ≡ false) }
    ensures goes_on { (result ≡ Done → ⊥) → has_ended engine.new.journal.events ≡ false }
    ensures full { result ≡ JournalFull → is_full engine.new.journal.events 1 ≡ true }
    ensures cause { result ≡ Unsaved LinkFailed → HasRisen (L.faults engine.old.link)
        (L.faults engine.new.link) }

    // A run by its steps goes on as one.
    ensures place { place_of (given_of T.outcome engine.old) engine.new.journal.events
        ≡ place_of (given_of T.outcome engine.old) engine.old.journal.events }
    ensures follows { let given = given_of T.outcome engine.old in
        let h = engine.old.journal.events in
        (steps : List Step) → (place_of given h).left ≡ []
        → follows given steps h ≡ true → follows given steps engine.new.journal.events ≡ true }
    ensures paced { let given = given_of T.outcome engine.old in
        let h = engine.old.journal.events in
        (steps : List Step) → (last ≡ true → length steps ≤ (place_of given h).begun)
        → AnyMayCome given h → is_paced given steps h ≡ true
        → is_paced given steps engine.new.journal.events ≡ true }
    ensures any { let given = given_of T.outcome engine.old in
        AnyMayCome given engine.old.journal.events → (EndsUnsaved result → ⊥)
        → AnyMayCome given engine.new.journal.events }

    // What it counts.
    ensures causes { L.is_told engine.old.link ≡ true
        → KeepsCauses (stand_of L.store L.faults engine.old) (stand_of L.store L.faults engine.new) }
    ensures settled { settled_count engine.new.journal.events + taken_count inbox.old.taken
        ≤ settled_count engine.old.journal.events + taken_count inbox.new.taken }
    ensures workers { dispatch_workers engine.new.journal.events
        ≡ dispatch_workers engine.old.journal.events }
{
    match mail.take(rt, inbox) {
        Some(done) => settle(engine, done, now),
        None => act(engine, now, last),
    }
}

//! A control turn of a run, and what it means where it ends the run.

ghost use Rattle.std.specs.Prelude.{◌≡◌, ◌≤◌, ◌+◌, ◌==◌, ℕ, None, true, false, length};
ghost use Rattle.std.specs.List.{list_all};
ghost use Rattle.pc_model.specs.Given.{parts_of};
ghost use Rattle.pc_model.specs.Jobs.{has_ended};
ghost use Rattle.pc_model.specs.Pace.{is_tended};
ghost use Rattle.pc_engine.specs.Engine.{Asks, given_of};
ghost use Rattle.pc_drain.specs.declared.turn.Turn.TheVariants.{Idle};
ghost use Rattle.pc_drain.specs.Counts.{settled_count, taken_count};
ghost use Rattle.pc_state_lock.specs.Heading.{Heading};
ghost use Rattle.pc_state_lock.specs.History.{Continues};
ghost use Rattle.pc_pool.specs.Run.{Ends, IsConsuming, ended_by, ending_of};

use crate::ending::Ending;
use crate::run::legal;
use pc_drain::{Turn, control_turn};
use pc_engine::Engine;
use pc_mailbox::{Inbox, Mailbox};
use pc_run_laws::{events_are_bounded, what_is_left_is_given_up};
use pc_task::{Finished, Task};
use pc_world::Link;
use std::sync::Wait;

/// Makes a control turn, where `last` says that the steps are used up.
pub(crate) fn turned<'a, R: Wait, L: Link, T: Task + Drop>(
    rt: &R,
    engine: &mut Engine<'a, L, T>,
    mail: &Mailbox<Finished<'a, T>>,
    inbox: &mut Inbox<Finished<'a, T>>,
    now: u64,
    last: bool,
) -> Turn
    requires goes_on { has_ended engine.old.journal.events ≡ false }
    requires inbox { inbox.old.mailbox ≡ mail.now }
    ensures asks { Asks T.outcome L.is_told L.faults engine.old engine.new }
    ensures later { Continues engine.new.journal.events engine.old.journal.events }
    ensures idle { result ≡ Idle → (engine.new.journal.events ≡ engine.old.journal.events)
        × (list_all (is_tended (given_of T.outcome engine.old) engine.old.journal.events)
        (parts_of (given_of T.outcome engine.old)) ≡ true) }
    ensures inbox { inbox.new.mailbox ≡ inbox.old.mailbox }
    ensures settled { settled_count engine.new.journal.events + taken_count inbox.old.taken
        ≤ settled_count engine.old.journal.events + taken_count inbox.new.taken }

    // A run that goes on stays one, or ends as the turn says.
    ensures keeps { (run : Heading) (used : ℕ) → run.given ≡ given_of T.outcome engine.old
        → last ≡ (used == length run.steps)
        → IsConsuming run (L.is_told engine.old.link) engine.old.journal.events
        (L.store engine.old.link) (L.faults engine.old.link) used None
        → IsConsuming run (L.is_told engine.new.link) engine.new.journal.events
        (L.store engine.new.link) (L.faults engine.new.link) used (ended_by result) }
{
    events_are_bounded();
    what_is_left_is_given_up();
    let turn = control_turn(rt, engine, mail, inbox, now, last);
    legal(engine);
    turn
}

/// Why a run ends with this turn.
pub(crate) fn ending_of(turn: Turn) -> Ending
    requires { Ends turn }
    ensures { result ≡ ending_of turn }
{
    match turn {
        Turn::Done => Ending::Done,
        Turn::Undrained {
            part,
            offset,
            failures,
        } => Ending::Undrained {
            part,
            offset,
            failures,
        },
        Turn::Client(failed) => Ending::Client(failed),
        Turn::JournalFull => Ending::JournalFull,
        Turn::NoMemory => Ending::NoMemory,
        Turn::Went | Turn::Idle => unreachable!(),
    }
}

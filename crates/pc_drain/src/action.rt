//! Which action a control turn does where it found no result.

ghost use Rattle.std.specs.Prelude.{◌≡◌, find, is_some};
ghost use Rattle.pc_model.specs.Given.{parts_of};
ghost use Rattle.pc_model.specs.Run.{is_commit_due, is_unsaved, poll_number};
ghost use Rattle.pc_engine.specs.Engine.{given_of};
ghost use Rattle.pc_drain.specs.Action.{action_of, is_clock_due, rest_action};

use pc_engine::Engine;
use pc_task::Task;
use pc_world::Link;

/// An action of a control turn.
#[derive(Clone, Copy, Debug, PartialEq, Eq)]
pub enum Action {
    /// The clock moves on, to the time of a record that waits.
    MoveClock,
    /// The part's commit is due.
    Commit(u32),
    /// The part's poll is open, for so many records.
    Poll(u32, u32),
    /// The run is at rest, its steps are used up, and it does not drain yet.
    BeginDrain,
    /// The part has something that is not stored for certain, and the run drains.
    Save(u32),
    /// All is saved.
    Finish,
    /// Nothing is to be done.
    Rest,
}

/// The first action that applies.
pub(crate) fn next_action<L: Link, T: Task>(
    engine: &Engine<'_, L, T>,
    now: u64,
    last: bool,
) -> Action
    ensures { result
        ≡ action_of (given_of T.outcome engine.now) engine.now.journal.events now last }
{
    if is_clock_due(engine, now) {
        return Action::MoveClock;
    }
    if let Some(part) = due_part(engine) {
        return Action::Commit(part);
    }
    if let Some(part) = open_part(engine) {
        return Action::Poll(part, engine.poll_open(part).unwrap_or(0));
    }
    if last && engine.at_rest() {
        return rest_action(engine);
    }
    Action::Rest
}

/// Whether a record waits for this time or an earlier one, and the clock is not there yet.
fn is_clock_due<L: Link, T: Task>(engine: &Engine<'_, L, T>, now: u64) -> bool
    ensures { result ≡ is_clock_due (given_of T.outcome engine.now) engine.now.journal.events now }
{
    engine.next_time().is_some_and(|time| time <= now) && engine.now() < now
}

/// The least part whose commit is due.
fn due_part<L: Link, T: Task>(engine: &Engine<'_, L, T>) -> Option<u32>
    ensures { result ≡ find (is_commit_due (given_of T.outcome engine.now) engine.now.journal.events)
        (parts_of (given_of T.outcome engine.now)) }
{
    (0..engine.parts()).find(|part| engine.commit_due(*part))
}

/// The least part whose poll is open.
fn open_part<L: Link, T: Task>(engine: &Engine<'_, L, T>) -> Option<u32>
    ensures { result ≡ find
        (λ p. is_some (poll_number (given_of T.outcome engine.now) engine.now.journal.events p))
        (parts_of (given_of T.outcome engine.now)) }
{
    (0..engine.parts()).find(|part| engine.poll_open(*part).is_some())
}

/// The least part that has something to save.
fn unsaved_part<L: Link, T: Task>(engine: &Engine<'_, L, T>) -> Option<u32>
    ensures { result ≡ find (is_unsaved (given_of T.outcome engine.now) engine.now.journal.events)
        (parts_of (given_of T.outcome engine.now)) }
{
    (0..engine.parts()).find(|part| engine.unsaved(*part))
}

/// The action of a run at rest whose steps are used up.
fn rest_action<L: Link, T: Task>(engine: &Engine<'_, L, T>) -> Action
    ensures { result ≡ rest_action (given_of T.outcome engine.now) engine.now.journal.events }
{
    if !engine.is_draining() {
        return Action::BeginDrain;
    }
    match unsaved_part(engine) {
        Some(part) => Action::Save(part),
        None => Action::Finish,
    }
}

//! Laws of every run by its steps: what it leaves at its end was given up, and nothing is left
//! where each record succeeds in time. It stays at rest once it drains, its events are bounded by
//! its input, and its failed commits have a cause. Each part begins with its start, and which parts
//! it holds goes by its steps.
//!
//! Each function does nothing; its clause is the law, for every setup, log, start, function, script of
//! steps and history.
#![tactic(auto)]

ghost use Rattle.std.specs.Prelude.{ℕ, ◌+◌, ◌-◌, ◌^◌, Bool, true, ◌||◌, List, [], ◌++◌, length, take, Some, ◌≡◌, ◌≤◌, ◌⊎◌};
ghost use Rattle.pc_model.specs.declared.event.Event.{Event};
ghost use Rattle.pc_model.specs.declared.commit.Commit.{Commit};
ghost use Rattle.pc_model.specs.declared.step.Step.{Step};
ghost use Rattle.pc_model.specs.Bound.{event_bound, failing_attempts};
ghost use Rattle.pc_model.specs.Given.{Given, records_of, start_of};
ghost use Rattle.pc_model.specs.Jobs.{is_draining, open_jobs};
ghost use Rattle.pc_model.specs.Epochs.{is_held};
ghost use Rattle.pc_model.specs.Known.{unpolled_records};
ghost use Rattle.pc_model.specs.Lawful.{IsLegal};
ghost use Rattle.pc_model.specs.Record.{Record};
ghost use Rattle.pc_model.specs.Retry.{failures_of};
ghost use Rattle.pc_model.specs.Run.{is_at_rest, open_records};
ghost use Rattle.pc_model.specs.Steps.{place_of};
ghost use Rattle.pc_laws.specs.Lists.{In};
ghost use Rattle.pc_run_laws.specs.Assigned.{first_assigned};
ghost use Rattle.pc_run_laws.specs.Failed.{AreCaused, last_count, unrefused_commits};
ghost use Rattle.pc_run_laws.specs.Held.{held_after, is_left};
ghost use Rattle.pc_run_laws.specs.Run.{IsFirstUnfinished, IsRun, SucceedsInTime};

/// From its drain on a run stays at rest.
pub fn stays_at_rest()
    ensures { (given : Given) (steps : List Step) (h : List Event) → IsRun given steps h
        → is_draining h ≡ true → is_at_rest given h ≡ true }
{}

/// At rest the first record of a held part that is incomplete or was not polled has failed exactly
/// as often as it may. So it is of the record that an end names which is refused.
pub fn what_is_left_is_given_up()
    ensures { (given : Given) (steps : List Step) (h : List Event) (p : ℕ) (r : Record)
        → IsRun given steps h → is_at_rest given h ≡ true → is_held h p ≡ true
        → IsFirstUnfinished given h p r
        → failures_of h p r.offset ≡ given.setup.settings.give_up }
{}

/// A record of a log fails no more often than the function says: in the present epoch of its part
/// at most as often as its attempts are bad before the first good one.
pub fn failures_are_of_bad_attempts()
    ensures { (given : Given) (h : List Event) (p : ℕ) (r : Record)
        → IsLegal given h → In r (records_of given p)
        → failures_of h p r.offset ≤ failing_attempts given p r }
{}

/// At rest a held part of which each record succeeds in time is finished: all its records from its
/// begin on were polled, and each of them is complete.
pub fn all_is_finished_at_rest()
    ensures unfinished { (given : Given) (steps : List Step) (h : List Event) (p : ℕ)
        → IsRun given steps h → is_at_rest given h ≡ true → is_held h p ≡ true
        → SucceedsInTime given p → (r : Record) → IsFirstUnfinished given h p r → ⊥ }
    ensures finished { (given : Given) (steps : List Step) (h : List Event) (p : ℕ)
        → IsRun given steps h → is_at_rest given h ≡ true → is_held h p ≡ true
        → SucceedsInTime given p
        → (open_records given h p ≡ []) × (unpolled_records given h p ≡ []) }
{}

/// Over a link that tells its store, the first assignment of a part has the commit that was stored
/// for it before the run.
pub fn a_part_begins_with_its_start()
    ensures { (given : Given) (h : List Event) (p : ℕ) (c : Commit)
        → given.is_told ≡ true → IsLegal given h → first_assigned h p ≡ Some c
        → c ≡ start_of given p }
{}

/// A part that is held was assigned.
pub fn what_is_held_was_assigned()
    ensures { (h : List Event) (p : ℕ) → is_held h p ≡ true
        → (c : Commit) × (first_assigned h p ≡ Some c) }
{}

/// Which parts a run holds goes by the steps whose blocks were begun: at each place between two
/// blocks; within the block of a crash, with the parts that it still has to assign again; and once
/// the run drains, by all of its steps.
pub fn held_goes_by_the_steps()
    ensures whole { (given : Given) (steps : List Step) (h : List Event) (p : ℕ)
        → IsRun given steps h → (place_of given h).left ≡ []
        → is_held h p ≡ held_after (take (place_of given h).begun steps) p }
    ensures cut_short { (given : Given) (steps : List Step) (h : List Event) (p : ℕ)
        → IsRun given steps h → (is_held h p || is_left given h p)
        ≡ held_after (take (place_of given h).begun steps) p }
    ensures drained { (given : Given) (steps : List Step) (h : List Event) (p : ℕ)
        → IsRun given steps h → is_draining h ≡ true → is_held h p ≡ held_after steps p }
{}

/// Events are bounded by the input: with a place for the result of each job that is out, they are
/// at most the bound of the steps less 2.
pub fn events_are_bounded()
    ensures { (given : Given) (steps : List Step) (h : List Event) → IsRun given steps h
        → length h + length (open_jobs h) + 2 ≤ event_bound given steps }
{}

/// What a run was before its newest events is a run by the same steps.
pub fn prefix_is_run()
    ensures { (given : Given) (steps : List Step) (later h : List Event)
        → IsRun given steps (later ++ h) → IsRun given steps h }
{}

/// Failed commits have their cause: those that the broker does not refuse are no more than the faults
/// by which the link's count rose, unless that count stands at its end.
pub fn failed_commits_have_their_cause()
    ensures { (refuses : ℕ → Commit → Bool) (start : ℕ) (h : List Event) (counts : List ℕ)
        → AreCaused refuses start h counts
        → (start + unrefused_commits refuses h ≤ last_count start counts)
        ⊎ (2 ^ 64 - 1 ≤ last_count start counts) }
{}

//! Laws of every legal history: it is sound and orderly, positions never go down, done means
//! stored, and a part with work left goes on.
//!
//! Each function does nothing; its clause is the law, for every setup, log, start and history.
#![tactic(auto)]

ghost use Rattle.std.specs.Prelude.{ℕ, List, [], ◌∷◌, ◌++◌, ◌≡◌, ◌≤◌, ◌<◌, ◌⊎◌, true, false, Some};
ghost use Rattle.std.specs.List.{list_any};
ghost use Rattle.pc_model.specs.declared.event.Event.{Event};
ghost use Rattle.pc_model.specs.declared.event.Event.TheVariants.{Stale, Done};
ghost use Rattle.pc_model.specs.declared.commit.Commit.{Commit};
ghost use Rattle.pc_model.specs.Record.{Record};
ghost use Rattle.pc_model.specs.Given.{Given, records_of};
ghost use Rattle.pc_model.specs.Jobs.{Job, is_draining, open_jobs};
ghost use Rattle.pc_model.specs.Epochs.{epoch_of, is_held, is_current, moves};
ghost use Rattle.pc_model.specs.Stored.{may_store, passes};
ghost use Rattle.pc_model.specs.Known.{polled_records, unpolled_records, is_job_at, has_succeeded, is_complete, position_of};
ghost use Rattle.pc_model.specs.Next.{ordering_key, is_busy, is_first, eligible_offsets, next_record};
ghost use Rattle.pc_model.specs.Lawful.{IsLegal};
ghost use Rattle.pc_model.specs.Sound.{IsSound, IsOrderly};
ghost use Rattle.pc_laws.specs.Lists.{In};
ghost use Rattle.pc_laws.specs.Kept.{IsKept, is_assign_of};
ghost use Rattle.pc_laws.specs.Positions.{PositionsRise};
ghost use Rattle.pc_laws.specs.Stall.{HasWork, GoesOn};
ghost use Rattle.pc_laws.specs.Failed.{IsUnfailed};
ghost use Rattle.pc_laws.specs.First.{IsFirstOfItsKey};

/// Nothing is passed over that was not done, over a link that tells its store. A prefix of a legal
/// history is legal, so this says it of every prefix.
pub fn legal_is_sound()
    ensures { (given : Given) (h : List Event) → given.is_told ≡ true → IsLegal given h →
        IsSound given h }
{}

/// One ordering key runs singly, in offset order until success.
pub fn legal_is_orderly()
    ensures { (given : Given) (h : List Event) → IsLegal given h → IsOrderly given h }
{}

/// What a legal history was before its newest events is a legal history.
pub fn prefix_is_legal()
    ensures { (given : Given) (later h : List Event) → IsLegal given (later ++ h) →
        IsLegal given h }
{}

/// The facts that the laws rest on.
pub fn legal_is_kept()
    ensures { (given : Given) (h : List Event) → IsLegal given h → IsKept given h }
{}

/// A stale result changes nothing that is said of any part, nor which records may be dispatched.
pub fn stale_changes_nothing()
    ensures complete { (given : Given) (h : List Event) (ticket p o : ℕ)
        → is_complete (Stale ticket ∷ h) p o ≡ is_complete h p o }
    ensures stored { (given : Given) (h : List Event) (ticket p : ℕ)
        → may_store given (Stale ticket ∷ h) p ≡ may_store given h p }
    ensures eligible { (given : Given) (h : List Event) (ticket p : ℕ) → IsLegal given
        (Stale ticket ∷ h)
        → eligible_offsets given (Stale ticket ∷ h) p ≡ eligible_offsets given h p }
    ensures next { (given : Given) (h : List Event) (ticket : ℕ) → IsLegal given (Stale ticket ∷ h)
        → next_record given (Stale ticket ∷ h) ≡ next_record given h }
{}

/// The positions of a part's commits never go down, and no assignment begins below one of them.
pub fn positions_rise()
    ensures { (given : Given) (h : List Event) → given.is_told ≡ true → IsLegal given h →
        PositionsRise h }
{}

/// What may be stored for a part changes only while it is held, or by its assignment.
pub fn stored_changes_while_held()
    ensures { (given : Given) (event : Event) (h : List Event) (p : ℕ) → IsLegal given (event ∷ h)
        → is_held h p ≡ false → is_assign_of event p ≡ false
        → may_store given (event ∷ h) p ≡ may_store given h p }
{}

/// Within an epoch a part's position never falls.
pub fn position_never_falls()
    ensures { (given : Given) (event : Event) (h : List Event) (p : ℕ) → IsLegal given h
        → moves event p ≡ false → position_of given h p ≤ position_of given (event ∷ h) p }
{}

/// After Done every commit that may be stored for a held part passes over every record of its log.
pub fn done_is_stored()
    ensures { (given : Given) (h : List Event) (p : ℕ) (c : Commit) (r : Record)
        → IsLegal given (Done ∷ h) → is_held h p ≡ true → In c (may_store given h p)
        → In r (records_of given p) → passes c r.offset ≡ true }
{}

/// A held part with a record left goes on, unless the run drains before all of its records were
/// polled.
pub fn never_stalls()
    ensures { (given : Given) (h : List Event) (p : ℕ) → IsLegal given h → is_held h p ≡ true
        → (is_draining h ≡ false) ⊎ (unpolled_records given h p ≡ [])
        → HasWork given h p → GoesOn given h p }
{}

/// No success is of an epoch that its part has not reached.
pub fn no_epoch_succeeds_early()
    ensures { (given : Given) (h : List Event) → IsLegal given h → (p e o : ℕ) → epoch_of h p < e →
        has_succeeded h p e o ≡ false }
{}

/// What succeeded in the present epoch of a held part is a record of it that was polled.
pub fn successes_were_polled()
    ensures { (given : Given) (h : List Event) → IsLegal given h → (p o : ℕ) → is_held h p ≡ true
        → has_succeeded h p (epoch_of h p) o ≡ true
        → (r : Record) × In r (polled_records given h p) × (r.offset ≡ o) }
{}

/// No failure is of a record that is still to be polled, nor of an epoch that has just begun.
pub fn unpolled_never_failed()
    ensures unpolled { (given : Given) (h : List Event) → IsLegal given h → (p : ℕ) →
        is_held h p ≡ true → (r : Record) → In r (unpolled_records given h p)
        → IsUnfailed h p (epoch_of h p) r.offset }
    ensures begun { (given : Given) (event : Event) (h : List Event) → IsLegal given h → (p o : ℕ)
        → moves event p ≡ true → IsUnfailed (event ∷ h) p (epoch_of (event ∷ h) p) o }
{}

/// Of the key of a current job that is out, each polled record before the job's is complete.
pub fn first_of_its_key()
    ensures { (given : Given) (h : List Event) → IsLegal given h → (j : Job) → In j (open_jobs h)
        → is_current h j ≡ true → IsFirstOfItsKey given h j }
{}

/// The key of a record that is incomplete and the first of its key is busy exactly where a job of
/// the present epoch is out at that very record.
pub fn busy_by_its_own_job()
    ensures { (given : Given) (h : List Event) → IsLegal given h → (p : ℕ) (r : Record)
        → is_held h p ≡ true → In r (polled_records given h p)
        → is_complete h p r.offset ≡ false → is_first given h p r ≡ true
        → is_busy given h (ordering_key given.setup.settings.order p r)
        ≡ list_any (λ j. is_job_at (Some j) p (epoch_of h p) r.offset) (open_jobs h) }
{}

//! Laws of what a call of the program promises. Each function does nothing; its clause is the law.

ghost use Rattle.std.specs.Prelude.{◌≡◌, ◌⊎◌, ◌+◌, ◌≤◌, ◌^◌, ◌-◌, ℕ, Bool, List, Ok, length, true};
ghost use Rattle.pc_model.specs.declared.event.Event.{Event};
ghost use Rattle.pc_model.specs.declared.limits.TheConstants.{MAX_METADATA_BYTES};
ghost use Rattle.pc_model.specs.declared.commit.Commit.{Commit as StoredCommit};
ghost use Rattle.pc_model.specs.Broker.{Broker};
ghost use Rattle.pc_model.specs.Given.{Given, no_commit};
ghost use Rattle.pc_offset_client.specs.Client.{kept_for, with_commit};
ghost use Rattle.pc_script.specs.declared.play.PlayLine.{PlayLine};
ghost use Rattle.pc_inputs.specs.declared.status.Status.{Status};
ghost use Rattle.pc_inputs.specs.declared.status.Status.TheVariants.{NoMemory};
ghost use Rattle.pc_inputs.specs.Command.{command_of};
ghost use Rattle.pc_play.specs.Play.{Entry, Moment, Play, Trace};
ghost use Rattle.parcon.specs.Promise.{FilesSeen, IsCall, Outside};
ghost use Rattle.parcon.specs.Told.{AreTold, EndsAlike, IsFaultless, IsToldCall, Serves, failure_count, fetched_from, store_with, stored_by};

/// Over files and a link that tell what they hold, and where no count of faults rose, a call that
/// does not run out of memory ends as its words, the files' contents and the store decide: with the
/// status, the journal, the output and the store of the play that they make.
pub fn a_play_is_complete()
    ensures { (words : List (List ℕ)) (files files' : FilesSeen) (before after : Outside)
        (status : Status) (history : List Event)
        → IsCall words files files' before after status history
        → AreTold (command_of words) files.contents → before.is_told ≡ true
        → IsFaultless files files' before after
        → (status ≡ NoMemory) ⊎ IsToldCall words files before after status history }
{}

/// A broker that has the client's topic with the part, and whose group of the client has no
/// generation, refuses nothing that such a call asks for the part.
pub fn a_good_broker_refuses_nothing()
    ensures fetch { (b : Broker) (p : ℕ) → Serves b p → fetched_from b p ≡ Ok (kept_for b p) }
    ensures commit { (b : Broker) (p : ℕ) (c : StoredCommit) → Serves b p
        → length c.map ≤ MAX_METADATA_BYTES
        → (stored_by b p c ≡ Ok no_commit) × (store_with b p c ≡ with_commit b p c) }
{}

/// Two such calls with the same inputs end in the same way, unless one of them runs out of memory.
pub fn a_play_is_determined()
    ensures { (words : List (List ℕ)) (files files' files2 files2' : FilesSeen)
        (before after before2 after2 : Outside) (status status2 : Status)
        (history history2 : List Event)
        → IsCall words files files' before after status history
        → IsCall words files2 files2' before2 after2 status2 history2
        → AreTold (command_of words) files.contents → files.contents ≡ files2.contents
        → before.is_told ≡ true → before2.is_told ≡ true → before.store ≡ before2.store
        → before.written ≡ before2.written → IsFaultless files files' before after
        → IsFaultless files2 files2' before2 after2
        → (status ≡ NoMemory) ⊎ (status2 ≡ NoMemory)
        ⊎ EndsAlike after after2 status status2 history history2 }
{}

/// At most as many lines' calls were answered that the link failed as its count of faults rose,
/// unless that count stands where it stops.
pub fn link_failures_are_counted()
    ensures { (told : Bool) (given : Given) (s t : Play) (m n : Moment) (lines : List PlayLine)
        (entries : List Entry) → Trace told given s m lines entries t n
        → (failure_count given s lines entries + m.faults ≤ n.faults)
        ⊎ (2 ^ 64 - 1 ≤ n.faults) }
{}

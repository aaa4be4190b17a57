//! The laws of these texts, as functions that do nothing: each event has one line and each history
//! one text, which is read as it, and a summary goes by little of a history.

ghost use Rattle.std.specs.Prelude.{◌≡◌, ℕ, true, List, Option, Some, Ok, Err};
ghost use Rattle.pc_lines.specs.Pieces.{lines_of};
ghost use Rattle.pc_model.specs.declared.event.Event.{Event};
ghost use Rattle.pc_model.specs.declared.setup.Setup.{Setup};
ghost use Rattle.pc_model.specs.Epochs.{is_held};
ghost use Rattle.pc_model.specs.Record.{Record};
ghost use Rattle.pc_print.specs.Line.{AreEvents, IsEnded, IsEvent, IsFirstBad, bare_line_of, text_of};
ghost use Rattle.pc_print.specs.Reading.{event_of, history_of};
ghost use Rattle.pc_print.specs.Summary.{first_assigned, held_among, summary_of};

/// The line of an event is read as the event, and no other line is.
pub fn one_line_for_each_event()
    ensures again { (event : Event) → IsEvent event → event_of (bare_line_of event) ≡ Some event }
    ensures only { (line : List ℕ) (event : Event)
        → event_of line ≡ Some event → (bare_line_of event ≡ line) × IsEvent event }
{}

/// The text of a history is read as the history, and no other text is, but for the last line feed,
/// which may be missing.
pub fn one_text_for_each_history()
    ensures again { (history : List Event)
        → AreEvents history → history_of (text_of history) ≡ Ok history }
    ensures only { (text : List ℕ) (history : List Event)
        → history_of text ≡ Ok history → IsEnded text (text_of history) × AreEvents history }
{}

/// A text without a history has a first line that is no event's, and its number is named.
pub fn one_fault_for_each_other_text()
    ensures { (text : List ℕ) (n : ℕ) → history_of text ≡ Err n → IsFirstBad (lines_of text) n }
{}

/// The summary goes by the parts that are held and the first assignment of each, and by nothing
/// else in a history.
pub fn one_summary_for_each_start()
    ensures { (setup : Setup) (logs : List (Option (List Record))) (h k : List Event)
        → held_among logs h ≡ held_among logs k
        → ((p : ℕ) → is_held h p ≡ true → first_assigned h p ≡ first_assigned k p)
        → summary_of setup logs h ≡ summary_of setup logs k }
{}

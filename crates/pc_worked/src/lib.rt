//! Worked histories as evidence that the definitions say what is meant: the orders of processing, a
//! second delay, a record that is given up, a start with a map, a revocation and a close, and what a
//! run asks at three places of each question.
//!
//! Each function does nothing; its clauses are the facts, and all of them compute.
#![tactic(auto)]

ghost use Rattle.std.specs.Prelude.{◌≡◌, true, false, reverse, None, Some};
ghost use Rattle.pc_model.specs.Lawful.{IsLegal};
ghost use Rattle.pc_model.specs.Rows.{plain_setup, row_given, are_refused, row_record};
ghost use Rattle.pc_model.specs.Run.{poll_number, is_commit_due, is_unsaved, is_given_up, is_at_rest, next_time};
ghost use Rattle.pc_worked.specs.Histories.{by_key, key_order, key_neighbours, by_part, part_order, part_neighbours, by_record, record_order, record_neighbours, delays_setup, second_delay, delay_neighbours, started, start_with_a_map, start_neighbours, revocation, revocation_neighbours};
ghost use Rattle.pc_worked.specs.Questions.{at, first_record, second_record, small_setup, small_steps, spent_setup, spent_steps};

/// Records of one key run one after the other. No key is another key than the empty one.
pub fn order_by_key()
    ensures legal { IsLegal by_key (reverse key_order) }
    ensures neighbours { are_refused by_key key_neighbours ≡ true }
{}

/// The records of a part run one after the other, and two parts take turns.
pub fn order_by_part()
    ensures legal { IsLegal by_part (reverse part_order) }
    ensures neighbours { are_refused by_part part_neighbours ≡ true }
{}

/// Without an order parts take turns, from part 0 on.
pub fn no_order()
    ensures legal { IsLegal by_record (reverse record_order) }
    ensures neighbours { are_refused by_record record_neighbours ≡ true }
{}

/// A second failure has the second delay, a third one the last, and then the record is given up.
pub fn second_delay_and_give_up()
    ensures legal { IsLegal (row_given delays_setup) (reverse second_delay) }
    ensures neighbours { are_refused (row_given delays_setup) delay_neighbours ≡ true }
{}

/// What the map of a start passes over does not run.
pub fn start_with_a_map()
    ensures legal { IsLegal started (reverse start_with_a_map) }
    ensures neighbours { are_refused started start_neighbours ≡ true }
{}

/// A part is given back after its commit, a result comes too late, and nothing follows a close.
pub fn revocation_and_close()
    ensures legal { IsLegal (row_given plain_setup) (reverse revocation) }
    ensures neighbours { are_refused (row_given plain_setup) revocation_neighbours ≡ true }
{}

/// How many records to poll: as the buffer has room, and none where it has not, or no record is left.
pub fn polls_that_are_open()
    ensures begun { poll_number (row_given small_setup) (at small_steps 1) 0 ≡ Some 2 }
    ensures full { poll_number (row_given small_setup) (at small_steps 2) 0 ≡ None }
    ensures room { poll_number (row_given small_setup) (at small_steps 4) 0 ≡ Some 1 }
    ensures whole { poll_number (row_given small_setup) (at small_steps 6) 0 ≡ None }
{}

/// A commit is due after a success, and no longer once it came; so long the part is unsaved.
pub fn commits_that_are_due()
    ensures out { is_commit_due (row_given small_setup) (at small_steps 3) 0 ≡ false }
    ensures succeeded { is_commit_due (row_given small_setup) (at small_steps 4) 0 ≡ true }
    ensures committed { is_commit_due (row_given small_setup) (at small_steps 5) 0 ≡ false }
    ensures begun { is_unsaved (row_given small_setup) (at small_steps 1) 0 ≡ false }
    ensures unsaved { is_unsaved (row_given small_setup) (at small_steps 4) 0 ≡ true }
    ensures saved { is_unsaved (row_given small_setup) (at small_steps 5) 0 ≡ false }
{}

/// A record is given up once it failed as often as it may, and with it those after it of its key; then
/// the run is at rest.
pub fn records_that_are_given_up()
    ensures polled { is_given_up (row_given spent_setup) (at spent_steps 2) 0 second_record ≡ false }
    ensures failed { is_given_up (row_given spent_setup) (at spent_steps 4) 0 first_record ≡ false }
    ensures spent { is_given_up (row_given spent_setup) (at spent_steps 7) 0 first_record ≡ true }
    ensures behind { is_given_up (row_given spent_setup) (at spent_steps 7) 0 second_record ≡ true }
    ensures begun { is_at_rest (row_given spent_setup) (at spent_steps 1) ≡ false }
    ensures out { is_at_rest (row_given spent_setup) (at spent_steps 6) ≡ false }
    ensures rests { is_at_rest (row_given spent_setup) (at spent_steps 7) ≡ true }
{}

/// The next time is the ready time of a record that waits and has attempts left.
pub fn times_to_wait_for()
    ensures polled { next_time (row_given spent_setup) (at spent_steps 2) ≡ None }
    ensures failed { next_time (row_given spent_setup) (at spent_steps 4) ≡ Some 100 }
    ensures come { next_time (row_given spent_setup) (at spent_steps 5) ≡ None }
    ensures spent { next_time (row_given spent_setup) (at spent_steps 7) ≡ None }
{}

//! Worked histories as evidence that the definitions say what is meant. Each function does nothing;
//! its clause is the fact.
ghost use Rattle.std.specs.Prelude.{◌≡◌, true, reverse};
ghost use Rattle.pc_model.specs.Lawful.{IsLegal};
ghost use Rattle.pc_model.specs.Bound.{bound_of, event_bound};
ghost use Rattle.pc_model.specs.RunRows.{failing_setup, two_parts, is_run, crash_steps, run_with_a_crash, assign_step, undrained_run, two_parts_steps, run_cut_short, revoke_steps, run_with_a_revocation, are_strays, crash_strays, failing_strays, cut_strays, revoke_strays, long_run_loads};
ghost use Rattle.pc_model.specs.Rows.{plain_setup, retry_setup, pressed_setup, row_given, first_path, crash_and_resume, retry, stale_result, pressure, drain_and_close, failed_commit, failed_commit_applied, neighbours, retry_neighbours, pressed_neighbours, are_refused};

/// Polls, dispatches, a success and a commit with its map are legal.
pub fn first_path_is_legal()
    ensures { IsLegal (row_given plain_setup) (reverse first_path) }
{}

/// So are a crash and an assignment from what was stored.
pub fn crash_and_resume_is_legal()
    ensures { IsLegal (row_given plain_setup) (reverse crash_and_resume) }
{}

/// So is a second attempt once its time has come.
pub fn retry_is_legal()
    ensures { IsLegal (row_given retry_setup) (reverse retry) }
{}

/// So is a result of an epoch that is over.
pub fn stale_result_is_legal()
    ensures { IsLegal (row_given plain_setup) (reverse stale_result) }
{}

/// So are a commit whose map blocks the part, and one that frees it.
pub fn pressure_is_legal()
    ensures { IsLegal (row_given pressed_setup) (reverse pressure) }
{}

/// So are a drain, a commit and the end.
pub fn drain_and_close_is_legal()
    ensures { IsLegal (row_given plain_setup) (reverse drain_and_close) }
{}

/// After a failed commit an assignment may get what was stored before it, or that commit.
pub fn failed_commit_is_legal()
    ensures before { IsLegal (row_given plain_setup) (reverse failed_commit) }
    ensures applied { IsLegal (row_given plain_setup) (reverse failed_commit_applied) }
{}

/// No neighbour of these histories is legal.
pub fn neighbours_are_refused()
    ensures plain { are_refused (row_given plain_setup) neighbours ≡ true }
    ensures retry { are_refused (row_given retry_setup) retry_neighbours ≡ true }
    ensures pressed { are_refused (row_given pressed_setup) pressed_neighbours ≡ true }
{}

/// A run with a crash, one that ends with a record given up, one whose last step is cut short, and
/// one with a revocation are legal, follow their steps, and keep to the pace.
pub fn runs_keep_to_their_steps()
    ensures crash { is_run (row_given plain_setup) crash_steps (reverse run_with_a_crash) ≡ true }
    ensures undrained { is_run (row_given failing_setup) assign_step (reverse undrained_run)
        ≡ true }
    ensures cut { is_run two_parts two_parts_steps (reverse run_cut_short) ≡ true }
    ensures revocation { is_run (row_given plain_setup) revoke_steps
        (reverse run_with_a_revocation) ≡ true }
{}

/// Their neighbours are legal, and none of them keeps to the steps and the pace.
pub fn neighbours_of_runs_are_strays()
    ensures crash { are_strays (row_given plain_setup) crash_steps crash_strays ≡ true }
    ensures undrained { are_strays (row_given failing_setup) assign_step failing_strays ≡ true }
    ensures cut { are_strays two_parts two_parts_steps cut_strays ≡ true }
    ensures revocation { are_strays (row_given plain_setup) revoke_steps revoke_strays ≡ true }
{}

/// The bound of a run of 12 parts and 100,000 records, and that of the run with a record given up.
pub fn bounds_are_computed()
    ensures long { bound_of long_run_loads 17 ≡ 882905 }
    ensures undrained { event_bound (row_given failing_setup) assign_step ≡ 27 }
{}

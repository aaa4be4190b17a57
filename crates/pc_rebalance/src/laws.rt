//! When a step may begin, and its act may be done, as functions that do nothing.

ghost use Rattle.std.specs.Prelude.{◌≡◌, ◌<◌, ℕ, List, [], Some, true, false, length};
ghost use Rattle.pc_model.specs.declared.event.Event.{Event};
ghost use Rattle.pc_model.specs.declared.step.Step.{Step};
ghost use Rattle.pc_model.specs.Given.{Given, has_log};
ghost use Rattle.pc_model.specs.Jobs.{has_ended};
ghost use Rattle.pc_model.specs.Steps.{is_step_due, may_begin, next_step, place_of};
ghost use Rattle.pc_run_laws.specs.Run.{IsRun};
ghost use Rattle.pc_script.specs.Steps.{AreAllowed};
ghost use Rattle.pc_rebalance.specs.Refusal.{MayDo};

/// The next step may begin once it is due, where no block is left unfinished.
pub fn the_next_step_may_begin()
    ensures { (given : Given) (steps : List Step) (step : Step) (h : List Event)
        → (place_of given h).left ≡ [] → next_step given steps h ≡ Some step
        → is_step_due given step h ≡ true → may_begin given steps h step.act ≡ true }
{}

/// In a run by the steps of a script over logs of all its parts, the act of the next step may be
/// done, where no block is left unfinished and the run has not ended.
pub fn the_next_act_may_be_done()
    ensures { (given : Given) (steps : List Step) (step : Step) (h : List Event)
        → IsRun given steps h → has_ended h ≡ false → AreAllowed (length given.logs) [] steps
        → ((p : ℕ) → p < length given.logs → has_log given p ≡ true)
        → (place_of given h).left ≡ [] → next_step given steps h ≡ Some step
        → MayDo given h step.act }
{}

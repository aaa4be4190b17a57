//! The laws of scripts, as functions that do nothing: the numbers that every script keeps to.

ghost use Rattle.std.specs.Prelude.{◌≡◌, ℕ, List, [], Ok};
ghost use Rattle.pc_script.specs.PlayScript.{ArePlayable, script_of};
ghost use Rattle.pc_script.specs.Steps.{AreAllowed, AreSteps, steps_of};
ghost use Rattle.pc_script.specs.declared.play.PlayLine.{PlayLine};
ghost use Rattle.pc_model.specs.declared.step.Step.{Step};

/// What a play script asks for is in the ranges of its calls.
pub fn every_act_is_playable()
    ensures { (text : List ℕ) (script : List PlayLine)
        → script_of text ≡ Ok script → ArePlayable script }
{}

/// The counts and parts of a rebalance script are in their ranges.
pub fn every_step_is_in_range()
    ensures { (text : List ℕ) (parts : ℕ) (steps : List Step)
        → steps_of text parts ≡ Ok steps → AreSteps steps }
{}

/// Each step of a rebalance script is of a part that has a log, and that the steps before it leave
/// held, or not, as it has to be.
pub fn every_step_is_allowed()
    ensures { (text : List ℕ) (parts : ℕ) (steps : List Step)
        → steps_of text parts ≡ Ok steps → AreAllowed parts [] steps }
{}

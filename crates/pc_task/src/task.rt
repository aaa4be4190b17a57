//! The function that is run on a record.

ghost use Rattle.std.specs.Prelude.{◌≡◌, IfOk, option_map};
ghost use Rattle.std.specs.Borrow.{Bor};
ghost use Rattle.pc_model.specs.Outcomes.{fail_rule_of};
ghost use Rattle.pc_model.specs.declared.outcome.FailRule.{FailRule};

use crate::answer::answer_of;
use crate::job::Job;
use pc_model::{FailRule, Outcome};
use std::alloc::{AllocError, Global};

/// The code of a failure that the rules ask for.
const RULE_CODE: u32 = 1;

/// A function that is run on records. What comes of an attempt goes by the rules, the part, the
/// record and the number of the attempt, and by nothing else.
pub trait Task {
    ghost use Rattle.std.specs.Prelude.{◌≡◌, ℕ, Bool, true, IfOk, IsTrue};
    ghost use Rattle.pc_model.specs.declared.outcome.Outcome.{Outcome};
    ghost use Rattle.pc_model.specs.declared.outcome.Rules.{Rules};
    ghost use Rattle.pc_model.specs.Record.{Record};
    ghost use Rattle.pc_task.specs.Jobs.{due_outcome, plain_job};

    /// The outcome of an attempt, counted from 1, at a record of a part.
    ghost outcome: { Self → Rules → ℕ → Record → ℕ → Outcome };

    /// Whether two functions count as the same.
    ghost same: { Self → Self → Bool };

    /// Runs the function on the job's record. The only error is out of memory.
    fn call(&self, alloc: Global, job: &Job<'_, Self>) -> Result<Outcome, AllocError>
        ensures { IfOk result (λ it. it ≡ due_outcome (outcome self.now) (plain_job job.now)) };

    /// Whether both functions count as the same. Each does so with itself, and two that have not the
    /// same outcomes never do.
    fn is_same(&self, other: &Self) -> bool
        ensures same { result ≡ same self.now other.now }
        ensures itself { self.now ≡ other.now → IsTrue result }
        ensures outcomes { IsTrue result → outcome self.now ≡ outcome other.now };
}

/// The functions of the program, which do what the rules say.
#[derive(Clone, Copy, Debug, Drop)]
pub struct RuleTask;

impl Task for RuleTask {
    ghost use Rattle.std.specs.Prelude.{true};
    ghost use Rattle.pc_model.specs.Outcomes.{outcome_of};

    ghost outcome = { λ _. outcome_of };

    ghost same = { λ _ _. true };

    fn call(&self, alloc: Global, job: &Job<'_, RuleTask>) -> Result<Outcome, AllocError> {
        match fail_rule(job.rules.fails.as_slice(), job.part, job.entry.offset) {
            Some(rule) if job.attempt <= rule.times => Ok(Outcome::Bad(RULE_CODE)),
            _ => Ok(Outcome::Good(answer_of(alloc, job.rules.work, job.entry.value)?)),
        }
    }

    fn is_same(&self, _other: &RuleTask) -> bool {
        true
    }
}

/// The first rule for the part's record at the offset.
fn fail_rule(fails: &[FailRule], part: u32, offset: u64) -> Option<&FailRule>
    ensures { option_map (λ (rule : Bor FailRule). rule.now) result
        ≡ fail_rule_of fails.now part offset }
{
    fails
        .iter()
        .find(|rule| rule.part == part && rule.offset == offset)
}

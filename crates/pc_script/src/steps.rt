//! Rebalance scripts as a whole; clauses see one as the list of its steps.

ghost use Rattle.std.specs.Prelude.{◌≡◌, ◌≤◌, [], length, slice_get, IfSome};
ghost use Rattle.std.specs.Option.{option_copied};
ghost use Rattle.pc_lines.specs.Pieces.{lines_of};
ghost use Rattle.pc_script.specs.Arguments.{Reads};
ghost use Rattle.pc_script.specs.Steps.{steps_of, steps_behind, or_bad_step};

use crate::argument::{check_size, is_skipped};
use crate::fault::ScriptReadFault;
use crate::held::Held;
use pc_lines::lines;
use pc_model::Step;
use pc_model::limits::MAX_SCRIPT_LINES;
use std::alloc::Global;
use std::marker::Model;

/// A rebalance script that was read.
#[derive(Debug, Drop)]
pub struct Steps {
    steps: Vec<Step>,
}

impl Model for Steps {
    ghost use Rattle.std.specs.Prelude.{List};
    ghost use Rattle.pc_script.specs.Steps.{AreSteps};
    ghost use Rattle.pc_model.specs.declared.step.Step.{Step};

    ghost Value = { List Step };

    ghost view = { λ s. s.steps.items };

    ghost invariant = { λ s. AreSteps s.steps.items };
}

impl Steps {
    ghost use Rattle.pc_script.specs.Steps.{IsStep};

    /// How many steps there are. Takes no memory.
    pub fn len(&self) -> u64
        ensures { result ≡ length self.now }
    {
        self.steps.len() as u64
    }

    /// The step at a place, counted from 0. Takes no memory.
    pub fn get(&self, i: u64) -> Option<&Step>
        ensures step { option_copied result ≡ slice_get self.now i }
        ensures in_range { IfSome result (λ step. IsStep step.now) }
    {
        self.steps.get(i as usize)
    }
}

/// The steps of a text, over the logs of the parts below `parts`.
#[tactic(auto, unfolding(crate::specs::Steps::steps_of))]
pub fn read_steps(alloc: Global, bytes: &[u8], parts: u32) -> Result<Steps, ScriptReadFault>
    ensures { Reads (λ steps. steps) result (steps_of bytes.now parts) }
{
    check_size(bytes)?;
    let steps = read_lines(alloc, bytes, parts)?;
    Ok(Steps { steps })
}

fn read_lines(alloc: Global, bytes: &[u8], parts: u32) -> Result<Vec<Step>, ScriptReadFault>
    requires { length (lines_of bytes.now) ≤ MAX_SCRIPT_LINES }
    ensures { let read = steps_behind parts [] 1 (lines_of bytes.now) in
        Reads (λ steps. steps.items) result (or_bad_step read) }
{
    let mut steps = Vec::new(alloc);
    let mut held = Held::none(parts);
    let mut number = 0u64;
    for line in lines(bytes) {
        number += 1;
        if is_skipped(line) {
            continue;
        }
        let step = held.step(number, line)?;
        steps.push(step)?;
        held.take(step.act);
    }
    Ok(steps)
}

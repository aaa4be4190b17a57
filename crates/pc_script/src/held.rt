//! Which parts the steps so far leave held; clauses see the flags, one for each part below 1,024.

ghost use Rattle.std.specs.Prelude.{◌≡◌, ℕ, ◌<◌, List, [], false, slice_index_or, if◌then◌else◌, nat_lt, Ok, Err, IfOk};
ghost use Rattle.pc_script.specs.Steps.{allowed_of, held_after, step_at, step_of, IsAct, IsStep, Mirrors};
ghost use Rattle.pc_model.specs.declared.step.Step.{Step};

use crate::fault::{ScriptFault, ScriptKind};
use crate::step::written_step;
use pc_model::limits::MAX_PARTS;
use pc_model::{Act, Step};

/// One more than the greatest part that a script may name.
const PARTS: usize = MAX_PARTS as usize;

/// The parts that are held.
#[derive(Debug, Drop)]
pub(crate) struct Held {
    /// Parts from this number on have no log.
    parts: u32,
    flags: [bool; PARTS],
}

impl Held {
    /// No part is held.
    pub(crate) fn none(parts: u32) -> Held
        ensures parts { result.parts ≡ parts }
        ensures none { Mirrors result.flags [] }
    {
        Held {
            parts,
            flags: [false; PARTS],
        }
    }

    /// The step of a line, or its fault after the steps before.
    pub(crate) fn step(&self, number: u64, line: &[u8]) -> Result<Step, ScriptFault>
        ensures read { (before : List Step) → Mirrors self.now.flags before
            → result ≡ step_at number (step_of self.now.parts before line.now) }
        ensures in_range { IfOk result IsStep }
    {
        let fault = |kind| ScriptFault { line: number, kind };
        let step = written_step(line).map_err(fault)?;
        self.allowed(step.act).map_err(fault)?;
        Ok(step)
    }

    /// Takes an act over.
    pub(crate) fn take(&mut self, act: Act)
        requires { IsAct act }
        ensures parts { self.new.parts ≡ self.old.parts }
        ensures flags { (p : ℕ) → p < MAX_PARTS
            → slice_index_or self.new.flags p false
            ≡ held_after p (slice_index_or self.old.flags p false) act }
    {
        match act {
            Act::Assign(part) => self.flags[part as usize] = true,
            Act::Revoke(part) | Act::Lose(part) => self.flags[part as usize] = false,
            Act::Crash => {}
        }
    }

    fn allowed(&self, act: Act) -> Result<(), ScriptKind>
        requires { IsAct act }
        ensures { (before : List Step) → Mirrors self.now.flags before
            → result ≡ allowed_of self.now.parts before act }
    {
        match act {
            Act::Assign(part) => {
                if self.is_held(part)? {
                    Err(ScriptKind::AlreadyHeld)
                } else {
                    Ok(())
                }
            }
            Act::Revoke(part) | Act::Lose(part) => {
                if self.is_held(part)? {
                    Ok(())
                } else {
                    Err(ScriptKind::NotHeld)
                }
            }
            Act::Crash => Ok(()),
        }
    }

    fn is_held(&self, part: u32) -> Result<bool, ScriptKind>
        requires { part < MAX_PARTS }
        ensures { result ≡ (if nat_lt part self.now.parts
            then Ok (slice_index_or self.now.flags part false) else Err ScriptKind.UnknownPart) }
    {
        if part < self.parts {
            Ok(self.flags[part as usize])
        } else {
            Err(ScriptKind::UnknownPart)
        }
    }
}

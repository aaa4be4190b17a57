//! Play scripts as a whole; clauses see one as the list of its lines that ask for something.

ghost use Rattle.std.specs.Prelude.{◌≡◌, ◌≤◌, [], length, slice_get, IfSome};
ghost use Rattle.std.specs.Option.{option_copied};
ghost use Rattle.pc_lines.specs.Pieces.{lines_of};
ghost use Rattle.pc_script.specs.Arguments.{Reads};
ghost use Rattle.pc_script.specs.PlayScript.{script_of, play_line_of, play_lines, or_bad_line};

use crate::argument::{check_size, is_skipped};
use crate::fault::{ScriptFault, ScriptReadFault};
use crate::play::{PlayLine, play_act};
use pc_lines::lines;
use pc_model::limits::MAX_SCRIPT_LINES;
use std::alloc::Global;
use std::marker::Model;

/// A play script that was read.
#[derive(Debug, Drop)]
pub struct PlayScript {
    lines: Vec<PlayLine>,
}

impl Model for PlayScript {
    ghost use Rattle.std.specs.Prelude.{List};
    ghost use Rattle.pc_script.specs.PlayScript.{ArePlayable};
    ghost use Rattle.pc_script.specs.declared.play.PlayLine.{PlayLine};

    ghost Value = { List PlayLine };

    ghost view = { λ s. s.lines.items };

    ghost invariant = { λ s. ArePlayable s.lines.items };
}

impl PlayScript {
    ghost use Rattle.pc_script.specs.PlayScript.{ArePlayable, IsPlayable};

    /// How many lines ask for something. Takes no memory.
    pub fn len(&self) -> u64
        ensures { result ≡ length self.now }
    {
        self.lines.len() as u64
    }

    /// The line at a place, counted from 0. Takes no memory.
    pub fn get(&self, i: u64) -> Option<&PlayLine>
        ensures line { option_copied result ≡ slice_get self.now i }
        ensures playable { IfSome result (λ line. IsPlayable line.now.act) }
    {
        self.lines.get(i as usize)
    }

    /// All lines that ask for something, in order.
    pub fn as_slice(&self) -> &[PlayLine]
        ensures lines { result.now ≡ self.now }
        ensures playable { ArePlayable result.now }
    {
        self.lines.as_slice()
    }
}

/// The play script of a text.
#[tactic(auto, unfolding(crate::specs::PlayScript::script_of))]
pub fn read_play(alloc: Global, bytes: &[u8]) -> Result<PlayScript, ScriptReadFault>
    ensures { Reads (λ script. script) result (script_of bytes.now) }
{
    check_size(bytes)?;
    let lines = read_lines(alloc, bytes)?;
    Ok(PlayScript { lines })
}

fn read_lines(alloc: Global, bytes: &[u8]) -> Result<Vec<PlayLine>, ScriptReadFault>
    requires { length (lines_of bytes.now) ≤ MAX_SCRIPT_LINES }
    ensures { let read = play_lines [] 1 (lines_of bytes.now) in
        Reads (λ script. script.items) result (or_bad_line read) }
{
    let mut script = Vec::new(alloc);
    let mut number = 0u64;
    for line in lines(bytes) {
        number += 1;
        if is_skipped(line) {
            continue;
        }
        script.push(play_line(number, line)?)?;
    }
    Ok(script)
}

fn play_line(number: u64, line: &[u8]) -> Result<PlayLine, ScriptFault>
    ensures { result ≡ play_line_of number line.now }
{
    match play_act(line) {
        Ok(act) => Ok(PlayLine { line: number, act }),
        Err(kind) => Err(ScriptFault { line: number, kind }),
    }
}

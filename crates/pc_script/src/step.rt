//! What a line of a rebalance script does, and when.

ghost use Rattle.std.specs.Prelude.{◌≡◌, IfOk, Some};
ghost use Rattle.pc_lines.specs.Pieces.{words_of};
ghost use Rattle.pc_script.specs.Steps.{count_and_part_of, crash_step, step_asked_of, step_behind_at, written_step_of, IsStep};

use crate::argument::{argument, no_word, one_word, part};
use crate::fault::ScriptKind;
use crate::step_word::{StepWord, step_word};
use pc_lines::{Words, words};
use pc_model::limits::MAX_EVENTS;
use pc_model::{Act, Step};

/// The step that a line writes, whatever parts there are.
#[tactic(auto, using(crate::proofs::StepsLemmas::behind_at_in_range))]
pub(crate) fn written_step(line: &[u8]) -> Result<Step, ScriptKind>
    ensures read { result ≡ written_step_of (words_of line.now) }
    ensures in_range { IfOk result IsStep }
{
    let mut words = words(line);
    let text = words.next().ok_or(ScriptKind::UnknownWord)?;
    if text == b"at".as_slice() {
        behind_at(words)
    } else {
        Err(ScriptKind::UnknownWord)
    }
}

#[tactic(auto, unfolding(crate::specs::Steps::step_asked_of))]
fn behind_at(mut words: Words<'_>) -> Result<Step, ScriptKind>
    ensures { result ≡ step_behind_at words.entry }
{
    let count = words.next().ok_or(ScriptKind::WordCount)?;
    let text = words.next().ok_or(ScriptKind::WordCount)?;
    let word = step_word(text).ok_or(ScriptKind::UnknownWord)?;
    asked(count, word, words)
}

#[tactic(auto, unfolding(crate::specs::Steps::step_asked_of))]
fn asked(count: &[u8], word: StepWord, arguments: Words<'_>) -> Result<Step, ScriptKind>
    ensures { result ≡ step_asked_of count.now (Some word) arguments.entry }
{
    match word {
        StepWord::Assign => {
            let (count, part) = count_and_part(count, arguments)?;
            Ok(Step {
                count,
                act: Act::Assign(part),
            })
        }
        StepWord::Revoke => {
            let (count, part) = count_and_part(count, arguments)?;
            Ok(Step {
                count,
                act: Act::Revoke(part),
            })
        }
        StepWord::Lose => {
            let (count, part) = count_and_part(count, arguments)?;
            Ok(Step {
                count,
                act: Act::Lose(part),
            })
        }
        StepWord::Crash => crash(count, arguments),
    }
}

fn count_and_part(count: &[u8], arguments: Words<'_>) -> Result<(u64, u32), ScriptKind>
    ensures { result ≡ count_and_part_of count.now arguments.entry }
{
    let text = one_word(arguments)?;
    Ok((argument(count, 0, MAX_EVENTS)?, part(text)?))
}

fn crash(count: &[u8], arguments: Words<'_>) -> Result<Step, ScriptKind>
    ensures { result ≡ crash_step count.now arguments.entry }
{
    no_word(arguments)?;
    let count = argument(count, 0, MAX_EVENTS)?;
    Ok(Step {
        count,
        act: Act::Crash,
    })
}

//! What a line of a play script asks for.

ghost use Rattle.std.specs.Prelude.{◌≡◌, Some};
ghost use Rattle.pc_lines.specs.Pieces.{words_of};
ghost use Rattle.pc_script.specs.PlayScript.{asked_of, of_none, play_act_of, poll_of};

use crate::argument::{argument, no_word, one_word, part, two_words};
use crate::fault::ScriptKind;
use crate::play_word::{PlayWord, play_word};
use pc_lines::{Words, words};
use pc_model::limits::{MAX_EVENTS, MAX_RECORDS, MAX_WORKERS};

const LAST_WORKER: u64 = MAX_WORKERS as u64 - 1;

const LAST_TIME: u64 = (1 << 63) - 1;

/// A call of the engine. Parts are below 1,024.
#[derive(Clone, Copy, Debug, PartialEq, Eq)]
pub enum PlayAct {
    /// Takes a part over.
    Assign(u32),
    /// Takes the next records of a part, at most `max`, which is from 1 to 1,000,000.
    Poll { part: u32, max: u32 },
    /// Takes a job for a worker below 256; the job stays in hand.
    Take(u32),
    /// Settles the job in hand with this ticket, from 1 to 4,000,000.
    End(u64),
    /// Sets the time, in milliseconds, at most 2^63 - 1.
    Tick(u64),
    /// Commits a part.
    Commit(u32),
    /// Gives a part back after a commit.
    Revoke(u32),
    /// Loses a part without a commit.
    Lose(u32),
    /// Forgets all but the journal, the jobs in hand and the link.
    Crash,
    /// Begins the drain.
    Drain,
    /// Finishes.
    Done,
    /// Closes.
    Close,
}

/// A line of a play script that asks for something.
#[derive(Clone, Copy, Debug, PartialEq, Eq)]
pub struct PlayLine {
    /// The line's number in the text, from 1 on.
    pub line: u64,
    pub act: PlayAct,
}

/// What a line of a play script asks for. A blank line asks for nothing known.
#[tactic(auto, unfolding(crate::specs::PlayScript::asked_of))]
pub(crate) fn play_act(line: &[u8]) -> Result<PlayAct, ScriptKind>
    ensures { result ≡ play_act_of (words_of line.now) }
{
    let mut words = words(line);
    let text = words.next().ok_or(ScriptKind::UnknownWord)?;
    let word = play_word(text).ok_or(ScriptKind::UnknownWord)?;
    asked(word, words)
}

#[tactic(auto, unfolding(crate::specs::PlayScript::asked_of))]
fn asked(word: PlayWord, arguments: Words<'_>) -> Result<PlayAct, ScriptKind>
    ensures { result ≡ asked_of (Some word) arguments.entry }
{
    match word {
        PlayWord::Assign => Ok(PlayAct::Assign(part(one_word(arguments)?)?)),
        PlayWord::Poll => poll(arguments),
        PlayWord::Take => Ok(PlayAct::Take(argument(one_word(arguments)?, 0, LAST_WORKER)? as u32)),
        PlayWord::End => Ok(PlayAct::End(argument(one_word(arguments)?, 1, MAX_EVENTS)?)),
        PlayWord::Tick => Ok(PlayAct::Tick(argument(one_word(arguments)?, 0, LAST_TIME)?)),
        PlayWord::Commit => Ok(PlayAct::Commit(part(one_word(arguments)?)?)),
        PlayWord::Revoke => Ok(PlayAct::Revoke(part(one_word(arguments)?)?)),
        PlayWord::Lose => Ok(PlayAct::Lose(part(one_word(arguments)?)?)),
        PlayWord::Crash => alone(PlayAct::Crash, arguments),
        PlayWord::Drain => alone(PlayAct::Drain, arguments),
        PlayWord::Done => alone(PlayAct::Done, arguments),
        PlayWord::Close => alone(PlayAct::Close, arguments),
    }
}

fn poll(arguments: Words<'_>) -> Result<PlayAct, ScriptKind>
    ensures { result ≡ poll_of arguments.entry }
{
    let (first, second) = two_words(arguments)?;
    let part = part(first)?;
    let max = argument(second, 1, MAX_RECORDS as u64)? as u32;
    Ok(PlayAct::Poll { part, max })
}

fn alone(act: PlayAct, arguments: Words<'_>) -> Result<PlayAct, ScriptKind>
    ensures { result ≡ of_none act arguments.entry }
{
    no_word(arguments)?;
    Ok(act)
}

//! The command that words make.

ghost use Rattle.std.specs.Prelude.{◌≡◌, ◌⊎◌, ◌≤◌, ◌<◌, ◌-◌, Err, IfOk, IfSome, length, map, option_map, ok_or, string_bytes, option_and_then, false};
ghost use Rattle.std.specs.List.{list_all};
ghost use Rattle.std.specs.Result.{result_map_both};
ghost use Rattle.pc_inputs.specs.Command.{are_command_files, are_files, bulk_in, bulk_numbers, bulk_of, command_files, command_of, is_config_name, is_file_count, is_hyphened, is_name, number_within, play_of, run_of, said_by};
ghost use Rattle.pc_inputs.specs.Words.{HasFewLogs, plain_bulk, plain_command, plain_files, plain_said};
ghost use Rattle.pc_inputs.specs.declared.status.Status.TheVariants.{NoMemory, Usage};

use crate::status::Status;
use crate::words::{Said, said_by};
use pc_lines::decimal;
use pc_model::limits::{MAX_PARTS, MAX_RECORDS, MAX_WORKERS};
use std::alloc::Global;

/// The most files that a command may name: 1,024 logs and a script.
const MAX_FILES: usize = MAX_PARTS as usize + 1;

/// What words ask for.
#[derive(Debug, Drop)]
pub(crate) enum Command<'a> {
    /// To play a script over logs.
    Play(CommandFiles<'a>),
    /// To run the steps of a script over logs.
    Run {
        files: CommandFiles<'a>,
        /// Whether only the summary is wanted.
        summary: bool,
    },
    /// To run over logs that are made.
    Bulk(BulkRun),
}

/// A run over logs that are made from a seed.
#[derive(Clone, Copy, Debug, PartialEq, Eq)]
pub struct BulkRun {
    pub seed: u64,
    /// How many records the logs have together, at most 1,000,000.
    pub records: u32,
    /// From 1 to 256.
    pub workers: u32,
}

/// The names of a command's files.
#[derive(Debug, Drop)]
pub(crate) struct CommandFiles<'a> {
    pub(crate) config: Option<&'a str>,
    /// The log at place k is that of part k.
    pub(crate) logs: Vec<&'a str>,
    pub(crate) script: &'a str,
}

/// The command that the words make: `play [--config FILE] LOG... SCRIPT` or
/// `run [--config FILE] [--summary] LOG... SCRIPT`, with 1 to 1,024 logs, or
/// `bulk SEED RECORDS WORKERS`. Fails with `Usage` if they make none, and with `NoMemory` when out
/// of memory.
pub(crate) fn command_of<'a>(alloc: Global, words: &'a [String]) -> Result<Command<'a>, Status>
    ensures command { (result ≡ Err NoMemory) ⊎ (result_map_both plain_command (λ s. s) result
        ≡ ok_or (command_of (map string_bytes words.now)) Usage) }
    ensures few { IfOk result HasFewLogs }
{
    match words.split_first() {
        Some((name, words)) if name.as_str() == "play" => play(alloc, words),
        Some((name, words)) if name.as_str() == "run" => run(alloc, words),
        Some((name, words)) if name.as_str() == "bulk" => bulk(alloc, words),
        _ => Err(Status::Usage),
    }
}

/// The run over logs that are made from a seed for which the words ask, which are
/// `bulk SEED RECORDS WORKERS`. Fails with `Usage` if they ask for another command or for none, and
/// with `NoMemory` when out of memory.
pub fn bulk_asked(alloc: Global, words: &[String]) -> Result<BulkRun, Status>
    ensures { (result ≡ Err NoMemory) ⊎ (result_map_both plain_bulk (λ s. s) result
        ≡ ok_or (bulk_in (command_of (map string_bytes words.now))) Usage) }
{
    let command = command_of(alloc, words)?;
    match command {
        Command::Bulk(run) => Ok(run),
        Command::Play(_) | Command::Run { .. } => Err(Status::Usage),
    }
}

/// The play that the words after `play` ask for.
fn play<'a>(alloc: Global, words: &'a [String]) -> Result<Command<'a>, Status>
    ensures command { (result ≡ Err NoMemory) ⊎ (result_map_both plain_command (λ s. s) result
        ≡ ok_or (option_and_then play_of (said_by false (map string_bytes words.now))) Usage) }
    ensures few { IfOk result HasFewLogs }
{
    let said = said_by(alloc, words)?;
    play_of(said)
}

/// The run that the words after `run` ask for.
fn run<'a>(alloc: Global, words: &'a [String]) -> Result<Command<'a>, Status>
    ensures command { (result ≡ Err NoMemory) ⊎ (result_map_both plain_command (λ s. s) result
        ≡ ok_or (option_and_then run_of (said_by false (map string_bytes words.now))) Usage) }
    ensures few { IfOk result HasFewLogs }
{
    let said = said_by(alloc, words)?;
    run_of(said)
}

/// The run that the words after `bulk` ask for.
fn bulk<'a>(alloc: Global, words: &'a [String]) -> Result<Command<'a>, Status>
    ensures command { (result ≡ Err NoMemory) ⊎ (result_map_both plain_command (λ s. s) result
        ≡ ok_or (option_and_then bulk_of (said_by false (map string_bytes words.now))) Usage) }
    ensures few { IfOk result HasFewLogs }
{
    let said = said_by(alloc, words)?;
    bulk_of(&said)
}

/// The play of these files, which has no summary.
fn play_of(said: Said<'_>) -> Result<Command<'_>, Status>
    ensures command { result_map_both plain_command (λ s. s) result
        ≡ ok_or (play_of (plain_said said.entry)) Usage }
    ensures few { IfOk result HasFewLogs }
{
    if are_command_files(&said) && !said.summary {
        Ok(Command::Play(command_files(said)))
    } else {
        Err(Status::Usage)
    }
}

/// The run of these files.
fn run_of(said: Said<'_>) -> Result<Command<'_>, Status>
    ensures command { result_map_both plain_command (λ s. s) result
        ≡ ok_or (run_of (plain_said said.entry)) Usage }
    ensures few { IfOk result HasFewLogs }
{
    if are_command_files(&said) {
        let summary = said.summary;
        Ok(Command::Run {
            files: command_files(said),
            summary,
        })
    } else {
        Err(Status::Usage)
    }
}

/// The run over logs that are made by these words.
fn bulk_of<'a>(said: &Said<'a>) -> Result<Command<'a>, Status>
    ensures command { result_map_both plain_command (λ s. s) result
        ≡ ok_or (bulk_of (plain_said said.now)) Usage }
    ensures few { IfOk result HasFewLogs }
{
    match bulk_run(said) {
        Some(run) => Ok(Command::Bulk(run)),
        None => Err(Status::Usage),
    }
}

/// The numbers of a run over logs that are made, which has no option.
fn bulk_run(said: &Said<'_>) -> Option<BulkRun>
    ensures { option_map plain_bulk result ≡ bulk_of (plain_said said.now) }
{
    if said.config.is_some() || said.summary {
        return None;
    }
    bulk_numbers(said.files.as_slice())
}

/// The numbers that these words are.
fn bulk_numbers(words: &[&str]) -> Option<BulkRun>
    ensures { option_map plain_bulk result ≡ bulk_numbers (map (λ s. s.now) words.now) }
{
    let [seed, records, workers] = words else {
        return None;
    };
    let Ok(seed) = decimal(seed.as_bytes()) else {
        return None;
    };
    let records = number_within(0, u64::from(MAX_RECORDS), records)? as u32;
    let workers = number_within(1, u64::from(MAX_WORKERS), workers)? as u32;
    Some(BulkRun {
        seed,
        records,
        workers,
    })
}

/// The number that a word is, if it is one from the least to the most.
fn number_within(least: u64, most: u64, word: &str) -> Option<u64>
    ensures value { result ≡ number_within least most word.now }
    ensures most { IfSome result (λ n. n ≤ most) }
{
    match decimal(word.as_bytes()) {
        Ok(n) if least <= n && n <= most => Some(n),
        _ => None,
    }
}

/// Whether these are the files of a command.
fn are_command_files(said: &Said<'_>) -> bool
    ensures { result ≡ are_command_files (plain_said said.now) }
{
    are_files(said.files.as_slice()) && said.config.is_none_or(is_config_name)
}

/// Whether these may be the files of a command, the last of them its script.
fn are_files(words: &[&str]) -> bool
    ensures { result ≡ are_files (map (λ s. s.now) words.now) }
{
    is_file_count(words.len()) && are_names(words)
}

/// Whether there are as many files as a command has: 1 to 1,024 logs and a script.
fn is_file_count(count: usize) -> bool
    ensures { result ≡ is_file_count count }
{
    (2..=MAX_FILES).contains(&count)
}

/// Whether each word may name a file.
fn are_names(words: &[&str]) -> bool
    ensures { result ≡ list_all (λ word. is_name word.now) words.now }
{
    words.iter().all(|word| !word.is_empty())
}

/// Whether a word may name the file of a configuration.
fn is_config_name(name: &str) -> bool
    ensures { result ≡ is_config_name name.now }
{
    !name.is_empty() && !is_hyphened(name)
}

/// Whether a word begins with a hyphen and is more than that hyphen.
fn is_hyphened(word: &str) -> bool
    ensures { result ≡ is_hyphened word.now }
{
    matches!(word.as_bytes(), [b'-', _, ..])
}

/// The names of a command's files; the last file is the script.
fn command_files(said: Said<'_>) -> CommandFiles<'_>
    requires { 0 < length said.files.items }
    ensures names { plain_files result ≡ command_files (plain_said said.entry) }
    ensures count { length result.logs.items ≡ length said.entry.files.items - 1 }
{
    let Said {
        config,
        files: mut logs,
        ..
    } = said;
    match logs.pop() {
        Some(script) => CommandFiles {
            config,
            logs,
            script,
        },
        None => unreachable!(),
    }
}

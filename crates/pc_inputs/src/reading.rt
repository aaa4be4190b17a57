//! The bytes of a command's files, or the status that ends the command before all of them are read.

ghost use Rattle.std.specs.Prelude.{◌≡◌, ◌≤◌, ◌⊎◌, ◌+◌, List, ℕ, Err, IfOk, length, map, option_map, string_bytes};
ghost use Rattle.std.specs.Result.{result_map_both};
ghost use Rattle.pc_inputs.specs.Reading.{IsFromCommand, IsFromConfig, IsFromFile, IsFromFiles, IsFromLog, IsFromLogs, IsFromRun, IsFromRunFiles, config_text, run_texts_of, text_of, texts_of, within};
ghost use Rattle.pc_inputs.specs.Words.{plain_files};
ghost use Rattle.pc_inputs.specs.declared.status.Status.TheVariants.{NoMemory};

use crate::command::{Command, CommandFiles, command_of};
use crate::status::{LimitKind, Status};
use pc_model::NameText;
use pc_model::limits::{MAX_FILE_BYTES, MAX_LOG_BYTES, MAX_PARTS};
use pc_world::{Files, FilesFault};
use std::alloc::Global;

/// The bytes of a log's file, and its name.
#[derive(Debug, Drop)]
pub struct LogText<'a> {
    /// The word that names the file.
    pub name: &'a str,
    /// At most `MAX_FILE_BYTES`.
    pub bytes: Vec<u8>,
}

/// The bytes of a command's files.
#[derive(Debug, Drop)]
pub struct Texts<'a> {
    /// Nothing where no file of a configuration is named.
    pub config: Option<Vec<u8>>,
    /// The log at place k is that of part k.
    pub logs: Vec<LogText<'a>>,
    /// At most `MAX_FILE_BYTES`.
    pub script: Vec<u8>,
}

/// The bytes of a run's files.
#[derive(Debug, Drop)]
pub struct RunTexts<'a> {
    pub texts: Texts<'a>,
    /// Whether only the summary is wanted.
    pub summary: bool,
}

/// The bytes of the files of the play that the words ask for, or the status that ends it before all
/// are read: of the words, of the reads of the configuration, of the logs and of the script, the
/// first that applies. Words that ask for another command are `Usage`.
pub fn read_files<'a, F: Files>(
    alloc: Global,
    words: &'a [String],
    files: &mut F,
) -> Result<Texts<'a>, Status>
    ensures texts { (result ≡ Err NoMemory) ⊎ IsFromFiles (map string_bytes words.now)
        (F.told files.old) (F.faults files.old) (F.faults files.new)
        (result_map_both texts_of (λ s. s) result) }
    ensures few { IfOk result (λ texts. length texts.logs.items ≤ MAX_PARTS) }
{
    let command = command_of(alloc, words)?;
    match command {
        Command::Play(names) => read_command(alloc, &names, files),
        Command::Run { .. } | Command::Bulk(_) => Err(Status::Usage),
    }
}

/// The same of the run that the words ask for.
pub fn read_run<'a, F: Files>(
    alloc: Global,
    words: &'a [String],
    files: &mut F,
) -> Result<RunTexts<'a>, Status>
    ensures texts { (result ≡ Err NoMemory) ⊎ IsFromRun (map string_bytes words.now)
        (F.told files.old) (F.faults files.old) (F.faults files.new)
        (result_map_both run_texts_of (λ s. s) result) }
    ensures few { IfOk result (λ run. length run.texts.logs.items ≤ MAX_PARTS) }
{
    let command = command_of(alloc, words)?;
    match command {
        Command::Play(_) | Command::Bulk(_) => Err(Status::Usage),
        Command::Run {
            files: names,
            summary,
        } => read_run_files(alloc, &names, summary, files),
    }
}

/// The bytes of a run's files.
fn read_run_files<'a, F: Files>(
    alloc: Global,
    names: &CommandFiles<'a>,
    summary: bool,
    files: &mut F,
) -> Result<RunTexts<'a>, Status>
    ensures texts { (result ≡ Err NoMemory) ⊎ IsFromRunFiles (plain_files names.now) summary
        (F.told files.old) (F.faults files.old) (F.faults files.new)
        (result_map_both run_texts_of (λ s. s) result) }
    ensures many { IfOk result
        (λ run. length run.texts.logs.items ≡ length names.now.logs.items) }
{
    let texts = read_command(alloc, names, files)?;
    Ok(RunTexts { texts, summary })
}

/// The bytes of a command's files.
fn read_command<'a, F: Files>(
    alloc: Global,
    names: &CommandFiles<'a>,
    files: &mut F,
) -> Result<Texts<'a>, Status>
    ensures texts { (result ≡ Err NoMemory) ⊎ IsFromCommand (plain_files names.now)
        (F.told files.old) (F.faults files.old) (F.faults files.new)
        (result_map_both texts_of (λ s. s) result) }
    ensures many { IfOk result (λ texts. length texts.logs.items ≡ length names.now.logs.items) }
{
    let config = read_config(alloc, files, names.config)?;
    let logs = read_logs(alloc, names.logs.as_slice(), files)?;
    let script = read(alloc, files, names.script)?;
    Ok(Texts {
        config,
        logs,
        script,
    })
}

/// The bytes of the configuration's file, if one is named.
fn read_config<F: Files>(
    alloc: Global,
    files: &mut F,
    name: Option<&str>,
) -> Result<Option<Vec<u8>>, Status>
    ensures text { (result ≡ Err NoMemory) ⊎ IsFromConfig (option_map (λ n. n.now) name.entry)
        (F.told files.old) (F.faults files.old) (F.faults files.new)
        (result_map_both config_text (λ s. s) result) }
    ensures keeps { (n : List ℕ) → F.told files.new n ≡ F.told files.old n }
    ensures count { (n : List ℕ) → F.faults files.old n ≤ F.faults files.new n }
{
    match name {
        Some(name) => Ok(Some(read(alloc, files, name)?)),
        None => Ok(None),
    }
}

/// The bytes of the logs.
fn read_logs<'a, F: Files>(
    alloc: Global,
    names: &[&'a str],
    files: &mut F,
) -> Result<Vec<LogText<'a>>, Status>
    ensures texts { (result ≡ Err NoMemory) ⊎ IsFromLogs (map (λ n. n.now) names.now)
        (F.told files.old) (F.faults files.old) (F.faults files.new)
        (result_map_both (λ logs. map text_of logs.items) (λ s. s) result) }
    ensures many { IfOk result (λ logs. length logs.items ≡ length names.now) }
    ensures keeps { (n : List ℕ) → F.told files.new n ≡ F.told files.old n }
    ensures count { (n : List ℕ) → F.faults files.old n ≤ F.faults files.new n }
{
    let mut logs = Vec::new(alloc);
    let mut used = 0;
    for name in names {
        let log = read_log(alloc, files, name, used)?;
        used += log.bytes.len() as u64;
        logs.push(log)?;
    }
    Ok(logs)
}

/// The bytes of a log after others that have this number of bytes.
fn read_log<'a, F: Files>(
    alloc: Global,
    files: &mut F,
    name: &'a str,
    used: u64,
) -> Result<LogText<'a>, Status>
    requires { used ≤ MAX_LOG_BYTES }
    ensures text { (result ≡ Err NoMemory) ⊎ IsFromLog name.now (F.told files.old name.now)
        (F.faults files.old name.now) (F.faults files.new name.now) used
        (result_map_both text_of (λ s. s) result) }
    ensures fits { IfOk result (λ log. used + length log.bytes.items ≤ MAX_LOG_BYTES) }
    ensures keeps { (n : List ℕ) → F.told files.new n ≡ F.told files.old n }
    ensures count { (n : List ℕ) → F.faults files.old n ≤ F.faults files.new n }
{
    let bytes = read(alloc, files, name)?;
    let bytes = within(used, bytes)?;
    Ok(LogText { name, bytes })
}

/// The bytes after this number of others, unless they are too many together.
fn within(used: u64, bytes: Vec<u8>) -> Result<Vec<u8>, Status>
    requires { used ≤ MAX_LOG_BYTES }
    ensures value { result_map_both (λ b. b.items) (λ s. s) result ≡ within used bytes.items }
    ensures fits { IfOk result (λ b. used + length b.items ≤ MAX_LOG_BYTES) }
{
    if bytes.len() as u64 <= MAX_LOG_BYTES - used {
        Ok(bytes)
    } else {
        Err(Status::Limit {
            which: LimitKind::LogBytes,
            number: MAX_LOG_BYTES,
        })
    }
}

/// The bytes of a file.
fn read<F: Files>(alloc: Global, files: &mut F, name: &str) -> Result<Vec<u8>, Status>
    ensures answer { (result ≡ Err NoMemory) ⊎ IsFromFile name.now (F.told files.old name.now)
        (F.faults files.old name.now) (F.faults files.new name.now)
        (result_map_both (λ bytes. bytes.items) (λ s. s) result) }
    ensures keeps { (n : List ℕ) → F.told files.new n ≡ F.told files.old n }
    ensures count { (n : List ℕ) → F.faults files.old n ≤ F.faults files.new n }
{
    let mut bytes = Vec::new(alloc);
    match files.read(name, &mut bytes) {
        Ok(()) => Ok(bytes),
        Err(FilesFault::Failed) => Err(Status::ReadFault {
            name: NameText::from_str(alloc, name)?,
        }),
        Err(FilesFault::TooLong) => Err(Status::Limit {
            which: LimitKind::FileBytes,
            number: MAX_FILE_BYTES,
        }),
        Err(FilesFault::NoMemory) => Err(Status::NoMemory),
    }
}

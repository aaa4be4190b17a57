//! What the words after a command say, as `clap` reads them.

ghost use Rattle.std.specs.Prelude.{◌≡◌, ◌⊎◌, Err, IfOk, false, map, ok_or, string_bytes, unwrap_or, option_map, codes};
ghost use Rattle.std.specs.Result.{result_map_both};
ghost use Rattle.clap.specs.Simple.{app_of};
ghost use Rattle.pc_inputs.specs.Command.{said_by};
ghost use Rattle.clap.specs.Matches.{found_of, one_text};
ghost use Rattle.pc_inputs.specs.Words.{IsFlag, command_app, found_in, is_set, plain_said, refused};
ghost use Rattle.pc_inputs.specs.declared.status.Status.TheVariants.{NoMemory, Usage};

use crate::status::Status;
use clap::error::ErrorKind;
use clap::{Arg, ArgAction, ArgMatches};
use std::alloc::{AllocError, Global};

/// The id of the option that names the file of the configuration, and its name.
const CONFIG: &str = "config";

/// The id of the wish for the summary alone, and its name.
const SUMMARY: &str = "summary";

/// The id of all other files.
const FILES: &str = "files";

/// What words say.
#[derive(Debug, Drop)]
pub(crate) struct Said<'a> {
    /// The file of the configuration, if one is named.
    pub(crate) config: Option<&'a str>,
    /// Whether only the summary is wanted.
    pub(crate) summary: bool,
    /// All other files.
    pub(crate) files: Vec<&'a str>,
}

/// What the words say. Fails with `Usage` if an option is unknown, stands twice, lacks its file or
/// has a value that it does not take, and with `NoMemory` when out of memory.
pub(crate) fn said_by<'a>(alloc: Global, words: &'a [String]) -> Result<Said<'a>, Status>
    ensures { (result ≡ Err NoMemory) ⊎ (result_map_both plain_said (λ s. s) result
        ≡ ok_or (said_by false (map string_bytes words.now)) Usage) }
{
    let matches = matches_of(alloc, words)?;
    let files = files(alloc, &matches)?;
    Ok(Said {
        config: matches.get_str(CONFIG),
        summary: has_summary(&matches),
        files,
    })
}

/// What `clap` finds in the words.
fn matches_of<'a>(alloc: Global, words: &'a [String]) -> Result<ArgMatches<'a>, Status>
    ensures found { (result ≡ Err NoMemory) ⊎ (result_map_both found_in (λ s. s) result
        ≡ ok_or (said_by false (map string_bytes words.now)) Usage) }
    ensures flag { IfOk result (λ matches. IsFlag (one_text (found_of matches) (codes "summary"))) }
{
    match command(alloc)?.try_get_matches_from(words) {
        Ok(matches) => Ok(matches),
        Err(error) => Err(refused(error.kind())),
    }
}

/// Whether only the summary is wanted.
fn has_summary(matches: &ArgMatches<'_>) -> bool
    requires { IsFlag (one_text (found_of matches.now) (codes "summary")) }
    ensures { result ≡ is_set (one_text (found_of matches.now) (codes "summary")) }
{
    matches.get_flag(SUMMARY)
}

/// The options and the files, for `clap`.
fn command<'a>(alloc: Global) -> Result<clap::Command<'a>, AllocError>
    ensures { IfOk result (λ command. app_of command ≡ command_app) }
{
    let config = Arg::new(alloc, CONFIG).long(CONFIG).action(ArgAction::Set);
    let summary = Arg::new(alloc, SUMMARY)
        .long(SUMMARY)
        .action(ArgAction::SetTrue);
    let files = Arg::new(alloc, FILES).action(ArgAction::Append);
    clap::Command::new(alloc, "parcon")
        .no_binary_name(true)
        .disable_help_flag(true)
        .arg(config)?
        .arg(summary)?
        .arg(files)
}

/// The status of words that `clap` refused.
fn refused(kind: ErrorKind) -> Status
    ensures { result ≡ refused kind }
{
    match kind {
        ErrorKind::OutOfMemory => Status::NoMemory,
        _ => Status::Usage,
    }
}

/// All files but that of the configuration.
fn files<'a>(alloc: Global, matches: &ArgMatches<'a>) -> Result<Vec<&'a str>, AllocError>
    ensures { IfOk result (λ names. map (λ s. s.now) names.items ≡ (found_in matches.now).files) }
{
    let mut files = Vec::new(alloc);
    if let Some(names) = matches.get_raw(FILES) {
        files.extend_from_slice(names)?;
    }
    Ok(files)
}

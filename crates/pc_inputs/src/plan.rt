//! What is played or run, or the status that ends a command before it begins.

ghost use Rattle.std.specs.Prelude.{◌≡◌, ◌≤◌, ◌⊎◌, ◌<◌, Err, IfErr, IfOk, OnOk, length, map, true};
ghost use Rattle.std.specs.Result.{result_map_both};
ghost use Rattle.pc_cursor.specs.Log.{all_batches, contents_of, records_of};
ghost use Rattle.pc_inputs.specs.Reading.{run_texts_of, text_of, texts_of};
ghost use Rattle.pc_inputs.specs.Plan.{AddsLog, IsOverfull, checked_logs, few_records, ground, ground_behind, log_or_status, logs_of, logs_with, plan_behind, planned, planned_run, run_behind};
ghost use Rattle.pc_inputs.specs.declared.status.Status.TheVariants.{NoMemory};

use crate::configuration::config_in;
use crate::reading::{LogText, RunTexts, Texts};
use crate::status::{LimitKind, Status};
use pc_broker_log::{AddFault, BrokerLogs};
use pc_config::Config;
use pc_cursor::{CheckFault, Log};
use pc_model::limits::{MAX_PARTS, MAX_RECORDS};
use pc_model::{NameText, Setup};
use pc_script::{PlayScript, Steps, read_play, read_steps};
use std::alloc::Global;

/// What is played: a script over logs, with a setup.
#[derive(Debug, Drop)]
pub struct Plan<'a> {
    /// The settings of the configuration.
    pub setup: Setup,
    /// The log of the file at place k is that of part k.
    pub logs: BrokerLogs<'a>,
    /// The lines, in order.
    pub script: PlayScript,
}

/// What is run: steps over logs, by a number of workers, with a setup.
#[derive(Debug, Drop)]
pub struct RunPlan<'a> {
    /// The settings of the configuration.
    pub setup: Setup,
    /// How many workers the configuration wants, from 1 to 256.
    pub workers: u32,
    /// The log of the file at place k is that of part k.
    pub logs: BrokerLogs<'a>,
    /// The steps, in order, over the parts of the logs.
    pub steps: Steps,
    /// Whether only the summary is wanted.
    pub summary: bool,
}

/// What a command stands on, whatever its script is.
#[derive(Debug, Drop)]
struct Ground<'a> {
    setup: Setup,
    workers: u32,
    logs: BrokerLogs<'a>,
}

/// What the texts of a play's files ask for, or the status that ends the play before it begins: of
/// the configuration, of the logs in order, of the number of their records, and of the script, the
/// first that applies.
pub fn plan_of<'a>(alloc: Global, texts: &'a Texts<'_>) -> Result<Plan<'a>, Status>
    requires { length texts.now.logs.items ≤ MAX_PARTS }
    ensures plan { (result ≡ Err NoMemory)
        ⊎ (result_map_both planned (λ s. s) result ≡ plan_behind (texts_of texts.now)) }
    ensures logs { IfOk result (λ plan. plan.logs ≡ logs_of (map text_of texts.now.logs.items)) }
{
    let Ground { setup, logs, .. } = ground_of(alloc, texts)?;
    let script = read_play(alloc, texts.script.as_slice())?;
    Ok(Plan {
        setup,
        logs,
        script,
    })
}

/// What the texts of a run's files ask for, or the status that ends the run before it begins: of
/// the configuration, of the logs in order, of the number of their records, and of the script, the
/// first that applies.
pub fn run_plan_of<'a>(alloc: Global, run: &'a RunTexts<'_>) -> Result<RunPlan<'a>, Status>
    requires { length run.now.texts.logs.items ≤ MAX_PARTS }
    ensures plan { (result ≡ Err NoMemory)
        ⊎ (result_map_both planned_run (λ s. s) result ≡ run_behind (run_texts_of run.now)) }
    ensures logs { IfOk result
        (λ plan. plan.logs ≡ logs_of (map text_of run.now.texts.logs.items)) }
    ensures workers_least { IfOk result (λ plan. 1 ≤ plan.workers) }
    ensures workers_most { IfOk result (λ plan. plan.workers ≤ 256) }
{
    let Ground {
        setup,
        workers,
        logs,
    } = ground_of(alloc, &run.texts)?;
    let parts = run.texts.logs.len() as u32;
    let steps = read_steps(alloc, run.texts.script.as_slice(), parts)?;
    Ok(RunPlan {
        setup,
        workers,
        logs,
        steps,
        summary: run.summary,
    })
}

/// What the configuration and the logs give, or the status of the first that is refused.
fn ground_of<'a>(alloc: Global, texts: &'a Texts<'_>) -> Result<Ground<'a>, Status>
    requires { length texts.now.logs.items ≤ MAX_PARTS }
    ensures ground { (result ≡ Err NoMemory)
        ⊎ (result_map_both ground (λ s. s) result ≡ ground_behind (texts_of texts.now)) }
    ensures logs { IfOk result (λ found. found.logs ≡ logs_of (map text_of texts.now.logs.items)) }
    ensures workers_least { IfOk result (λ found. 1 ≤ found.workers) }
    ensures workers_most { IfOk result (λ found. found.workers ≤ 256) }
{
    let Config { setup, workers } = config_in(alloc, &texts.config)?;
    let checked = checked_logs(alloc, texts.logs.as_slice())?;
    let logs = broker_logs(alloc, checked)?;
    Ok(Ground {
        setup,
        workers,
        logs,
    })
}

/// The logs of the texts, which have to read.
fn checked_logs<'a>(alloc: Global, texts: &'a [LogText<'_>]) -> Result<Vec<Log<'a>>, Status>
    requires { length texts.now ≤ MAX_PARTS }
    ensures value { (result ≡ Err NoMemory) ⊎ (result_map_both (λ logs. logs.items) (λ s. s) result
        ≡ checked_logs (map text_of texts.now)) }
    ensures count { IfOk result (λ logs. length logs.items ≤ MAX_PARTS) }
{
    let mut logs = Vec::new(alloc);
    for text in texts {
        logs.push(checked(alloc, text.name, text.bytes.as_slice())?)?;
    }
    Ok(logs)
}

/// A file's log, which has to read.
fn checked<'a>(alloc: Global, name: &str, log: &'a [u8]) -> Result<Log<'a>, Status>
    ensures { (result ≡ Err NoMemory)
        ⊎ (result ≡ log_or_status name.now (all_batches log.now)) }
{
    match Log::check(alloc, log) {
        Ok(log) => Ok(log),
        Err(CheckFault::Bad(bad)) => Err(Status::BadLog {
            name: NameText::from_str(alloc, name)?,
            place: bad.place,
            fault: bad.fault,
        }),
        Err(CheckFault::NoMemory) => Err(Status::NoMemory),
    }
}

/// The logs by their parts, unless they have too many records together.
fn broker_logs<'a>(alloc: Global, checked: Vec<Log<'a>>) -> Result<BrokerLogs<'a>, Status>
    requires { length checked.items ≤ MAX_PARTS }
    ensures { (result ≡ Err NoMemory) ⊎ (result ≡ few_records (logs_with checked.entry.items)) }
{
    let mut logs = BrokerLogs::new(alloc);
    let mut part = 0;
    for log in checked {
        add_next(&mut logs, part, log)?;
        part += 1;
    }
    Ok(logs)
}

/// Gives the next part its log, unless all logs have too many records together with it.
fn add_next<'a>(logs: &mut BrokerLogs<'a>, part: u32, log: Log<'a>) -> Result<(), Status>
    requires next { part ≡ length logs.now }
    requires known { part < MAX_PARTS }
    ensures ok { OnOk result
        (AddsLog logs.old (records_of (contents_of log.entry)) logs.new) }
    ensures err { IfErr result (λ status. (status ≡ NoMemory)
        ⊎ IsOverfull logs.old (records_of (contents_of log.entry)) status) }
{
    match logs.add(part, log) {
        Ok(()) => Ok(()),
        Err(AddFault::TooManyRecords) => Err(Status::Limit {
            which: LimitKind::Records,
            number: u64::from(MAX_RECORDS),
        }),
        Err(AddFault::NoMemory) => Err(Status::NoMemory),
        Err(AddFault::UnknownPart | AddFault::TwiceGiven) => unreachable!(),
    }
}

//! The call below the top one: a run of any plan, and what it ends with.

ghost use Rattle.std.specs.Prelude.{◌≡◌, ◌≤◌, ◌<◌, ℕ, [], true, is_some, length, slice_get};
ghost use Rattle.std.specs.Option.{option_flatten};
ghost use Rattle.pc_script.specs.Steps.{AreAllowed};
ghost use Rattle.pc_inputs.specs.Plan.{planned_run};
ghost use Rattle.parcon.specs.Promise.{given_of};
ghost use Rattle.parcon.specs.RunEnding.{ending_status, run_text};
ghost use Rattle.parcon.specs.RunPromise.{Runs};
ghost use Rattle.parcon.specs.Written.{IsWritten};

use crate::output::tell_run;
use crate::play_setup::Ended;
use pc_inputs::RunPlan;
use pc_pool::{Report, consume};
use pc_task::RuleTask;
use pc_world::{Clock, Link, Sink};
use std::alloc::Global;
use std::sync::Wait;
use std::thread::Threads;

/// Runs the logs of a plan by its steps, with its workers. It may wait.
///
/// The output is the text of the journal, unless only the summary is wanted, and then the summary, with
/// the status `Whole`, or the fault line of the status. Where the sink fails the status is `SinkFault`,
/// and out of memory it is `NoMemory`; the output is then the first bytes of it.
pub fn run_setup<R: Threads + Wait + Sync, L: Link + Send + Drop, C: Clock + Sync, O: Sink>(
    rt: &R,
    alloc: Global,
    plan: &RunPlan<'_>,
    clock: &C,
    link: L,
    out: &mut O,
) -> Ended<L>
    requires some { 0 < plan.now.workers }
    requires few { plan.now.workers ≤ 256 }
    requires allowed { AreAllowed (length plan.now.logs) [] plan.now.steps }
    requires logged { (p : ℕ) → p < length plan.now.logs
        → is_some (option_flatten (slice_get plan.now.logs p)) ≡ true }
    ensures { Runs plan.now.setup plan.now.logs
        (given_of plan.now.setup plan.now.logs (L.is_told link) (L.store link))
        (planned_run plan.now)
        (record {
          is_told = L.is_told link;
          store = L.store link;
          link_faults = L.faults link;
          written = O.written out.old;
          write_faults = O.faults out.old;
        })
        (record {
          is_told = L.is_told result.link;
          store = L.store result.link;
          link_faults = L.faults result.link;
          written = O.written out.new;
          write_faults = O.faults out.new;
        })
        result.status result.journal.events }
{
    let report = consume(
        rt,
        alloc,
        &plan.setup,
        &plan.logs,
        &plan.steps,
        link,
        clock,
        &RuleTask,
        plan.workers,
    );
    tell(alloc, plan, report, out)
}

/// Tells how a run went.
fn tell<L: Link + Drop, O: Sink>(
    alloc: Global,
    plan: &RunPlan<'_>,
    report: Report<'_, L, RuleTask>,
    out: &mut O,
) -> Ended<L>
    ensures journal { result.journal.events ≡ report.entry.journal.events }
    ensures link { result.link ≡ report.entry.link }
    ensures written { IsWritten (O.written out.old) (O.written out.new) (O.faults out.old)
        (O.faults out.new)
        (run_text plan.now.summary plan.now.setup plan.now.logs report.entry.journal.events report.entry.ended)
        (ending_status report.entry.ended) result.status }
{
    let Report {
        journal,
        link,
        ended,
        ..
    } = report;
    let status = tell_run(alloc, out, plan, &journal, ended);
    Ended {
        status,
        journal,
        link,
    }
}

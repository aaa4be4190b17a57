//! A whole run, but for the outside, which it is given.

ghost use Rattle.std.specs.Prelude.{◌≡◌, ◌≤◌, ◌<◌, ℕ, [], Ok, true, is_some, length, map, slice_get, string_bytes};
ghost use Rattle.std.specs.Option.{option_flatten};
ghost use Rattle.pc_script.specs.Steps.{AreAllowed};
ghost use Rattle.pc_inputs.specs.Reading.{run_texts_of, text_of};
ghost use Rattle.pc_inputs.specs.Plan.{all_rise, logs_of, planned_run, run_behind};
ghost use Rattle.parcon.specs.RunPromise.{IsRunCall, IsRunOut};

use crate::play_setup::{Ended, unplayed};
use crate::run_setup::run_setup;
use crate::starts::{Sent, send_starts};
use pc_inputs::{RunPlan, RunTexts, Status, read_run, run_plan_of};
use pc_model::limits::MAX_PARTS;
use pc_script::every_step_is_allowed;
use pc_world::{Clock, Files, Link, Sink};
use std::alloc::Global;
use std::sync::Wait;
use std::thread::Threads;

/// Runs logs by the steps of a script: `run [--config FILE] [--summary] LOG... STEPS`. First the
/// starting commits of the configuration are sent over the link. It may wait.
///
/// The output is that of `run_setup`, or the fault line of what kept the run from beginning. The
/// journal is then empty.
pub(crate) fn run<
    R: Threads + Wait + Sync,
    F: Files,
    C: Clock + Sync,
    L: Link + Send + Drop,
    O: Sink,
>(
    rt: &R,
    alloc: Global,
    words: &[String],
    files: &mut F,
    clock: &C,
    link: L,
    out: &mut O,
) -> Ended<L>
    ensures { IsRunCall (map string_bytes words.now)
        (record { contents = F.told files.old; faults = F.faults files.old })
        (record { contents = F.told files.new; faults = F.faults files.new })
        (record {
          is_told = L.is_told link;
          store = L.store link;
          link_faults = L.faults link;
          written = O.written out.old;
          write_faults = O.faults out.old;
        })
        (record {
          is_told = L.is_told result.link;
          store = L.store result.link;
          link_faults = L.faults result.link;
          written = O.written out.new;
          write_faults = O.faults out.new;
        })
        result.status result.journal.events }
{
    match read_run(alloc, words, files) {
        Ok(texts) => run_texts(rt, alloc, &texts, clock, link, out),
        Err(status) => unplayed(alloc, status, link, out),
    }
}

/// Carries out the plan of these texts, if they make one.
fn run_texts<R: Threads + Wait + Sync, C: Clock + Sync, L: Link + Send + Drop, O: Sink>(
    rt: &R,
    alloc: Global,
    texts: &RunTexts<'_>,
    clock: &C,
    link: L,
    out: &mut O,
) -> Ended<L>
    requires { length texts.now.texts.logs.items ≤ MAX_PARTS }
    ensures { IsRunOut (logs_of (map text_of texts.now.texts.logs.items))
        (run_behind (run_texts_of texts.now))
        (record {
          is_told = L.is_told link;
          store = L.store link;
          link_faults = L.faults link;
          written = O.written out.old;
          write_faults = O.faults out.old;
        })
        (record {
          is_told = L.is_told result.link;
          store = L.store result.link;
          link_faults = L.faults result.link;
          written = O.written out.new;
          write_faults = O.faults out.new;
        })
        result.status result.journal.events }
{
    every_step_is_allowed();
    match run_plan_of(alloc, texts) {
        Ok(plan) => run_plan(rt, alloc, &plan, clock, link, out),
        Err(status) => unplayed(alloc, status, link, out),
    }
}

/// Sends the starting commits of the plan over the link, and runs it if all are stored.
fn run_plan<R: Threads + Wait + Sync, C: Clock + Sync, L: Link + Send + Drop, O: Sink>(
    rt: &R,
    alloc: Global,
    plan: &RunPlan<'_>,
    clock: &C,
    link: L,
    out: &mut O,
) -> Ended<L>
    requires some { 0 < plan.now.workers }
    requires few { plan.now.workers ≤ 256 }
    requires allowed { AreAllowed (length plan.now.logs) [] plan.now.steps }
    requires logged { (p : ℕ) → p < length plan.now.logs
        → is_some (option_flatten (slice_get plan.now.logs p)) ≡ true }
    requires rise { all_rise plan.now.logs ≡ true }
    ensures { IsRunOut plan.now.logs (Ok (planned_run plan.now))
        (record {
          is_told = L.is_told link;
          store = L.store link;
          link_faults = L.faults link;
          written = O.written out.old;
          write_faults = O.faults out.old;
        })
        (record {
          is_told = L.is_told result.link;
          store = L.store result.link;
          link_faults = L.faults result.link;
          written = O.written out.new;
          write_faults = O.faults out.new;
        })
        result.status result.journal.events }
{
    let starts = plan.setup.settings.starts.as_slice();
    let Sent { answer, link } = send_starts(alloc, starts, link);
    match answer {
        Ok(()) => run_setup(rt, alloc, plan, clock, link, out),
        Err(fault) => unplayed(alloc, Status::from(fault), link, out),
    }
}

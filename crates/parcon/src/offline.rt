//! The top call: a whole play, but for the outside, which it is given.

ghost use Rattle.std.specs.Prelude.{◌≡◌, ◌≤◌, Ok, true, length, map, string_bytes};
ghost use Rattle.pc_inputs.specs.Reading.{text_of, texts_of};
ghost use Rattle.pc_inputs.specs.Plan.{all_rise, logs_of, plan_behind, planned};
ghost use Rattle.parcon.specs.Promise.{IsCall, IsCarriedOut};

use crate::play_setup::{Ended, play_setup, unplayed};
use crate::starts::{Sent, send_starts};
use pc_inputs::{Plan, Status, Texts, plan_of, read_files};
use pc_model::limits::MAX_PARTS;
use pc_world::{Files, Link, Sink};
use std::alloc::Global;

/// Plays a script over logs: `play [--config FILE] LOG... SCRIPT`. First the starting commits of the
/// configuration are sent over the link. It waits for nobody and always returns.
///
/// The output is the text of the history and the remarks, or the fault line of the status. Where
/// the sink fails the status is `SinkFault`, and where memory runs out `NoMemory`; the output is
/// then the first bytes of it. Without an engine the journal is empty.
pub fn offline<F: Files, L: Link, O: Sink>(
    alloc: Global,
    words: &[String],
    files: &mut F,
    link: L,
    out: &mut O,
) -> Ended<L>
    ensures { IsCall (map string_bytes words.now)
        (record { contents = F.told files.old; faults = F.faults files.old })
        (record { contents = F.told files.new; faults = F.faults files.new })
        (record {
          is_told = L.is_told link;
          store = L.store link;
          link_faults = L.faults link;
          written = O.written out.old;
          write_faults = O.faults out.old;
        })
        (record {
          is_told = L.is_told result.link;
          store = L.store result.link;
          link_faults = L.faults result.link;
          written = O.written out.new;
          write_faults = O.faults out.new;
        })
        result.status result.journal.events }
{
    match read_files(alloc, words, files) {
        Ok(texts) => play_texts(alloc, &texts, link, out),
        Err(status) => unplayed(alloc, status, link, out),
    }
}

/// Carries out the plan of these texts, if they make one.
fn play_texts<L: Link, O: Sink>(alloc: Global, texts: &Texts<'_>, link: L, out: &mut O) -> Ended<L>
    requires { length texts.now.logs.items ≤ MAX_PARTS }
    ensures { IsCarriedOut (logs_of (map text_of texts.now.logs.items))
        (plan_behind (texts_of texts.now))
        (record {
          is_told = L.is_told link;
          store = L.store link;
          link_faults = L.faults link;
          written = O.written out.old;
          write_faults = O.faults out.old;
        })
        (record {
          is_told = L.is_told result.link;
          store = L.store result.link;
          link_faults = L.faults result.link;
          written = O.written out.new;
          write_faults = O.faults out.new;
        })
        result.status result.journal.events }
{
    match plan_of(alloc, texts) {
        Ok(plan) => carry_out(alloc, &plan, link, out),
        Err(status) => unplayed(alloc, status, link, out),
    }
}

/// Sends the starting commits of the plan over the link, and plays its lines if all are stored.
fn carry_out<L: Link, O: Sink>(alloc: Global, plan: &Plan<'_>, link: L, out: &mut O) -> Ended<L>
    requires { all_rise plan.now.logs ≡ true }
    ensures { IsCarriedOut plan.now.logs (Ok (planned plan.now))
        (record {
          is_told = L.is_told link;
          store = L.store link;
          link_faults = L.faults link;
          written = O.written out.old;
          write_faults = O.faults out.old;
        })
        (record {
          is_told = L.is_told result.link;
          store = L.store result.link;
          link_faults = L.faults result.link;
          written = O.written out.new;
          write_faults = O.faults out.new;
        })
        result.status result.journal.events }
{
    let starts = plan.setup.settings.starts.as_slice();
    let Sent { answer, link } = send_starts(alloc, starts, link);
    match answer {
        Ok(()) => play_setup(alloc, &plan.setup, &plan.logs, &plan.script, link, out),
        Err(fault) => unplayed(alloc, Status::from(fault), link, out),
    }
}

//! The top call: a whole command, but for the outside, which it is given.

ghost use Rattle.std.specs.Prelude.{◌≡◌, map, string_bytes, true, false};
ghost use Rattle.parcon.specs.Promise.{IsCall};
ghost use Rattle.parcon.specs.RunPromise.{IsRunCall, names_run};

use crate::offline::offline;
use crate::play_setup::Ended;
use crate::run::run;
use pc_world::{Clock, Files, Link, Sink};
use std::alloc::Global;
use std::sync::Wait;
use std::thread::Threads;

/// Does the command that the words ask for: `run [--config FILE] [--summary] LOG... STEPS`, or
/// `play [--config FILE] LOG... SCRIPT`. In a run it may wait for its workers.
///
/// The output is that of the command, or the fault line of the status. Where the sink fails the status
/// is `SinkFault`, and out of memory it is `NoMemory`; the output is then the first bytes of it.
/// Without an engine the journal is empty.
pub fn parcon<R: Threads + Wait + Sync, F: Files, C: Clock + Sync, L: Link + Send + Drop, O: Sink>(
    rt: &R,
    alloc: Global,
    words: &[String],
    files: &mut F,
    clock: &C,
    link: L,
    out: &mut O,
) -> Ended<L>
    ensures run { names_run (map string_bytes words.now) ≡ true
        → IsRunCall (map string_bytes words.now)
        (record { contents = F.told files.old; faults = F.faults files.old })
        (record { contents = F.told files.new; faults = F.faults files.new })
        (record {
          is_told = L.is_told link;
          store = L.store link;
          link_faults = L.faults link;
          written = O.written out.old;
          write_faults = O.faults out.old;
        })
        (record {
          is_told = L.is_told result.link;
          store = L.store result.link;
          link_faults = L.faults result.link;
          written = O.written out.new;
          write_faults = O.faults out.new;
        })
        result.status result.journal.events }
    ensures play { names_run (map string_bytes words.now) ≡ false
        → IsCall (map string_bytes words.now)
        (record { contents = F.told files.old; faults = F.faults files.old })
        (record { contents = F.told files.new; faults = F.faults files.new })
        (record {
          is_told = L.is_told link;
          store = L.store link;
          link_faults = L.faults link;
          written = O.written out.old;
          write_faults = O.faults out.old;
        })
        (record {
          is_told = L.is_told result.link;
          store = L.store result.link;
          link_faults = L.faults result.link;
          written = O.written out.new;
          write_faults = O.faults out.new;
        })
        result.status result.journal.events }
{
    if names_run(words) {
        run(rt, alloc, words, files, clock, link, out)
    } else {
        offline(alloc, words, files, link, out)
    }
}

/// Whether the first of the words asks for a run.
fn names_run(words: &[String]) -> bool
    ensures { result ≡ names_run (map string_bytes words.now) }
{
    match words.first() {
        Some(name) => name.as_str() == "run",
        None => false,
    }
}

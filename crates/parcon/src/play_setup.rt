//! The call below the top one: a play with any setup over any logs, and what it ends with.

ghost use Rattle.std.specs.Prelude.{◌≡◌, Ok, [], MatchResult};
ghost use Rattle.pc_model.specs.Outcomes.{outcome_of};
ghost use Rattle.pc_offset_client.specs.Client.{kept_for};
ghost use Rattle.pc_engine.specs.Engine.{given_by};
ghost use Rattle.pc_inputs.specs.declared.status.Status.TheVariants.{NoMemory, Whole};
ghost use Rattle.pc_inputs.specs.Status.{fault_line};
ghost use Rattle.parcon.specs.Ending.{text_with};
ghost use Rattle.parcon.specs.Written.{IsWritten};
ghost use Rattle.parcon.specs.Promise.{Plays};

use crate::output::{tell_fault, tell_play};
use pc_broker_log::BrokerLogs;
use pc_inputs::Status;
use pc_model::{Journal, Setup};
use pc_play::{Played, play};
use pc_script::PlayScript;
use pc_world::{Link, Sink};
use std::alloc::Global;

/// How a call of the program ended: its status, the events of its play, and the link.
#[derive(Debug, Drop)]
pub struct Ended<L: Link> {
    pub status: Status,
    pub journal: Journal,
    pub link: L,
}

/// Plays the lines of a script over these logs, with a setup. It waits for nobody and always
/// returns.
///
/// The output is the text of the history and the remarks, with the status `Whole`. Where the sink
/// fails the status is `SinkFault`, and where memory runs out `NoMemory`; the output is then the
/// first bytes of it. Without an engine the journal is empty.
pub fn play_setup<L: Link, O: Sink>(
    alloc: Global,
    setup: &Setup,
    logs: &BrokerLogs<'_>,
    script: &PlayScript,
    link: L,
    out: &mut O,
) -> Ended<L>
    ensures { Plays
        (given_by setup.now logs.now [] (L.is_told link) outcome_of (kept_for (L.store link))) (Ok script.now)
        (record {
          is_told = L.is_told link;
          store = L.store link;
          link_faults = L.faults link;
          written = O.written out.old;
          write_faults = O.faults out.old;
        })
        (record {
          is_told = L.is_told result.link;
          store = L.store result.link;
          link_faults = L.faults result.link;
          written = O.written out.new;
          write_faults = O.faults out.new;
        })
        result.status result.journal.events }
{
    let played = play(alloc, setup, logs, script.as_slice(), link);
    tell(alloc, played, out)
}

/// What a play ends with that did not begin: the fault line is written.
pub(crate) fn unplayed<L: Link, O: Sink>(
    alloc: Global,
    status: Status,
    link: L,
    out: &mut O,
) -> Ended<L>
    ensures journal { result.journal.events ≡ [] }
    ensures link { result.link ≡ link }
    ensures written { IsWritten (O.written out.old) (O.written out.new) (O.faults out.old)
        (O.faults out.new) (fault_line status) status result.status }
    ensures memory { status ≡ NoMemory → result.status ≡ NoMemory }
{
    Ended {
        status: tell_fault(alloc, out, status),
        journal: Journal::new(alloc),
        link,
    }
}

/// Tells how a play went.
fn tell<L: Link, O: Sink>(alloc: Global, played: Played<L>, out: &mut O) -> Ended<L>
    ensures journal { result.journal.events ≡ played.journal.events }
    ensures link { result.link ≡ played.link }
    ensures written { MatchResult played.remarks
        (λ remarks. IsWritten (O.written out.old) (O.written out.new) (O.faults out.old)
        (O.faults out.new) (text_with played.journal.events remarks.items) Whole result.status)
        (λ _. (result.status ≡ NoMemory) × (O.written out.new ≡ O.written out.old)) }
{
    let Played {
        remarks,
        journal,
        link,
    } = played;
    let status = match remarks {
        Ok(remarks) => tell_play(alloc, out, &journal, remarks.as_slice()),
        Err(_) => Status::NoMemory,
    };
    Ended {
        status,
        journal,
        link,
    }
}

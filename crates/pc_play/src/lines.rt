//! The play: one call of the engine for each line of a script.

ghost use Rattle.std.specs.Prelude.{◌≡◌, ◌≤◌, List, true, [], OnErr, OnOk, IsErr};
ghost use Rattle.pc_model.specs.Outcomes.{outcome_of};
ghost use Rattle.pc_model.specs.Given.{has_log};
ghost use Rattle.pc_script.specs.PlayScript.{ArePlayable, IsPlayable};
ghost use Rattle.pc_offset_client.specs.Client.{kept_for};
ghost use Rattle.pc_task.specs.Jobs.{PlainJob};
ghost use Rattle.pc_engine.specs.Effect.{StoresOnly};
ghost use Rattle.pc_engine.specs.Engine.{given_by};
ghost use Rattle.pc_play.specs.Hand.{HasInHand};
ghost use Rattle.pc_play.specs.Play.{given_by_rules, Breaks, IsPlayed, LeadTo, LeadsTo, StopsIn, moment};
ghost use Rattle.pc_play.specs.Kept.{IsKept};

use crate::calls::call;
use crate::hand::Hand;
use crate::remark::Remark;
use pc_broker_log::BrokerLogs;
use pc_engine::Engine;
use pc_model::{Journal, Setup};
use pc_script::PlayLine;
use pc_world::Link;
use std::alloc::{AllocError, Global};

/// What a play left.
pub struct Played<L: Link> {
    /// In the order of the lines. The error is out of memory: not all lines were played then.
    pub remarks: Result<Vec<Remark>, AllocError>,
    /// The events of the lines that were played.
    pub journal: Journal,
    /// The link that the play was given.
    pub link: L,
}

/// Plays a line: its call, and a remark where that was refused or added no event. Fails when
/// out of memory.
fn play_line<'a, L: Link>(
    alloc: Global,
    engine: &mut Engine<'a, L>,
    hand: &mut Hand<'a>,
    remarks: &mut Vec<Remark>,
    line: &PlayLine,
) -> Result<(), AllocError>
    requires { IsPlayable line.now.act }
    ensures ok { OnOk result ((jobs : List PlainJob)
        → HasInHand (given_by_rules engine.old) engine.old.journal.events jobs hand.old
        → LeadsTo (L.is_told engine.old.link) (given_by_rules engine.old) (record {
          history = engine.old.journal.events;
          hand = jobs;
          remarks = remarks.old.items;
        }) line.now (moment (L.store engine.old.link) (L.faults engine.old.link))
        (moment (L.store engine.new.link) (L.faults engine.new.link))
        engine.new.journal.events hand.new remarks.new.items) }
    ensures err { OnErr result ((jobs : List PlainJob)
        → HasInHand (given_by_rules engine.old) engine.old.journal.events jobs hand.old
        → Breaks (L.is_told engine.old.link) (given_by_rules engine.old) engine.old.journal.events jobs
        line.now.act (moment (L.store engine.old.link) (L.faults engine.old.link))
        (moment (L.store engine.new.link) (L.faults engine.new.link))
        engine.new.journal.events) }
    ensures keeps { L.is_told engine.old.link ≡ true → StoresOnly (has_log (given_by_rules engine.old))
        (L.store engine.old.link) (L.store engine.new.link) }
    ensures given { (given_by_rules engine.new) ≡ (given_by_rules engine.old) }
    ensures told { L.is_told engine.new.link ≡ L.is_told engine.old.link }
    ensures count { L.faults engine.old.link ≤ L.faults engine.new.link }
{
    let Some(notice) = call(alloc, engine, hand, line.act)? else {
        return Ok(());
    };
    let line = line.line;
    remarks.push(Remark { line, notice })?;
    Ok(())
}

/// Plays all lines. Fails when out of memory.
fn play_lines<'a, L: Link>(
    alloc: Global,
    engine: &mut Engine<'a, L>,
    hand: &mut Hand<'a>,
    remarks: &mut Vec<Remark>,
    lines: &[PlayLine],
) -> Result<(), AllocError>
    requires { ArePlayable lines.now }
    ensures ok { OnOk result ((jobs : List PlainJob)
        → HasInHand (given_by_rules engine.old) engine.old.journal.events jobs hand.old
        → LeadTo (L.is_told engine.old.link) (given_by_rules engine.old) (record {
          history = engine.old.journal.events;
          hand = jobs;
          remarks = remarks.old.items;
        }) lines.now (moment (L.store engine.old.link) (L.faults engine.old.link))
        (moment (L.store engine.new.link) (L.faults engine.new.link))
        engine.new.journal.events hand.new remarks.new.items) }
    ensures err { OnErr result ((jobs : List PlainJob)
        → HasInHand (given_by_rules engine.old) engine.old.journal.events jobs hand.old
        → StopsIn (L.is_told engine.old.link) (given_by_rules engine.old) (record {
          history = engine.old.journal.events;
          hand = jobs;
          remarks = remarks.old.items;
        }) lines.now (moment (L.store engine.old.link) (L.faults engine.old.link))
        (moment (L.store engine.new.link) (L.faults engine.new.link))
        engine.new.journal.events) }
    ensures keeps { L.is_told engine.old.link ≡ true → StoresOnly (has_log (given_by_rules engine.old))
        (L.store engine.old.link) (L.store engine.new.link) }
    ensures given { (given_by_rules engine.new) ≡ (given_by_rules engine.old) }
    ensures told { L.is_told engine.new.link ≡ L.is_told engine.old.link }
    ensures count { L.faults engine.old.link ≤ L.faults engine.new.link }
{
    for line in lines {
        play_line(alloc, engine, hand, remarks, line)?;
    }
    Ok(())
}

/// Plays the lines on an engine without events. Jobs that are in hand at the end are given up.
fn play_on<L: Link>(alloc: Global, mut engine: Engine<'_, L>, lines: &[PlayLine]) -> Played<L>
    requires empty { engine.journal.events ≡ [] }
    requires playable { ArePlayable lines.now }
    ensures kept { IsKept (given_by_rules engine.entry) (L.store engine.entry.link) (L.store result.link)
        result.journal.events }
    ensures played { IsPlayed (λ remarks. remarks.items) (L.is_told engine.entry.link)
        (given_by_rules engine.entry) lines.now
        (moment (L.store engine.entry.link) (L.faults engine.entry.link))
        (moment (L.store result.link) (L.faults result.link)) result.journal.events result.remarks }
{
    let mut hand = Hand::new(alloc);
    let mut remarks = Vec::new(alloc);
    let played = play_lines(alloc, &mut engine, &mut hand, &mut remarks, lines);
    hand.abandon();
    match played {
        Ok(()) => left(engine, Ok(remarks)),
        Err(fault) => left(engine, Err(fault)),
    }
}

/// What an engine leaves, with these remarks.
fn left<L: Link>(engine: Engine<'_, L>, remarks: Result<Vec<Remark>, AllocError>) -> Played<L>
    ensures remarks { result.remarks ≡ remarks }
    ensures journal { result.journal ≡ engine.entry.journal }
    ensures link { result.link ≡ engine.entry.link }
    ensures told { engine.entry.is_told ≡ L.is_told engine.entry.link }
    ensures kept { IsKept (given_by_rules engine.entry) (L.store engine.entry.link) (L.store result.link)
        result.journal.events }
{
    let (journal, link) = engine.into_parts();
    Played {
        remarks,
        journal,
        link,
    }
}

/// Plays the lines over these logs, with a setup.
pub fn play<L: Link>(
    alloc: Global,
    setup: &Setup,
    logs: &BrokerLogs<'_>,
    lines: &[PlayLine],
    link: L,
) -> Played<L>
    requires playable { ArePlayable lines.now }
    ensures kept { let given = given_by setup.now logs.now [] (L.is_told link) outcome_of (kept_for (L.store link)) in
        IsKept given (L.store link) (L.store result.link) result.journal.events }
    ensures played { let given = given_by setup.now logs.now [] (L.is_told link) outcome_of (kept_for (L.store link)) in
        IsPlayed (λ remarks. remarks.items) (L.is_told link) given lines.now
        (moment (L.store link) (L.faults link))
        (moment (L.store result.link) (L.faults result.link)) result.journal.events result.remarks }
{
    match Engine::start(alloc, setup, logs, link) {
        Ok(engine) => play_on(alloc, engine, lines),
        Err(link) => unplayed(alloc, link),
    }
}

/// What there is when out of memory for an engine.
fn unplayed<L: Link>(alloc: Global, link: L) -> Played<L>
    ensures link { result.link ≡ link }
    ensures journal { result.journal.events ≡ [] }
    ensures remarks { IsErr result.remarks }
{
    Played {
        remarks: Err(AllocError),
        journal: Journal::new(alloc),
        link,
    }
}

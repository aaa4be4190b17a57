//! Which records of a part are next, and what a poll of them changes.

ghost use Rattle.std.specs.Prelude.{◌≡◌, ◌≤◌, ◌<◌, ◌+◌, ◌-◌, ◌^◌, ◌++◌, ℕ, List, [], ◌∷◌, Option, true, false, None, Some, IfOk, IfSome, OnOk, OnErr, length, map, filter, take, if◌then◌else◌, option_map, slice_get, unwrap_or};
ghost use Rattle.std.specs.List.{All};
ghost use Rattle.std.specs.Option.{option_map_or};
ghost use Rattle.pc_model.specs.declared.event.Event.{Event};
ghost use Rattle.pc_model.specs.declared.event.Event.TheVariants.{Poll};
ghost use Rattle.pc_model.specs.Record.{Record};
ghost use Rattle.pc_model.specs.Given.{Given};
ghost use Rattle.pc_model.specs.BestMap.{is_pressed};
ghost use Rattle.pc_model.specs.Epochs.{is_held};
ghost use Rattle.pc_model.specs.Known.{high_of, unpolled_records};
ghost use Rattle.pc_model.specs.Pressure.{is_blocked};
ghost use Rattle.pc_state.specs.Calls.{next_records};
ghost use Rattle.pc_model.specs.Marks.{Mark};
ghost use Rattle.pc_partition.specs.Window.{AreNext, RisesFrom, StandsFor, open_polled};
ghost use Rattle.pc_batch.specs.Record.{plain};
ghost use Rattle.pc_shards.specs.Entries.{ChangesNothing, ChangesOnly, of_part};
ghost use Rattle.pc_state.specs.Polls.{AreNextRecords, AreTaken, IsPolled, IsSameHeld, is_open_in, new_entries};
ghost use Rattle.pc_state.specs.State.{Knows, MayCome};

use crate::part::HeldPart;
use crate::state::State;
use crate::unread::Unread;
use pc_batch::RecordRef;
use pc_broker_log::Polled;
use pc_choice::pressed;
use pc_model::Setup;
use pc_model::limits::MAX_RECORDS;
use pc_partition::PartitionState;
use pc_shards::Shards;
use std::alloc::{AllocError, Global};

/// What a poll took.
#[derive(Clone, Copy, Debug, PartialEq, Eq)]
pub struct Taken {
    /// How many records.
    pub count: u32,
    /// The offset of the last of them, or 0 where there is none.
    pub last: u64,
}

impl HeldPart<'_> {
    /// Whether the last commit since the assignment takes more than its share of the limit.
    pub fn is_blocked(&self, setup: &Setup) -> bool
        ensures { result ≡ option_map_or (λ size.
            is_pressed size setup.now.settings.map_limit setup.now.settings.press_percent) self.now.size false }
    {
        match self.size {
            Some(size) => pressed(size, setup.settings.map_limit, setup.settings.press_percent),
            None => false,
        }
    }
}

impl<'a> State<'a> {
    /// The offset of the first record of a held part that was not polled.
    pub fn first_left(&self, part: u32) -> Option<u64>
        ensures { (given : Given) (h : List Event) → Knows given h self.now
            → is_held h part ≡ true
            → result ≡ option_map (λ r. r.offset) (slice_get (unpolled_records given h part) 0) }
    {
        self.held(part)?.rest.first()
    }

    /// The greatest complete offset of a held part that is blocked.
    pub fn pressing(&self, part: u32) -> Option<u64>
        ensures { (given : Given) (h : List Event) → Knows given h self.now
            → is_held h part ≡ true
            → result ≡ (if is_blocked given h part then high_of given h part else None) }
    {
        let held = self.held(part)?;
        if held.is_blocked(self.setup) {
            held.window.high()
        } else {
            None
        }
    }

    /// Polls the next records of a held part, at most `max`, under pressure none above its greatest
    /// complete offset. The only error is out of memory, after which the state is as before.
    pub fn poll(&mut self, alloc: Global, part: u32, max: u32) -> Result<Taken, AllocError>
        requires held { (given : Given) × (h : List Event) × Knows given h self.old
            × (is_held h part ≡ true) }
        requires few { max ≤ MAX_RECORDS }
        ensures taken { IfOk result (λ taken. (given : Given) (h : List Event)
            → Knows given h self.old → is_held h part ≡ true
            → AreTaken (next_records given h part max) taken) }
        ensures polled { IfOk result (λ taken. (given : Given) (h : List Event)
            → Knows given h self.old → is_held h part ≡ true
            → MayCome given (Poll part taken.count taken.last) h
            → Knows given (Poll part taken.count taken.last ∷ h) self.new) }
        ensures stays { OnErr result ((given : Given) (h : List Event) → Knows given h self.old
            → Knows given h self.new) }
    {
        let Some(next) = self.next_records(part, max) else {
            unreachable!();
        };
        let most = self.most(part, max);
        self.shards.reserve(part, most)?;
        let Some(held) = &mut self.parts[part as usize].held else {
            unreachable!();
        };
        poll_held(alloc, held, &mut self.shards, part, next)
    }

    /// The next records of a held part, at most `max`, under pressure none above its greatest
    /// complete offset.
    fn next_records(&self, part: u32, max: u32) -> Option<Polled<'a>>
        ensures next { IfSome result (λ next. (given : Given) (h : List Event)
            → Knows given h self.now → is_held h part ≡ true
            → next.left ≡ next_records given h part max) }
        ensures are { IfSome result (λ next. (given : Given) (h : List Event)
            → Knows given h self.now → is_held h part ≡ true
            → AreNextRecords given h part next.left) }
        ensures log { IfSome result (λ next. (given : Given) (h : List Event)
            → Knows given h self.now → is_held h part ≡ true
            → next.log ≡ unpolled_records given h part) }
        ensures few { IfSome result (λ next. length next.left ≤ max) }
        ensures free { result ≡ None → (given : Given) (h : List Event) → Knows given h self.now
            → is_held h part ≡ false }
    {
        let upto = self.pressing(part).unwrap_or(u64::MAX);
        let held = self.held(part)?;
        Some(Polled::new(held.rest.again(), max, upto))
    }

    /// How many records a poll can take at most: no more than the log has.
    fn most(&self, part: u32, max: u32) -> u32 {
        match self.logs.log(part) {
            Some(log) => log.records().min(u64::from(max)) as u32,
            None => 0,
        }
    }
}

/// Polls these records of a held part: those that are open are added to the shards, and all to the
/// window. The only error is out of memory, after which the same is known and added as before.
fn poll_held<'a>(
    alloc: Global,
    held: &mut HeldPart<'a>,
    shards: &mut Shards<'a>,
    part: u32,
    next: Polled<'a>,
) -> Result<Taken, AllocError>
    requires log { next.log ≡ held.old.rest.left }
    requires rises { RisesFrom held.old.window.window.polled_to (map (λ r. r.offset) next.left) }
    requires next { (begin n : ℕ) × (marks : List Mark)
        × StandsFor held.old.window.window begin n marks
        × AreNext n marks (map (λ r. r.offset) next.left) }
    requires few { open_polled held.old.window.window + length next.left < 2 ^ 32 }
    requires above { All (λ r. All (λ e. e.record.offset < r.offset) (of_part shards.old part)) next.left }
    ensures taken { IfOk result (λ taken. AreTaken next.entry.left taken) }
    ensures held { OnOk result (IsPolled (map (λ r. r.offset) next.entry.left) held.old held.new) }
    ensures added { OnOk result (of_part shards.new part ≡ of_part shards.old part
        ++ new_entries (filter (λ r. is_open_in held.old.window.window r.offset) next.entry.left)) }
    ensures others { OnOk result (ChangesOnly part shards.old shards.new) }
    ensures same { OnErr result (IsSameHeld held.old held.new) }
    ensures nothing { OnErr result (ChangesNothing shards.old shards.new) }
{
    let count = shards.count(part);
    match take_in(alloc, held, shards, part, next) {
        Ok(taken) => Ok(taken),
        Err(error) => {
            shards.truncate(part, count);
            Err(error)
        }
    }
}

/// As `poll_held`, but when out of memory some of the records were added to the shards.
fn take_in<'a>(
    alloc: Global,
    held: &mut HeldPart<'a>,
    shards: &mut Shards<'a>,
    part: u32,
    next: Polled<'a>,
) -> Result<Taken, AllocError>
    requires log { next.log ≡ held.old.rest.left }
    requires rises { RisesFrom held.old.window.window.polled_to (map (λ r. r.offset) next.left) }
    requires next { (begin n : ℕ) × (marks : List Mark)
        × StandsFor held.old.window.window begin n marks
        × AreNext n marks (map (λ r. r.offset) next.left) }
    requires few { open_polled held.old.window.window + length next.left < 2 ^ 32 }
    requires above { All (λ r. All (λ e. e.record.offset < r.offset) (of_part shards.old part)) next.left }
    ensures taken { IfOk result (λ taken. AreTaken next.entry.left taken) }
    ensures held { OnOk result (IsPolled (map (λ r. r.offset) next.entry.left) held.old held.new) }
    ensures added { OnOk result (of_part shards.new part ≡ of_part shards.old part
        ++ new_entries (filter (λ r. is_open_in held.old.window.window r.offset) next.entry.left)) }
    ensures others { ChangesOnly part shards.old shards.new }
    ensures same { OnErr result (IsSameHeld held.old held.new) }
    ensures front { take (length (of_part shards.old part)) (of_part shards.new part)
        ≡ of_part shards.old part }
{
    let mut left = next;
    let mut offsets = Vec::new(alloc);
    'records: while let Some(record) = left.next() {
        add_open(shards, &held.window, part, record)?;
        offsets.push(record.offset)?;
    }
    held.window.polled(&offsets)?;
    held.rest = Unread::new(left.rest());
    Ok(Taken {
        count: offsets.len() as u32,
        last: last_of(&offsets),
    })
}

/// Adds a record that is incomplete or new, and no other.
fn add_open<'a>(
    shards: &mut Shards<'a>,
    window: &PartitionState,
    part: u32,
    record: RecordRef<'a>,
) -> Result<(), AllocError>
    requires { All (λ e. e.record.offset < record.offset) (of_part shards.old part) }
    ensures added { OnOk result (of_part shards.new part ≡ of_part shards.old part ++ new_entries
        (filter (λ r. is_open_in window.now.window r.offset) (plain record.entry ∷ []))) }
    ensures others { OnOk result (ChangesOnly part shards.old shards.new) }
    ensures stays { OnErr result (ChangesNothing shards.old shards.new) }
{
    if window.is_open(record.offset) {
        return shards.add_record(part, record);
    }
    Ok(())
}

/// The last offset, or 0 where there is none.
fn last_of(offsets: &[u64]) -> u64
    ensures { result ≡ unwrap_or (slice_get offsets.now (length offsets.now - 1)) 0 }
{
    offsets.last().copied().unwrap_or(0)
}

//! The shards. Clauses see the order, and the entries of each part in the order in which they were
//! added.

ghost use Rattle.std.specs.Prelude.{◌≡◌, ℕ, ◌+◌, ◌<◌, ◌^◌, ◌++◌, ◌∷◌, [], false, true, OnErr, OnOk, ◌-◌, length, option_map, slice_get, take};
ghost use Rattle.std.specs.List.{All};
ghost use Rattle.std.specs.Option.{option_copied};
ghost use Rattle.pc_batch.specs.Record.{plain};
ghost use Rattle.pc_shards.specs.Part.{EachAt, plain as plain_entry};
ghost use Rattle.pc_shards.specs.Shards.{HasRoomAt, KeepsParts};
ghost use Rattle.pc_shards.specs.Entries.{BusyAreFirst, ChangesNothing, ChangesOnly, bare_record, entry_at, has_entry_at, is_first_offset, least_ready_of, new_entry, of_part, with_busy, with_failure, without};

use crate::part::{EntryRef, Part};
use crate::shard_key::ShardKey;
use pc_batch::{Headers, RecordRef};
use pc_model::Order;
use std::alloc::{AllocError, Global};
use std::marker::Model;

/// The polled, incomplete records of all parts by their ordering keys. The key bytes are lent.
///
/// An offset is ready where it is the first of its ordering key and not busy.
#[derive(Drop)]
pub struct Shards<'a> {
    alloc: Global,
    order: Order,
    // The parts from 0 on.
    parts: Vec<Part<'a>>,
}

impl<'a> Model for Shards<'a> {
    ghost use Rattle.pc_shards.specs.Entries.{Entries};
    ghost use Rattle.pc_shards.specs.Shards.{IsShards, all_entries};

    ghost Value = { Entries };

    ghost view = { λ s. record { order = s.order; parts = all_entries s.parts.items } };

    ghost invariant = { λ s. IsShards s.order s.parts.items };
}

impl<'a> Shards<'a> {
    /// No part has an entry.
    pub fn new(alloc: Global, order: Order) -> Shards<'a>
        ensures order { result.order ≡ order }
        ensures empty { (p : ℕ) → of_part result p ≡ [] }
    {
        Shards {
            alloc,
            order,
            parts: Vec::new(alloc),
        }
    }

    /// Adds a record with nothing but its offset and its key: it has the time 0, a
    /// null value and no headers. As `add_record` otherwise.
    pub fn add(&mut self, part: u32, offset: u64, key: Option<&'a [u8]>) -> Result<(), AllocError>
        requires { All (λ e. e.record.offset < offset) (of_part self.old part) }
        ensures added { OnOk result (of_part self.new part ≡ of_part self.old part
            ++ new_entry (bare_record offset (option_copied key.entry)) ∷ []) }
        ensures others { OnOk result (ChangesOnly part self.old self.new) }
        ensures stays { OnErr result (ChangesNothing self.old self.new) }
    {
        let bare = RecordRef {
            offset,
            time: 0,
            key,
            value: None,
            headers: Headers::none(),
        };
        self.add_record(part, bare)
    }

    /// Adds a record that was polled and is incomplete, above all of its part that are there. It
    /// did not fail and is not busy. Makes the room that the other calls need. Fails when out of
    /// memory, and changes nothing then.
    pub fn add_record(&mut self, part: u32, added: RecordRef<'a>) -> Result<(), AllocError>
        requires { All (λ e. e.record.offset < added.offset) (of_part self.old part) }
        ensures added { OnOk result (of_part self.new part
            ≡ of_part self.old part ++ new_entry (plain added.entry) ∷ []) }
        ensures others { OnOk result (ChangesOnly part self.old self.new) }
        ensures stays { OnErr result (ChangesNothing self.old self.new) }
    {
        make_room(&mut self.parts, self.alloc, part as usize, 1)?;
        self.parts[part as usize].add(self.order, added)?;
        Ok(())
    }

    /// Makes room for `more` entries of the part. A call of `add_record` makes room for its own,
    /// but many of them move the entries fewer times after this. Fails when out of memory.
    pub fn reserve(&mut self, part: u32, more: u32) -> Result<(), AllocError>
        ensures { ChangesNothing self.old self.new }
    {
        make_room(&mut self.parts, self.alloc, part as usize, more)
    }

    /// Takes out all entries of the part but the first `count`, busy or not. Takes no memory.
    pub fn truncate(&mut self, part: u32, count: usize)
        ensures front { of_part self.new part ≡ take count (of_part self.old part) }
        ensures others { ChangesOnly part self.old self.new }
    {
        'cut: while count < self.count(part) {
            self.pop(part);
        }
    }

    /// The entry at the offset, if the part has one.
    pub fn entry(&self, part: u32, offset: u64) -> Option<EntryRef<'a>>
        ensures { option_map plain_entry result ≡ entry_at offset (of_part self.now part) }
    {
        self.parts.as_slice().get(part as usize)?.entry(offset)
    }

    /// The first entry of the part, which has its least offset.
    pub fn first(&self, part: u32) -> Option<EntryRef<'a>>
        ensures { option_map plain_entry result ≡ slice_get (of_part self.now part) 0 }
    {
        let state = self.parts.as_slice().get(part as usize)?;
        state.entries.front().copied()
    }

    /// The least offset of the part that is the first of its ordering key and not busy. Of an
    /// ordering key no other than the first is busy.
    pub fn least_ready(&self, part: u32) -> Option<u64>
        ensures least { result ≡ least_ready_of self.now.order part (of_part self.now part) }
        ensures singly { BusyAreFirst self.now.order part (of_part self.now part) }
    {
        let state = self.parts.as_slice().get(part as usize)?;
        state.ready.least()
    }

    /// Makes an offset busy that is the first of its ordering key, so that no other of the key is
    /// ready before it is free or done. Takes no memory.
    pub fn busy(&mut self, part: u32, offset: u64)
        requires { is_first_offset self.old.order part (of_part self.old part) offset ≡ true }
        ensures busy { of_part self.new part ≡ with_busy offset true (of_part self.old part) }
        ensures others { ChangesOnly part self.old self.new }
    {
        self.parts[part as usize].busy(offset);
    }

    /// Makes an entry of the part ready again, if it is busy. Takes no memory.
    pub fn free(&mut self, part: u32, offset: u64)
        requires { has_entry_at offset (of_part self.old part) ≡ true }
        ensures free { of_part self.new part ≡ with_busy offset false (of_part self.old part) }
        ensures others { ChangesOnly part self.old self.new }
    {
        self.parts[part as usize].free(offset);
    }

    /// Counts one more failure of an offset that is the first of its ordering key and failed fewer
    /// than 2^32 - 1 times. It stays busy or ready as it is. Takes no memory.
    pub fn fail(&mut self, part: u32, offset: u64)
        requires first { is_first_offset self.old.order part (of_part self.old part) offset
            ≡ true }
        requires fits { EachAt offset (of_part self.old part) (λ e. e.failures + 1 < 2 ^ 32) }
        ensures failed { of_part self.new part ≡ with_failure offset (of_part self.old part) }
        ensures others { ChangesOnly part self.old self.new }
    {
        self.parts[part as usize].fail(offset);
    }

    /// Takes out an offset that is the first of its ordering key, and is busy or not. The next of
    /// the key is ready then. Takes no memory.
    pub fn done(&mut self, part: u32, offset: u64)
        requires { is_first_offset self.old.order part (of_part self.old part) offset ≡ true }
        ensures done { of_part self.new part ≡ without offset (of_part self.old part) }
        ensures others { ChangesOnly part self.old self.new }
    {
        let state = &mut self.parts[part as usize];
        let key = state.take(offset);
        if let Some(next) = state.advance(self.order, ShardKey { bytes: key }) {
            state.make_ready(next);
        }
    }

    /// Takes out all of the part. Takes no memory.
    pub fn drop_part(&mut self, part: u32)
        ensures dropped { of_part self.new part ≡ [] }
        ensures others { ChangesOnly part self.old self.new }
    {
        let Some(state) = self.parts.get_mut(part as usize) else {
            return;
        };
        *state = Part::new(self.alloc);
    }

    /// Takes out all of every part. Takes no memory.
    pub fn clear(&mut self)
        ensures order { self.new.order ≡ self.old.order }
        ensures empty { (p : ℕ) → of_part self.new p ≡ [] }
    {
        *self = Shards::new(self.alloc, self.order);
    }

    /// How many entries the part has.
    pub fn count(&self, part: u32) -> usize
        ensures { result ≡ length (of_part self.now part) }
    {
        let Some(state) = self.parts.as_slice().get(part as usize) else {
            return 0;
        };
        state.entries.len()
    }

    /// Takes out the last entry of the part.
    fn pop(&mut self, part: u32)
        requires { 0 < length (of_part self.old part) }
        ensures popped { of_part self.new part
            ≡ take (length (of_part self.old part) - 1) (of_part self.old part) }
        ensures others { ChangesOnly part self.old self.new }
    {
        let state = &mut self.parts[part as usize];
        let entry = state.pop();
        let key = entry.record.key;
        state.retract(self.order, ShardKey { bytes: key });
    }
}

/// Makes room for `more` entries of the part at this place, and for one at least.
fn make_room<'a>(
    parts: &mut Vec<Part<'a>>,
    alloc: Global,
    at: usize,
    more: u32,
) -> Result<(), AllocError>
    ensures kept { KeepsParts parts.old.items parts.new.items }
    ensures made { OnOk result (HasRoomAt at parts.new.items) }
{
    'grow: while parts.as_slice().len() <= at {
        parts.push(Part::new(alloc))?;
    }
    parts[at].reserve(more)
}

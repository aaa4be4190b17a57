//! The entries of one part in rising order of offsets, and beside them the offsets that are ready.
//! Clauses see the entries by `plain_entries`.

ghost use Rattle.std.specs.Prelude.{◌≡◌, ◌+◌, ◌-◌, ◌<◌, ◌≤◌, ◌^◌, ◌++◌, ◌∷◌, [], false, true, length, if◌then◌else◌, option_map, slice_get, slice_index_or, drop, take, IfOk, OnErr, OnOk};
ghost use Rattle.std.specs.VecDeque.{deque_capacity, deque_len};
ghost use Rattle.std.specs.List.{AllWithin};
ghost use Rattle.std.specs.Option.{option_copied};
ghost use Rattle.pc_shards.specs.declared.part.EntryRef.{EntryRef};
ghost use Rattle.pc_shards.specs.Entries.{entry_at, with_busy, with_failure, without};
ghost use Rattle.pc_model.specs.declared.choices.Order.TheVariants.{Key as ByKey};
ghost use Rattle.pc_shards.specs.declared.shard_key.ShardKey.{ShardKey};
ghost use Rattle.pc_shards.specs.Part.{EachAt, Holds, Keeps, is_alone, next_of, offsets_of, plain, plain_entries};
ghost use Rattle.pc_shards.specs.Queues.{queue_of};
ghost use Rattle.pc_shards.specs.ShardKey.{is_same};
ghost use Rattle.pc_shards.specs.Rising.{In, Rises, but, put};

use crate::queues::Queues;
use crate::ready::Ready;
use crate::shard_key::ShardKey;
use pc_batch::RecordRef;
use pc_model::Order;
use std::alloc::{AllocError, Global};
use std::collections::VecDeque;

/// A polled, incomplete record: how often it failed, and whether it is busy.
#[derive(Clone, Copy, Debug)]
pub struct EntryRef<'a> {
    pub record: RecordRef<'a>,
    pub failures: u32,
    pub is_busy: bool,
}

/// The entries of a part, and which of them are ready.
#[derive(Drop)]
pub struct Part<'a> {
    /// In rising order of offsets.
    pub entries: VecDeque<EntryRef<'a>>,
    /// The offsets that are the first of their ordering key and not busy. There is a place for
    /// every entry.
    pub ready: Ready,
    /// The offsets of each key where records are ordered by key, and empty otherwise.
    pub queues: Queues<'a>,
}

impl<'a> Part<'a> {
    /// A part without entries. Takes no memory.
    pub fn new(alloc: Global) -> Part<'a>
        ensures entries { result.entries.items ≡ [] }
        ensures ready { result.ready.offsets ≡ [] }
        ensures queues { (k : ShardKey) → queue_of result.queues k ≡ [] }
    {
        Part {
            entries: VecDeque::new(alloc),
            ready: Ready::new(alloc),
            queues: Queues::new(alloc),
        }
    }

    /// Makes room for `more` entries, and for one at least.
    pub fn reserve(&mut self, more: u32) -> Result<(), AllocError>
        ensures entries { self.new.entries.items ≡ self.old.entries.items }
        ensures queues { self.new.queues ≡ self.old.queues }
        ensures ready { self.new.ready.offsets ≡ self.old.ready.offsets }
        ensures places { OnOk result (deque_len self.new.entries < deque_capacity self.new.entries) }
        ensures room { OnOk result (deque_len self.new.entries < self.new.ready.places) }
        ensures capacity { self.old.ready.places ≤ self.new.ready.places }
    {
        let more = more.max(1) as usize;
        self.entries.reserve(more)?;
        self.ready.reserve(self.entries.len() + more)
    }

    /// Adds an entry at the end, for which room was made in both vectors. Fails when out of memory
    /// for the queue of its key.
    pub fn add(&mut self, order: Order, added: RecordRef<'a>) -> Result<(), AllocError>
        requires places { deque_len self.old.entries < deque_capacity self.old.entries }
        requires room { length self.old.ready.offsets < self.old.ready.places }
        requires rises { Rises self.old.ready.offsets }
        requires absent { In added.offset self.old.ready.offsets → ⊥ }
        ensures entries { OnOk result (self.new.entries.items ≡ self.old.entries.items
            ++ record { «record» = added.entry; failures = 0; is_busy = false } ∷ []) }
        ensures ready { OnOk result (self.new.ready.offsets ≡ (if is_alone order
            (length self.old.entries.items) (queue_of self.old.queues
            (record { bytes = added.entry.key }))
            then put added.entry.offset self.old.ready.offsets else self.old.ready.offsets)) }
        ensures queue { OnOk result (order ≡ ByKey
            → queue_of self.new.queues (record { bytes = added.entry.key })
            ≡ queue_of self.old.queues (record { bytes = added.entry.key })
            ++ added.entry.offset ∷ []) }
        ensures others { OnOk result ((k : ShardKey)
            → is_same (record { bytes = added.entry.key }) k ≡ false
            → queue_of self.new.queues k ≡ queue_of self.old.queues k) }
        ensures stays { OnErr result (Keeps self.old self.new) }
        ensures capacity { self.old.ready.places ≤ self.new.ready.places }
    {
        let key = ShardKey { bytes: added.key };
        let is_ready = self.enqueue(order, key, added.offset)?;
        self.push(added, is_ready);
        Ok(())
    }

    /// Puts an offset at the end of the key's queue where records are ordered by key. Tells whether
    /// no other record of the ordering key is there.
    fn enqueue(&mut self, order: Order, key: ShardKey<'a>, offset: u64) -> Result<bool, AllocError>
        ensures alone { IfOk result (λ is_ready. is_ready ≡ is_alone order
            (length self.old.entries.items) (queue_of self.old.queues key.entry)) }
        ensures entries { self.new.entries ≡ self.old.entries }
        ensures ready { self.new.ready ≡ self.old.ready }
        ensures queue { OnOk result (order ≡ ByKey → queue_of self.new.queues key.entry
            ≡ queue_of self.old.queues key.entry ++ offset ∷ []) }
        ensures others { OnOk result ((k : ShardKey) → is_same key.entry k ≡ false
            → queue_of self.new.queues k ≡ queue_of self.old.queues k) }
        ensures stays { OnErr result ((k : ShardKey)
            → queue_of self.new.queues k ≡ queue_of self.old.queues k) }
    {
        match order {
            Order::None => Ok(true),
            Order::Partition => Ok(self.entries.is_empty()),
            Order::Key => self.queues.push(key, offset),
        }
    }

    /// Takes the first offset out of the key's queue where records are ordered by key. Gives the
    /// next offset of the ordering key, whose first was taken out of the entries.
    pub fn advance(&mut self, order: Order, key: ShardKey<'a>) -> Option<u64>
        ensures next { result ≡ next_of order (offsets_of (plain_entries self.old.entries.items))
            (queue_of self.new.queues key.entry) }
        ensures entries { self.new.entries ≡ self.old.entries }
        ensures ready { self.new.ready ≡ self.old.ready }
        ensures queue { order ≡ ByKey → queue_of self.new.queues key.entry
            ≡ drop 1 (queue_of self.old.queues key.entry) }
        ensures others { (k : ShardKey) → is_same key.entry k ≡ false
            → queue_of self.new.queues k ≡ queue_of self.old.queues k }
    {
        match order {
            Order::None => None,
            Order::Partition => self.least(),
            Order::Key => self.queues.pop(key),
        }
    }

    /// Takes the last offset out of the key's queue where records are ordered by key.
    pub fn retract(&mut self, order: Order, key: ShardKey<'a>)
        ensures entries { self.new.entries ≡ self.old.entries }
        ensures ready { self.new.ready ≡ self.old.ready }
        ensures queue { order ≡ ByKey → queue_of self.new.queues key.entry
            ≡ take (length (queue_of self.old.queues key.entry) - 1)
            (queue_of self.old.queues key.entry) }
        ensures others { (k : ShardKey) → is_same key.entry k ≡ false
            → queue_of self.new.queues k ≡ queue_of self.old.queues k }
    {
        match order {
            Order::None => {}
            Order::Partition => {}
            Order::Key => self.queues.pop_back(key),
        }
    }

    /// The least offset.
    fn least(&self) -> Option<u64>
        ensures { result ≡ slice_get (offsets_of (plain_entries self.now.entries.items)) 0 }
    {
        let first = self.entries.front()?;
        Some(first.record.offset)
    }

    /// Puts an entry at the end, for which room was made, and its offset where it is ready.
    fn push(&mut self, added: RecordRef<'a>, is_ready: bool)
        requires places { deque_len self.old.entries < deque_capacity self.old.entries }
        requires room { length self.old.ready.offsets < self.old.ready.places }
        requires rises { Rises self.old.ready.offsets }
        requires absent { In added.offset self.old.ready.offsets → ⊥ }
        ensures queues { self.new.queues ≡ self.old.queues }
        ensures entries { self.new.entries.items ≡ self.old.entries.items
            ++ record { «record» = added.entry; failures = 0; is_busy = false } ∷ [] }
        ensures ready { self.new.ready.offsets ≡ (if is_ready
            then put added.entry.offset self.old.ready.offsets else self.old.ready.offsets) }
        ensures capacity { self.old.ready.places ≤ self.new.ready.places }
    {
        self.entries.push_back_reserved(EntryRef {
            record: added,
            failures: 0,
            is_busy: false,
        });
        if is_ready {
            self.ready.push(added.offset);
        }
    }

    /// The entry at the offset.
    pub fn entry(&self, offset: u64) -> Option<EntryRef<'a>>
        requires { Rises (offsets_of (plain_entries self.now.entries.items)) }
        ensures { option_map plain result ≡ entry_at offset (plain_entries self.now.entries.items) }
    {
        let at = self.count_below(offset);
        let entry = self.entries.get(at)?;
        if entry.record.offset == offset {
            Some(*entry)
        } else {
            None
        }
    }

    /// Counts one more failure of the offset.
    pub fn fail(&mut self, offset: u64)
        requires holds { Holds offset self.old }
        requires fits { EachAt offset (plain_entries self.old.entries.items)
            (λ e. e.failures + 1 < 2 ^ 32) }
        ensures entries { plain_entries self.new.entries.items
            ≡ with_failure offset (plain_entries self.old.entries.items) }
        ensures queues { self.new.queues ≡ self.old.queues }
        ensures ready { self.new.ready ≡ self.old.ready }
    {
        let at = self.place(offset);
        let entry = self.entries[at];
        self.entries[at] = EntryRef {
            failures: entry.failures + 1,
            ..entry
        };
    }

    /// Makes the offset busy, which is not ready then.
    pub fn busy(&mut self, offset: u64)
        requires { Holds offset self.old }
        ensures queues { self.new.queues ≡ self.old.queues }
        ensures entries { plain_entries self.new.entries.items
            ≡ with_busy offset true (plain_entries self.old.entries.items) }
        ensures ready { self.new.ready.offsets ≡ but offset self.old.ready.offsets }
        ensures capacity { self.old.ready.places ≤ self.new.ready.places }
    {
        let was_busy = self.set_busy(offset, true);
        self.unready(offset, was_busy);
    }

    /// Makes the offset free, which is ready then if it was busy.
    pub fn free(&mut self, offset: u64)
        requires holds { Holds offset self.old }
        requires room { EachAt offset (plain_entries self.old.entries.items) (λ e. e.is_busy ≡ true)
            → length self.old.ready.offsets < self.old.ready.places }
        ensures queues { self.new.queues ≡ self.old.queues }
        ensures entries { plain_entries self.new.entries.items
            ≡ with_busy offset false (plain_entries self.old.entries.items) }
        ensures ready { EachAt offset (plain_entries self.old.entries.items) (λ e. e.is_busy ≡ true)
            → self.new.ready.offsets ≡ put offset self.old.ready.offsets }
        ensures same { EachAt offset (plain_entries self.old.entries.items) (λ e. e.is_busy ≡ false)
            → self.new.ready.offsets ≡ self.old.ready.offsets }
        ensures capacity { self.old.ready.places ≤ self.new.ready.places }
    {
        if self.set_busy(offset, false) {
            self.ready.push(offset);
        }
    }

    /// Takes the offset out, and gives its key.
    pub fn take(&mut self, offset: u64) -> Option<&'a [u8]>
        requires { Holds offset self.old }
        ensures queues { self.new.queues ≡ self.old.queues }
        ensures entries { plain_entries self.new.entries.items
            ≡ without offset (plain_entries self.old.entries.items) }
        ensures key { EachAt offset (plain_entries self.old.entries.items)
            (λ e. e.record.key ≡ option_copied result) }
        ensures ready { self.new.ready.offsets ≡ but offset self.old.ready.offsets }
        ensures capacity { self.old.ready.places ≤ self.new.ready.places }
    {
        let at = self.place(offset);
        let Some(entry) = self.entries.remove(at) else {
            unreachable!();
        };
        self.unready(offset, entry.is_busy);
        entry.record.key
    }

    /// Takes out the last entry, which is not ready then.
    pub fn pop(&mut self) -> EntryRef<'a>
        requires some { 0 < deque_len self.old.entries }
        requires rises { Rises self.old.ready.offsets }
        ensures queues { self.new.queues ≡ self.old.queues }
        ensures entries { self.old.entries.items ≡ self.new.entries.items ++ result ∷ [] }
        ensures ready { self.new.ready.offsets ≡ but result.record.offset self.old.ready.offsets }
        ensures capacity { self.old.ready.places ≤ self.new.ready.places }
    {
        let Some(entry) = self.entries.pop_back() else {
            unreachable!();
        };
        self.ready.remove(entry.record.offset);
        entry
    }

    /// Makes an offset ready that is not, for which there is a place.
    pub fn make_ready(&mut self, offset: u64)
        requires absent { In offset self.old.ready.offsets → ⊥ }
        requires rises { Rises self.old.ready.offsets }
        requires room { length self.old.ready.offsets < self.old.ready.places }
        ensures queues { self.new.queues ≡ self.old.queues }
        ensures entries { self.new.entries ≡ self.old.entries }
        ensures ready { self.new.ready.offsets ≡ put offset self.old.ready.offsets }
        ensures capacity { self.old.ready.places ≤ self.new.ready.places }
    {
        self.ready.push(offset);
    }

    /// Takes the offset out of the ready ones, where it is only if it was not busy.
    fn unready(&mut self, offset: u64, was_busy: bool)
        requires rises { Rises self.old.ready.offsets }
        requires apart { was_busy ≡ true → In offset self.old.ready.offsets → ⊥ }
        ensures queues { self.new.queues ≡ self.old.queues }
        ensures entries { self.new.entries ≡ self.old.entries }
        ensures ready { self.new.ready.offsets ≡ but offset self.old.ready.offsets }
        ensures capacity { self.old.ready.places ≤ self.new.ready.places }
    {
        if !was_busy {
            self.ready.remove(offset);
        }
    }

    /// Where the offset's entry stands.
    fn place(&self, offset: u64) -> usize
        requires { Holds offset self.now }
        ensures within { result < length self.now.entries.items }
        ensures place { (d : EntryRef)
            → (slice_index_or self.now.entries.items result d).record.offset ≡ offset }
    {
        self.count_below(offset)
    }

    /// How many entries are below the offset.
    fn count_below(&self, offset: u64) -> usize
        requires { Rises (offsets_of (plain_entries self.now.entries.items)) }
        ensures within { result ≤ length self.now.entries.items }
        ensures below { AllWithin (λ e. e.record.offset < offset) self.now.entries.items 0 result }
        ensures above { AllWithin (λ e. offset ≤ e.record.offset) self.now.entries.items result
            (length self.now.entries.items) }
    {
        self.entries
            .partition_point(|entry| entry.record.offset < offset)
    }

    /// Makes the offset's entry busy or not, and tells what it was.
    fn set_busy(&mut self, offset: u64, is_busy: bool) -> bool
        requires { Holds offset self.old }
        ensures queues { self.new.queues ≡ self.old.queues }
        ensures entries { plain_entries self.new.entries.items
            ≡ with_busy offset is_busy (plain_entries self.old.entries.items) }
        ensures was { EachAt offset (plain_entries self.old.entries.items)
            (λ e. e.is_busy ≡ result) }
        ensures ready { self.new.ready ≡ self.old.ready }
    {
        let at = self.place(offset);
        let entry = self.entries[at];
        self.entries[at] = EntryRef { is_busy, ..entry };
        entry.is_busy
    }
}

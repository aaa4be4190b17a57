//! The queue of retries. Clauses see the records that wait, in no order that counts, and for how
//! many more there is room, in all and of each part.

ghost use Rattle.std.specs.Prelude.{◌≡◌, ℕ, ◌+◌, ◌<◌, ◌≤◌, not, ◌==◌, [], ◌∷◌, OnOk, false, None, Some, filter, length, map};
ghost use Rattle.std.specs.Option.{option_map};
ghost use Rattle.std.specs.List.Sorted.{IsPermutation};
ghost use Rattle.pc_model.specs.Numbers.{least_of};
ghost use Rattle.pc_retry.specs.Waiting.{DropsPart, KeepsParts, KeepsRooms, due_retry, offsets_of, room_at, room_of};

use crate::offsets::Offsets;
use std::alloc::{AllocError, Global};
use std::cmp::Reverse;
use std::collections::BinaryHeap;
use std::marker::Model;

/// A record that waits. Retries are compared by time, then by part, then by offset.
#[derive(Clone, Copy, Debug, PartialEq, Eq, PartialOrd, Ord)]
pub struct Retry {
    /// When the record may run again.
    pub ready_at: u64,
    pub part: u32,
    pub offset: u64,
}

/// A queue of records that wait. The least by time, part and offset comes first, and the least
/// offset of each part is known.
#[derive(Drop)]
pub struct RetryQueue {
    alloc: Global,
    // The greatest of the reversed comparison is the least retry.
    heap: BinaryHeap<Reverse<Retry>>,
    // The offsets that wait of each part, from part 0 on.
    parts: Vec<Offsets>,
}

impl Model for RetryQueue {
    ghost use Rattle.std.specs.Prelude.{map, ◌-◌};
    ghost use Rattle.std.specs.BinaryHeap.{heap_items, heap_capacity, heap_len};
    ghost use Rattle.pc_retry.specs.Waiting.{IsQueue, Waiting};

    ghost Value = { Waiting };

    ghost view = { λ q. record {
      retries = map (λ r. r.0) (heap_items q.heap);
      room = heap_capacity q.heap - heap_len q.heap;
      rooms = map (λ offsets. offsets.room) q.parts.items;
    } };

    ghost invariant = { λ q. IsQueue (heap_items q.heap) q.parts.items };
}

impl RetryQueue {
    /// A queue in which none waits.
    pub fn new(alloc: Global) -> RetryQueue
        ensures { result.retries ≡ [] }
    {
        RetryQueue {
            alloc,
            heap: BinaryHeap::new(alloc),
            parts: Vec::new(alloc),
        }
    }

    /// Makes room for `n` more. Out of memory, the same ones wait.
    pub fn reserve(&mut self, n: u32) -> Result<(), AllocError>
        ensures room { OnOk result (n ≤ self.new.room) }
        ensures kept { self.old.room ≤ self.new.room }
        ensures rooms { self.new.rooms ≡ self.old.rooms }
        ensures retries { self.new.retries ≡ self.old.retries }
    {
        self.heap.reserve(n as usize)
    }

    /// Makes room for `n` more of the part. Out of memory, the same ones wait.
    pub fn reserve_part(&mut self, part: u32, n: u32) -> Result<(), AllocError>
        ensures room { OnOk result (n ≤ room_of self.new part) }
        ensures kept { self.new.room ≡ self.old.room }
        ensures rooms { KeepsRooms self.old self.new }
        ensures retries { self.new.retries ≡ self.old.retries }
    {
        make_room(&mut self.parts, self.alloc, part as usize, n)
    }

    /// Lets a record wait until `ready_at`, for which room was reserved, in all and of its part.
    /// Takes no memory.
    pub fn put(&mut self, ready_at: u64, part: u32, offset: u64)
        requires room { 0 < self.old.room }
        requires part { 0 < room_of self.old part }
        ensures retries { IsPermutation
            (record { ready_at = ready_at; part = part; offset = offset } ∷ self.old.retries)
            self.new.retries }
        ensures room { self.old.room ≤ self.new.room + 1 }
        ensures part_room { room_of self.old part ≤ room_of self.new part + 1 }
        ensures rooms { (p : ℕ) → (p == part) ≡ false → room_of self.new p ≡ room_of self.old p }
    {
        let retry = Retry {
            ready_at,
            part,
            offset,
        };
        let Ok(()) = self.heap.push(Reverse(retry)) else {
            unreachable!();
        };
        self.parts[part as usize].put(offset);
    }

    /// Takes out the part and the offset of the least by time, part and offset, where its time is
    /// not after `now`.
    pub fn due(&mut self, now: u64) -> Option<(u32, u64)>
        ensures due { result
            ≡ option_map (λ r. (r.part, r.offset)) (due_retry now self.old.retries) }
        ensures taken { (r : Retry) → due_retry now self.old.retries ≡ Some r
            → IsPermutation self.old.retries (r ∷ self.new.retries) }
        ensures stays { due_retry now self.old.retries ≡ None
            → self.new.retries ≡ self.old.retries }
        ensures room { self.old.room ≤ self.new.room }
        ensures rooms { KeepsRooms self.old self.new }
    {
        let Reverse(first) = self.heap.peek()?;
        if now < first.ready_at {
            return None;
        }
        let Reverse(first) = self.heap.pop()?;
        self.parts[first.part as usize].take(first.offset);
        Some((first.part, first.offset))
    }

    /// The least time until which one waits.
    pub fn next_time(&self) -> Option<u64>
        ensures { result ≡ least_of (map (λ r. r.ready_at) self.now.retries) }
    {
        let Reverse(first) = self.heap.peek()?;
        Some(first.ready_at)
    }

    /// The least offset of the part's records that wait.
    pub fn least(&self, part: u32) -> Option<u64>
        ensures { result ≡ least_of (offsets_of part self.now.retries) }
    {
        self.parts.as_slice().get(part as usize)?.least()
    }

    /// Takes out all records of the part, for which there is no room kept then.
    pub fn drop_part(&mut self, part: u32)
        ensures retries { IsPermutation (filter (λ r. not (r.part == part)) self.old.retries)
            self.new.retries }
        ensures room { self.old.room ≤ self.new.room }
        ensures rooms { (p : ℕ) → (p == part) ≡ false → room_of self.new p ≡ room_of self.old p }
    {
        self.heap.retain(|retry| retry.0.part != part);
        drop_offsets(&mut self.parts, self.alloc, part as usize);
    }

    /// Takes out all records. Takes no memory, and keeps the room but that of parts.
    pub fn clear(&mut self)
        ensures retries { self.new.retries ≡ [] }
        ensures room { self.old.room ≤ self.new.room }
    {
        self.heap.clear();
        self.parts.clear();
    }
}

/// Makes room for `n` more of the part at this place.
fn make_room(parts: &mut Vec<Offsets>, alloc: Global, at: usize, n: u32) -> Result<(), AllocError>
    ensures kept { KeepsParts parts.old.items parts.new.items }
    ensures made { OnOk result (n ≤ room_at parts.new.items at) }
{
    'grow: while parts.as_slice().len() <= at {
        parts.push(Offsets::new(alloc))?;
    }
    parts[at].reserve(n)
}

/// Drops the offsets of the part at this place.
fn drop_offsets(parts: &mut Vec<Offsets>, alloc: Global, at: usize)
    ensures { DropsPart at parts.old.items parts.new.items }
{
    if at < parts.as_slice().len() {
        parts[at] = Offsets::new(alloc);
    }
}

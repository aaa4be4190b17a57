//! The ready offsets of a part. Clauses see them in rising order, and for how many there is room.

ghost use Rattle.std.specs.Prelude.{◌≡◌, ◌<◌, ◌≤◌, [], OnOk, Some, length, slice_get};
ghost use Rattle.pc_shards.specs.Rising.{In, Rises, but, put};

use std::alloc::{AllocError, Global};
use std::cmp::Reverse;
use std::collections::BinaryHeap;
use std::marker::Model;

/// Offsets, the least first.
#[derive(Drop)]
pub struct Ready {
    // The greatest of the reversed comparison is the least offset.
    heap: BinaryHeap<Reverse<u64>>,
}

impl Model for Ready {
    ghost use Rattle.std.specs.Prelude.{map};
    ghost use Rattle.std.specs.BinaryHeap.{IsHeap, heap_capacity, heap_items};
    ghost use Rattle.pc_shards.specs.Ready.{Offsets, by_offset};
    ghost use Rattle.pc_shards.specs.Rising.{rising};

    ghost Value = { Offsets };

    ghost view = { λ r. record {
      offsets = rising (map (λ o. o.0) (heap_items r.heap));
      places = heap_capacity r.heap;
    } };

    ghost invariant = { λ r. IsHeap by_offset (heap_items r.heap) };
}

impl Ready {
    /// No offsets. Takes no memory.
    pub fn new(alloc: Global) -> Ready
        ensures { result.offsets ≡ [] }
    {
        Ready {
            heap: BinaryHeap::new(alloc),
        }
    }

    /// Makes room for `count` offsets in all.
    pub fn reserve(&mut self, count: usize) -> Result<(), AllocError>
        ensures offsets { self.new.offsets ≡ self.old.offsets }
        ensures room { OnOk result (count ≤ self.new.places) }
        ensures places { self.old.places ≤ self.new.places }
    {
        let len = self.heap.len();
        self.heap.reserve(count.saturating_sub(len))
    }

    /// Adds an offset that is not there, for which there is room. Takes no memory.
    pub fn push(&mut self, offset: u64)
        requires rises { Rises self.old.offsets }
        requires absent { In offset self.old.offsets → ⊥ }
        requires room { length self.old.offsets < self.old.places }
        ensures offsets { self.new.offsets ≡ put offset self.old.offsets }
        ensures places { self.old.places ≤ self.new.places }
    {
        let Ok(()) = self.heap.push(Reverse(offset)) else {
            unreachable!();
        };
    }

    /// Takes the offset out, if it is there. Looks at all of them if it is not the least.
    pub fn remove(&mut self, offset: u64)
        requires { Rises self.old.offsets }
        ensures offsets { self.new.offsets ≡ but offset self.old.offsets }
        ensures places { self.old.places ≤ self.new.places }
    {
        if self.least() == Some(offset) {
            self.pop(offset);
        } else {
            self.heap.retain(|ready| ready.0 != offset);
        }
    }

    /// The least offset.
    pub fn least(&self) -> Option<u64>
        requires { Rises self.now.offsets }
        ensures { result ≡ slice_get self.now.offsets 0 }
    {
        let first = self.heap.peek()?;
        Some(first.0)
    }

    /// Takes out the offset, which is the least.
    fn pop(&mut self, offset: u64)
        requires rises { Rises self.old.offsets }
        requires first { slice_get self.old.offsets 0 ≡ Some offset }
        ensures offsets { self.new.offsets ≡ but offset self.old.offsets }
        ensures places { self.old.places ≤ self.new.places }
    {
        let Some(_) = self.heap.pop() else {
            unreachable!();
        };
    }
}

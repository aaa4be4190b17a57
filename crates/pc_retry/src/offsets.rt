//! The offsets of a part's records that wait. `Hold` says which these are; of those the least is
//! found without a look at the others.

ghost use Rattle.std.specs.Prelude.{◌≡◌, ℕ, ◌+◌, ◌<◌, ◌≤◌, ◌==◌, List, [], ◌∷◌, Bool, false, Some, OnOk, length};
ghost use Rattle.std.specs.BinaryHeap.{heap_capacity, heap_items, IsHeap};
ghost use Rattle.std.specs.List.Sorted.{IsPermutation};
ghost use Rattle.pc_model.specs.Numbers.{least_of};
ghost use Rattle.pc_retry.specs.Offsets.{Hold, HoldAt, by_offset, plain, share_least};

use std::alloc::{AllocError, Global};
use std::cmp::Reverse;
use std::collections::BinaryHeap;
use std::marker::Model;

/// Offsets whose least is known.
///
/// An offset that is taken out stays where it is and is noted beside it, until both are the least.
#[derive(Drop)]
pub struct Offsets {
    // The greatest of the reversed comparison is the least offset.
    added: BinaryHeap<Reverse<u64>>,
    // Those of the added ones that were taken out.
    gone: BinaryHeap<Reverse<u64>>,
}

impl Model for Offsets {
    ghost use Rattle.std.specs.Prelude.{map, min, ◌-◌};
    ghost use Rattle.std.specs.BinaryHeap.{heap_capacity, heap_items, heap_len};
    ghost use Rattle.pc_retry.specs.Offsets.{IsTidy, Kept, plain};

    ghost Value = { Kept };

    ghost view = { λ w. record {
      added = plain (heap_items w.added);
      gone = plain (heap_items w.gone);
      room = min (heap_capacity w.added) (heap_capacity w.gone) - heap_len w.added;
    } };

    ghost invariant = { λ w. IsTidy (heap_items w.added) (heap_items w.gone)
        (heap_capacity w.gone) };
}

impl Offsets {
    /// No offset. Takes no memory.
    pub fn new(alloc: Global) -> Offsets
        ensures { Hold [] result }
    {
        Offsets {
            added: BinaryHeap::new(alloc),
            gone: BinaryHeap::new(alloc),
        }
    }

    /// Makes room for `n` more. Out of memory, the same are there.
    pub fn reserve(&mut self, n: u32) -> Result<(), AllocError>
        ensures room { OnOk result (n ≤ self.new.room) }
        ensures kept { self.old.room ≤ self.new.room }
        ensures same { (offsets : List ℕ) → Hold offsets self.old → Hold offsets self.new }
    {
        self.added.reserve(n as usize)?;
        let all = self.added.len() + n as usize;
        self.gone.reserve(all.saturating_sub(self.gone.len()))
    }

    /// Adds an offset, for which room was made. Takes no memory.
    pub fn put(&mut self, offset: u64)
        requires { 0 < self.old.room }
        ensures put { (offsets : List ℕ) → Hold offsets self.old
            → Hold (offset ∷ offsets) self.new }
        ensures room { self.old.room ≤ self.new.room + 1 }
    {
        let Ok(()) = self.added.push(Reverse(offset)) else {
            unreachable!();
        };
        tidy(&mut self.added, &mut self.gone);
    }

    /// Takes an offset out once. Takes no memory.
    pub fn take(&mut self, offset: u64)
        requires { (offsets : List ℕ) × Hold (offset ∷ offsets) self.old }
        ensures taken { (offsets : List ℕ) → Hold (offset ∷ offsets) self.old
            → Hold offsets self.new }
        ensures room { self.old.room ≤ self.new.room }
    {
        let Ok(()) = self.gone.push(Reverse(offset)) else {
            unreachable!();
        };
        tidy(&mut self.added, &mut self.gone);
    }

    /// The least offset.
    pub fn least(&self) -> Option<u64>
        ensures { (offsets : List ℕ) → Hold offsets self.now → result ≡ least_of offsets }
    {
        first(&self.added)
    }
}

/// Drops the least of both, as long as it is the same.
fn tidy(added: &mut BinaryHeap<Reverse<u64>>, gone: &mut BinaryHeap<Reverse<u64>>)
    requires added { IsHeap by_offset (heap_items added.old) }
    requires gone { IsHeap by_offset (heap_items gone.old) }
    ensures added { IsHeap by_offset (heap_items added.new) }
    ensures gone { IsHeap by_offset (heap_items gone.new) }
    ensures apart { share_least (plain (heap_items added.new)) (plain (heap_items gone.new)) ≡ false }
    ensures same { (offsets : List ℕ)
        → HoldAt offsets (plain (heap_items added.old)) (plain (heap_items gone.old))
        → HoldAt offsets (plain (heap_items added.new)) (plain (heap_items gone.new)) }
    ensures fewer { length (heap_items added.new) ≤ length (heap_items added.old) }
    ensures places { heap_capacity added.new ≡ heap_capacity added.old }
    ensures gone_places { heap_capacity gone.new ≡ heap_capacity gone.old }
{
    'least: while shares_least(added, gone) {
        drop_least(added);
        drop_least(gone);
    }
}

/// Whether the least of both is the same.
fn shares_least(added: &BinaryHeap<Reverse<u64>>, gone: &BinaryHeap<Reverse<u64>>) -> bool
    requires added { IsHeap by_offset (heap_items added.now) }
    requires gone { IsHeap by_offset (heap_items gone.now) }
    ensures { result ≡ share_least (plain (heap_items added.now)) (plain (heap_items gone.now)) }
{
    match (first(added), first(gone)) {
        (Some(least), Some(taken)) => least == taken,
        _ => false,
    }
}

/// The least offset of a heap.
fn first(heap: &BinaryHeap<Reverse<u64>>) -> Option<u64>
    requires { IsHeap by_offset (heap_items heap.now) }
    ensures { result ≡ least_of (plain (heap_items heap.now)) }
{
    let least = heap.peek()?;
    Some(least.0)
}

/// Takes out the least, if there is one.
fn drop_least(heap: &mut BinaryHeap<Reverse<u64>>)
    requires { IsHeap by_offset (heap_items heap.old) }
    ensures heap { IsHeap by_offset (heap_items heap.new) }
    ensures dropped { (o : ℕ) → least_of (plain (heap_items heap.old)) ≡ Some o
        → IsPermutation (plain (heap_items heap.old)) (o ∷ plain (heap_items heap.new)) }
    ensures fewer { length (heap_items heap.new) ≤ length (heap_items heap.old) }
    ensures places { heap_capacity heap.new ≡ heap_capacity heap.old }
{
    let _ = heap.pop();
}

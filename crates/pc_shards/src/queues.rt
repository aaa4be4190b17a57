//! The queue of offsets of each key of a part. Clauses see a queue by `queue_of`.

ghost use Rattle.std.specs.Prelude.{◌≡◌, ◌==◌, length, ◌++◌, [], ◌∷◌, IfOk, OnErr, OnOk, false, drop, slice_get, ◌-◌, take};
ghost use Rattle.pc_shards.specs.declared.shard_key.ShardKey.{ShardKey};
ghost use Rattle.pc_shards.specs.Queues.{queue_of};
ghost use Rattle.pc_shards.specs.ShardKey.{is_same};

use crate::shard_key::ShardKey;
use indexmap::IndexMap;
use std::alloc::{AllocError, Global};
use std::collections::VecDeque;

/// The offsets of each key, in the order in which they were added.
#[derive(Drop)]
pub struct Queues<'a> {
    alloc: Global,
    map: IndexMap<ShardKey<'a>, VecDeque<u64>>,
}

impl<'a> Queues<'a> {
    /// Every queue is empty.
    pub fn new(alloc: Global) -> Queues<'a>
        ensures { (k : ShardKey) → queue_of result k ≡ [] }
    {
        Queues {
            alloc,
            map: IndexMap::new(alloc),
        }
    }

    /// Puts an offset at the end of the key's queue, and tells whether it is the first there.
    pub fn push(&mut self, key: ShardKey<'a>, offset: u64) -> Result<bool, AllocError>
        ensures first { IfOk result
            (λ is_first. is_first ≡ (length (queue_of self.old key.entry) == 0)) }
        ensures queue { OnOk result
            (queue_of self.new key.entry ≡ queue_of self.old key.entry ++ offset ∷ []) }
        ensures others { OnOk result ((k : ShardKey) → is_same key.entry k ≡ false
            → queue_of self.new k ≡ queue_of self.old k) }
        ensures stays { OnErr result ((k : ShardKey) → queue_of self.new k ≡ queue_of self.old k) }
    {
        if let Some(queue) = self.map.get_mut(&key) {
            let is_first = queue.is_empty();
            queue.push_back(offset)?;
            return Ok(is_first);
        }
        let mut queue = VecDeque::new(self.alloc);
        queue.push_back(offset)?;
        self.map.insert(key, queue)?;
        Ok(true)
    }

    /// Takes the first offset out of the key's queue, and gives the one that is then the first.
    pub fn pop(&mut self, key: ShardKey<'a>) -> Option<u64>
        ensures next { result ≡ slice_get (queue_of self.new key.entry) 0 }
        ensures queue { queue_of self.new key.entry ≡ drop 1 (queue_of self.old key.entry) }
        ensures others { (k : ShardKey) → is_same key.entry k ≡ false
            → queue_of self.new k ≡ queue_of self.old k }
    {
        let queue = self.map.get_mut(&key)?;
        queue.pop_front();
        let next = queue.front().copied();
        if next.is_none() {
            self.map.swap_remove(&key);
        }
        next
    }

    /// Takes the last offset out of the key's queue.
    pub fn pop_back(&mut self, key: ShardKey<'a>)
        ensures queue { queue_of self.new key.entry
            ≡ take (length (queue_of self.old key.entry) - 1) (queue_of self.old key.entry) }
        ensures others { (k : ShardKey) → is_same key.entry k ≡ false
            → queue_of self.new k ≡ queue_of self.old k }
    {
        let Some(queue) = self.map.get_mut(&key) else {
            return;
        };
        queue.pop_back();
        if queue.is_empty() {
            self.map.swap_remove(&key);
        }
    }
}

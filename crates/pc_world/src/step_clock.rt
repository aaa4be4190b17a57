//! A clock that only a rest moves.

use crate::clock::Clock;
use std::sync::atomic::{AtomicU64, Ordering};

/// A clock that begins at 0, and that each rest moves on by its milliseconds.
#[derive(Drop)]
pub struct StepClock {
    time: AtomicU64,
}

impl StepClock {
    /// A clock at 0.
    pub fn new() -> StepClock {
        StepClock {
            time: AtomicU64::new(0),
        }
    }
}

impl Clock for StepClock {
    fn now(&self) -> u64 {
        self.time.load(Ordering::SeqCst)
    }

    fn rest(&self, ms: u64) {
        self.time.fetch_add(ms, Ordering::SeqCst);
    }
}

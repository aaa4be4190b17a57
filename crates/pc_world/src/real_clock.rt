//! The clock of the machine.

use crate::clock::Clock;
use std::thread;
use std::time::{Duration, SystemTime};

/// The machine's clock. It counts from 1970 on, and tells 0 where it cannot be read.
#[derive(Drop)]
pub struct RealClock<'a, R: std::time::Clock> {
    rt: &'a R,
}

impl<'a, R: std::time::Clock> RealClock<'a, R> {
    /// The clock that the runtime reaches.
    pub fn new(rt: &'a R) -> RealClock<'a, R> {
        RealClock { rt }
    }
}

impl<'a, R: std::time::Clock> Clock for RealClock<'a, R> {
    fn now(&self) -> u64 {
        let Ok(time) = SystemTime::now(self.rt) else {
            return 0;
        };
        match time.duration_since(SystemTime::UNIX_EPOCH) {
            Ok(since) => u64::try_from(since.as_millis()).unwrap_or(0),
            Err(_) => 0,
        }
    }

    fn rest(&self, ms: u64) {
        thread::sleep(self.rt, Duration::from_millis(ms));
    }
}

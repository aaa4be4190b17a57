//! A clock, which tells the time and lets time pass.

/// A clock. Nothing is said of its numbers: it may stand still or go back, and whoever asks keeps the
/// greatest.
pub trait Clock {
    /// The time in milliseconds.
    fn now(&self) -> u64;

    /// Waits for this many milliseconds.
    fn rest(&self, ms: u64);
}

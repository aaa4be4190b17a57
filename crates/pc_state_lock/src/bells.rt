//! What threads sleep on until their turn is near. It keeps threads from running idle and no more:
//! no clause rests on it, and a thread may wake early.

ghost use Rattle.std.specs.Prelude.{◌≡◌, vec_len};

use std::alloc::{AllocError, Global};
use std::sync::Wait;
use std::sync::atomic::AtomicU64;
use std::sync::atomic::Ordering::SeqCst;
use std::thread::yield_now;

/// How many bells there are. Tickets that differ by a multiple of it share one.
const BELLS: u64 = 256;

/// A thread whose ticket is at most this far from the one that is served stays awake, and one that
/// sleeps is woken when its ticket comes this near.
const NEAR: u64 = 2;

/// A bell that wakes all threads that sleep on it.
#[derive(Drop)]
struct Bell {
    /// How often it has rung. A sleep ends where this has changed.
    rings: AtomicU64,
    /// How many threads sleep on it, or are about to.
    sleepers: AtomicU64,
}

impl Bell {
    fn silent() -> Bell {
        Bell {
            rings: AtomicU64::new(0),
            sleepers: AtomicU64::new(0),
        }
    }

    /// Rings, and wakes the sleepers. One that comes later finds that it has rung.
    fn ring(&self) {
        self.rings.fetch_add(1, SeqCst);
        if self.sleepers.load(SeqCst) > 0 {
            self.rings.wake_all();
        }
    }

    /// Sleeps until it has rung more often than this.
    fn sleep<R: Wait>(&self, rt: &R, rings: u32) {
        self.sleepers.fetch_add(1, SeqCst);
        self.rings.park(rt, rings);
        self.sleepers.fetch_sub(1, SeqCst);
    }
}

/// The bells of a lock.
#[derive(Drop)]
pub(crate) struct Bells {
    bells: Vec<Bell>,
    ghost all: { vec_len bells ≡ 256 },
}

impl Bells {
    /// Makes bells that have not rung.
    pub(crate) fn silent(alloc: Global) -> Result<Bells, AllocError> {
        let mut bells = Vec::with_capacity(alloc, 256)?;
        for _ in 0..BELLS {
            bells.push_reserved(Bell::silent());
        }
        Ok(Bells { bells })
    }

    /// The bell of the ticket.
    fn of(&self, ticket: u64) -> &Bell {
        &self.bells[(ticket % BELLS) as usize]
    }

    /// Returns how often the ticket's bell has rung, modulo 2^32.
    pub(crate) fn rings(&self, ticket: u64) -> u32 {
        (self.of(ticket).rings.load(SeqCst) & 0xffff_ffff) as u32
    }

    /// Lets other threads run while `served` is served and not this ticket. Where that is far off,
    /// it sleeps until the ticket's bell has rung more often than this.
    pub(crate) fn wait<R: Wait>(&self, rt: &R, ticket: u64, served: u64, rings: u32) {
        if ticket.wrapping_sub(served) <= NEAR {
            yield_now();
        } else {
            self.of(ticket).sleep(rt, rings);
        }
    }

    /// Wakes the threads whose ticket comes near now that the one after `served` is served.
    pub(crate) fn ring(&self, served: u64) {
        self.of(served.wrapping_add(1 + NEAR)).ring();
    }
}

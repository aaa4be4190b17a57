//! A link to a broker of offsets, which answers one frame at a time.

ghost use Rattle.std.specs.Prelude.{◌≡◌, ◌≤◌, ℕ, Bool, true, Ok, Err, IfOk, IsOk, OnOk, length};
ghost use Rattle.pc_model.specs.Broker.{Broker, broker_step, request_reading};
ghost use Rattle.pc_world.specs.World.{AreStorable, HasRisen, MayStore};
ghost use Rattle.pc_world.specs.declared.link.LinkFault.TheVariants.{NoMemory};

use std::alloc::{AllocError, AllocFailed};
use thiserror::Error;

/// The most bytes that a frame may have which a link is given.
pub const MAX_FRAME_BYTES: usize = 262_144;

/// Why a link did not answer.
#[derive(Clone, Copy, Debug, PartialEq, Eq, Error)]
pub enum LinkFault {
    /// The outside failed.
    #[error("the link failed")]
    Failed,
    /// Out of memory.
    #[error("out of memory")]
    NoMemory,
}

impl From<AllocError> for LinkFault {
    ghost from_gives = { λ _ e. e ≡ NoMemory };

    fn from(_e: AllocError) -> LinkFault {
        LinkFault::NoMemory
    }
}

impl<T: Drop> From<AllocFailed<T>> for LinkFault {
    ghost from_gives = { λ _ e. e ≡ NoMemory };

    fn from(_e: AllocFailed<T>) -> LinkFault {
        LinkFault::NoMemory
    }
}

/// A link to a broker of offsets.
pub trait Link {
    /// Whether it tells what the broker stores.
    ghost is_told: { Self → Bool };

    /// What the broker stores, where that is told.
    ghost store: { Self → Broker };

    /// How often the outside has failed. The count stops at 2^64 - 1.
    ghost faults: { Self → ℕ };

    /// Sends a commit request or a fetch request of at most 262,144 bytes, and returns the reply.
    /// Fails with `Failed` only where the count of faults rose; the broker may have stored some
    /// first items of the frame then, from none to all. After `NoMemory` it stores what it stored.
    /// A told store has positions up to 2^63 - 1, and texts of at most 4,096 bytes.
    fn call(&mut self, frame: &[u8]) -> Result<Vec<u8>, LinkFault>
        requires short { length frame.now ≤ MAX_FRAME_BYTES }
        requires reads { IsOk (request_reading frame.now) }
        ensures answered { is_told self.old ≡ true → IfOk result
            (λ reply. broker_step (store self.old) frame.now ≡ Ok (reply.items, store self.new)) }
        ensures failed { result ≡ Err LinkFault.Failed → HasRisen (faults self.old) (faults self.new) }
        ensures may_store { is_told self.old ≡ true → result ≡ Err LinkFault.Failed
            → MayStore (request_reading frame.now) (store self.old) (store self.new) }
        ensures no_memory { is_told self.old ≡ true → result ≡ Err LinkFault.NoMemory
            → store self.new ≡ store self.old }
        ensures storable { is_told self.old ≡ true → OnOk result (AreStorable (store self.old)) }
        ensures told { is_told self.new ≡ is_told self.old }
        ensures count { faults self.old ≤ faults self.new };
}

//! What is kept of a part.

ghost use Rattle.std.specs.Prelude.{◌≡◌, ℕ, None, IfOk, length, replicate};
ghost use Rattle.pc_state.specs.State.{with_size};

use crate::unread::Unread;
use pc_partition::PartitionState;
use std::alloc::{AllocError, Global};

/// A part's epoch, and what is known of it while it is held.
#[derive(Debug, Drop)]
pub struct PartState<'a> {
    pub epoch: u64,
    pub held: Option<HeldPart<'a>>,
}

/// What is known of a part that is held.
#[derive(Debug, Drop)]
pub struct HeldPart<'a> {
    /// Which known offsets are complete.
    pub window: PartitionState,
    /// What is left of its log to poll.
    pub rest: Unread<'a>,
    /// The size of the last commit since the assignment.
    pub size: Option<u32>,
}

impl PartState<'_> {
    /// A commit of this size was made of the part, if it is held, or failed.
    pub(crate) fn note_size(&mut self, size: u32)
        ensures { self.new ≡ with_size size self.old }
    {
        if let Some(held) = &mut self.held {
            held.size = Some(size);
        }
    }
}

/// This many parts, none of them held.
pub fn unheld<'a>(alloc: Global, count: u32) -> Result<Vec<PartState<'a>>, AllocError>
    ensures count { IfOk result (λ parts. length parts.items ≡ count) }
    ensures each { IfOk result (λ parts. parts.items
        ≡ replicate count (record { epoch = 0; held = None })) }
{
    let mut parts = Vec::with_capacity(alloc, count as usize)?;
    for _ in 0..count {
        parts.push(PartState {
            epoch: 0,
            held: None,
        })?;
    }
    Ok(parts)
}

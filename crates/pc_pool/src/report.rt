//! What a run ended with.

use crate::ending::Ending;
use pc_mailbox::Inbox;
use pc_model::Journal;
use pc_task::{Finished, RuleTask, Task};
use pc_world::Link;

/// What a run ended with.
#[derive(Drop)]
pub struct Report<'a, L: Link, T: Task = RuleTask> {
    /// The events of the run.
    pub journal: Journal,
    /// The inbox from which the run took its results. None where memory ran out before it was made.
    pub inbox: Option<Inbox<Finished<'a, T>>>,
    /// How many jobs each worker was given, by its number. Empty where memory ran out before the first
    /// turn.
    pub jobs: Vec<u64>,
    /// How many results the mailbox handed back for want of memory, which were then settled.
    pub returned: u64,
    /// The link.
    pub link: L,
    /// Why the run ended.
    pub ended: Ending,
}

//! What the lock's table knows of a pass. No value of these types is made.

use pc_model::Event;
use std::collections::LinkedList;

/// Where a pass stands with its tickets, which count from 0.
pub enum Stage {
    /// It has no ticket.
    Rests,
    /// It has drawn this ticket, which is not served yet.
    Waits(u64),
    /// Its ticket is served, and the slot is out with it.
    Turns(u64),
}

/// What a pass knows.
pub struct View<V> {
    pub stage: Stage,
    /// The value that the lock was made with; a pass that was joined to another has none.
    pub start: Option<V>,
    /// The events that it has seen, the newest first.
    pub seen: LinkedList<Event>,
    /// What a pass that was joined to it had seen, until the two are compared.
    pub told: LinkedList<Event>,
    /// The spans of its turns, the latest first.
    pub mine: LinkedList<(u64, u64)>,
}

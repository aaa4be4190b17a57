//! The state of a history: what is kept of it, so that the next event is found without reading it
//! again. `Knows` says which history a state belongs to, and each change which event it belongs to.
#![tactic(auto)]

mod dispatch;
mod epochs;
mod jobs;
mod ledger;
mod part;
mod polls;
mod queries;
mod rest;
mod results;
mod retries;
mod state;
mod unread;

pub use jobs::{OpenJob, OpenJobs};
pub use ledger::{Ledger, PartLedger};
pub use part::{HeldPart, PartState};
pub use polls::Taken;
pub use queries::Unfinished;
pub use retries::ready_after;
pub use state::State;
pub use unread::Unread;

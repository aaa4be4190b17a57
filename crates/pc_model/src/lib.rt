//! The plain types of parcon, and the definitions of what a lawful history is.
//!
//! Every other crate cites these definitions; none of them speaks of how the code works.
#![tactic(auto)]

pub mod api;
mod bits;
mod bits_fault;
mod choices;
mod commit;
mod event;
pub mod evidence;
mod journal;
pub mod limits;
mod lists;
mod map_fault;
mod map_letter;
mod outcome;
mod setup;
mod step;
mod texts;
mod wire_fault;

pub use bits::Bits;
pub use bits_fault::BitsFault;
pub use choices::{BadMapRule, Order, Work};
pub use commit::{Commit, SizedCommit};
pub use event::Event;
pub use journal::Journal;
pub use lists::{Answer, Delays, FailRules, Starts};
pub use map_fault::MapFault;
pub use map_letter::{BITSET, BITSET_2, RUN_LENGTH, RUN_LENGTH_2};
pub use outcome::{FailRule, Outcome, Rules, Start};
pub use setup::{Settings, Setup, SetupFault, SetupField};
pub use step::{Act, Step};
pub use texts::{KeyText, MapText, NameText};
pub use wire_fault::WireFault;

#[cfg(test)]
mod tests;

//! The play of a script over an engine: one call of the engine for each line.
//!
//! `play` plays all lines. It leaves the journal, the link, and a remark for each line whose call was
//! refused or added no event.
#![tactic(auto)]

mod calls;
mod hand;
mod lines;
mod remark;

pub use lines::{Played, play};
pub use remark::{Notice, Remark};

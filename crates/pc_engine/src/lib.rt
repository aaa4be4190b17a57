//! The core: each call adds the lawful event, or returns the first refusal and adds nothing.
//!
//! The history in an engine is legal by its type.
#![tactic(auto)]

mod clock;
mod ending;
mod engine;
mod epochs;
mod fault;
mod polls;
mod queries;
mod settled;

pub use engine::{Committed, Engine};
pub use fault::EngineFault;
pub use settled::Settled;

#[cfg(test)]
mod queries_tests;
#[cfg(test)]
mod records_tests;
#[cfg(test)]
mod tests;

//! The steps of a run on an engine: whether a step is due, and the calls of its block.
#![tactic(auto)]

mod calls;
pub mod laws;
mod parts;
mod steps;

pub use parts::{assigned_parts, first_free};
pub use steps::{apply, due};

#[cfg(test)]
mod tests;

//! The epochs of the parts: of each part how often it was assigned, ended or met a crash, and
//! whether it is held.
#![tactic(auto)]

mod epochs;
mod fault;

pub use epochs::Epochs;
pub use fault::EpochFault;

#[cfg(test)]
mod tests;

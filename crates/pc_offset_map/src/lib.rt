//! The text of a map: which offsets from a base on it passes.
#![tactic(auto)]

mod map;
mod reading;

pub use map::OffsetMap;
pub use pc_model::MapFault;
pub use reading::read_map;

#[cfg(test)]
mod tests;

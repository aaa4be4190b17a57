//! The choice among the encodings of a map: the shortest text, and whether it presses on the limit.
#![tactic(auto)]

mod choice;
mod sizes;
mod text;

pub use choice::{Choice, choose, pressed};
pub use sizes::shortest_of;

#[cfg(test)]
mod tests;

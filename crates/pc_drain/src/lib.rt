//! What a run does next: a control turn does the first of its actions that applies.
#![tactic(auto)]

mod act;
mod action;
mod control;
mod settling;
mod turn;

pub use action::Action;
pub use control::control_turn;
pub use turn::Turn;

#[cfg(test)]
mod tests;

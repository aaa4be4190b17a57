//! Scripts: what to play line by line, and when parts move while a run goes on.
#![tactic(auto)]

mod argument;
mod fault;
mod held;
mod laws;
mod play;
mod play_script;
mod play_word;
mod step;
mod step_word;
mod steps;

pub use fault::{ScriptFault, ScriptKind, ScriptReadFault};
pub use laws::{every_act_is_playable, every_step_is_allowed, every_step_is_in_range};
pub use pc_model::{Act, Step};
pub use play::{PlayAct, PlayLine};
pub use play_script::{PlayScript, read_play};
pub use steps::{Steps, read_steps};

#[cfg(test)]
mod tests;

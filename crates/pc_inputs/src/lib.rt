//! What a command reads before anything is played or run: its words, its files, and the plan that
//! they make.
//!
//! `read_files` gives the bytes of a play's files, and `plan_of` what they ask for; `read_run` and
//! `run_plan_of` do so of a run. Each fails with a `Status`, whose fault line `put_fault` appends.
#![tactic(auto)]

mod command;
mod config_fault;
mod configuration;
mod fault_line;
mod log_fault;
mod plan;
mod reading;
mod status;
mod words;

pub use command::{BulkRun, bulk_asked};
pub use fault_line::put_fault;
pub use plan::{Plan, RunPlan, plan_of, run_plan_of};
pub use reading::{LogText, RunTexts, Texts, read_files, read_run};
pub use status::{LimitKind, NO_MEMORY, Status};

#[cfg(test)]
mod tests;

//! The configuration of a run, read from a TOML document.
#![tactic(auto)]

mod config;
mod delays;
mod fails;
mod fault;
mod key;
mod lists;
mod member;
mod place;
mod scalars;
mod starts;
mod unknown;
mod words;

pub use config::{Config, default_config, read_config};
pub use fault::ConfigFault;

#[cfg(test)]
mod tests;

//! The client of a broker of offsets: it stores a commit for a part of one group, or fetches it, by
//! one frame over a link.
#![tactic(auto)]

mod answer;
mod client;
mod fault;
mod question;

pub use client::Client;
pub use fault::ClientFault;
pub use question::{CLIENT, GROUP, TOPIC};

#[cfg(test)]
mod tests;

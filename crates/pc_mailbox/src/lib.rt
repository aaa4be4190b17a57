//! A mailbox: several senders put results into it, and one inbox takes them, those of each sender in
//! their order, each once.
//!
//! The results are of any type. What they are is for the layer above.
#![tactic(auto)]

mod delivery;
mod inbox;
mod mailbox;
mod sender;

pub use inbox::Inbox;
pub use mailbox::Mailbox;
pub use sender::Sender;

#[cfg(test)]
mod tests;

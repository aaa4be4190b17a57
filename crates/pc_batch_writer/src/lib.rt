//! Record batches, written: the one spelling of a batch that a reader of Kafka's record format takes
//! back as the records given.
#![tactic(auto)]

mod checks;
mod fault;
mod fields;
mod generator;
mod new_record;
mod put;
mod write;

pub use fault::WriteFault;
pub use generator::{Generated, generate};
pub use new_record::{NewHeader, NewRecord};
pub use write::write_batch;

#[cfg(test)]
mod tests;

//! Histories as text, both ways, and the summary of a run.
#![tactic(auto)]

mod event_word;
mod fault;
mod fields;
mod held_parts;
mod history;
mod laws;
mod line_fault;
mod map_fault;
mod passed;
mod put;
mod read;
mod summary;
mod word;

pub use fault::JournalTextFault;
pub use history::read_journal;
pub use laws::{
    one_fault_for_each_other_text, one_line_for_each_event, one_summary_for_each_start,
    one_text_for_each_history,
};
pub use map_fault::put_map_line;
pub use put::put_event;
pub use summary::put_summary;
pub use word::{Word, put_line};

#[cfg(test)]
mod summary_tests;
#[cfg(test)]
mod tests;

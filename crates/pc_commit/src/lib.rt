//! What is stored of a part, both ways: the commit of its completion state, and the state that a
//! stored commit gives at the next assignment.
#![tactic(auto)]

mod commit;
mod fault;
mod stored;

pub use commit::commit_of;
pub use fault::ResumeFault;
pub use stored::resume;

#[cfg(test)]
mod tests;

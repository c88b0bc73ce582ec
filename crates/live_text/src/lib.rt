//! The text of a live run with the rows of its packets.
#![tactic(auto)]

mod laws;

pub use laws::verdicts_of_marks;

//! What is so of all evidence in memory: its numbers are those of their types, and its names are
//! UTF-8.
#![tactic(auto)]

mod known;
mod lines;
mod whole;

pub use whole::evidence_is_a_value;

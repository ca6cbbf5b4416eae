//! What a run of the program leaves is answered yes by a check.
#![tactic(auto)]

mod laws;

pub use laws::{done_runs_are_answered_yes, evidence_of_runs_is_valid, refusals_are_answered_yes};

//! The evidence of a run: what lets a second program check it.
#![tactic(auto)]

mod cases;
mod laws;
mod lists;
mod rows;
mod whole;

pub use laws::runs_are_tellable;
pub use whole::{evidence_against, evidence_of};

//! The text that lets a second program check a run.
#![tactic(auto)]

mod laws;
mod lists;
mod reading;
mod sections;
#[cfg(test)]
mod tests;
mod types;
mod writing;

pub use evidence_lines::Kind;
pub use laws::texts_are_what_is_read;
pub use reading::read_evidence;
pub use types::{Body, Evidence, EvidenceFault, Removed, RemovedList};
pub use writing::write_evidence;

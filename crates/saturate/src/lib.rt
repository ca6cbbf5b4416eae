//! Whether rows leave a class empty: facts are derived until no more follow, or a class is empty.
#![tactic(auto)]

mod clashes;
mod closing;
mod laws;
mod rows;
mod saturation;
mod starting;
mod tables;
mod testing;
mod types;

pub use starting::start;
pub use testing::{test, test_block};
pub use types::{StartFault, Verdict};

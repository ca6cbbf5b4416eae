//! What a run answers, and the lines that it prints.
#![tactic(auto)]

mod kinds;
mod laws;
mod lines;
mod put;
mod speaker;
mod status;

pub use laws::lines_of_small_cases;
pub use lines::summary;
pub use put::{put_load_fault, put_refusal};
pub use speaker::Speaker;
pub use status::{Status, status_of};

//! One check: reads what a run had and what it left, and answers whether the evidence holds.
#![tactic(auto)]

mod laws;
mod lines;
mod reading;
mod run;
mod status;
mod verdict;

pub use check_items::BadItem;
pub use laws::lines_of_small_verdicts;
pub use run::check_files;
pub use status::CheckStatus;

//! The items of evidence: which is the first that fails.
#![tactic(auto)]

mod check;
mod item;
mod journal;
mod laws;
mod lists;
mod model;
mod rows;
mod steps;

pub use check::{check_diagnosis, check_refusal};
pub use item::BadItem;
pub use laws::evidence_has_one_answer;

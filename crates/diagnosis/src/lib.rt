//! The diagnosis of a case: every rank decided, by workers side by side and then alone, through a
//! book; and the rows that are kept.
#![tactic(auto)]

mod deciding;
mod joining;
mod parts;
mod rows;
mod splitting;

pub use deciding::diagnose;
pub use rows::{KeptRows, kept_rows};

//! Whether an interpretation is a model of a case for some ranks.
#![tactic(auto)]

mod check;
#[cfg(test)]
mod tests;
mod types;

pub use check::check_model;
pub use types::ModelFault;

//! Axioms tested by ascending lists of members, without a walk over the domain.
#![tactic(auto)]

mod among;
mod axioms;
mod classes;
mod lists;
mod model;
mod numbers;
mod pairs;
mod properties;
mod sets;
#[cfg(test)]
mod tests;

pub use axioms::holds_by_lists;
pub use model::{ModelLists, model_lists};
pub use numbers::has_number;

//! The nodes and roles of two ontologies, numbered, and their axioms over these numbers.
#![tactic(auto)]

mod axioms;
mod build;
mod laws;
mod number;
mod roles;
mod store;
#[cfg(test)]
mod tests;
mod types;

pub use build::build_store;
pub use laws::{
    every_interpretation_has_a_reading, found_nodes_stand_for_expressions, nodes_stand_in_order,
    stores_have_a_role_for_each_part, stores_mean_the_same,
};
pub use store::Store;
pub use types::{Node, NodeAxiom, RoleNode, StoreFault};

//! What a case is made of.

use concept_store::NodeAxiom;
use el_logic::{Axioms, ListOf, Numbers};

/// The axioms of each row, by the row's index.
pub type AxiomLists = ListOf<Axioms>;

/// Axioms over numbers of nodes and roles.
pub type NodeAxioms = ListOf<NodeAxiom>;

/// Such axioms for each row, by its rank.
pub type NodeAxiomLists = ListOf<NodeAxioms>;

/// What a case is made of.
#[derive(Debug, Drop)]
pub struct CaseInput {
    pub left: Axioms,
    pub right: Axioms,
    /// The axioms of each row, by its index from 0.
    pub rows: AxiomLists,
    /// The index of the row with each rank, from 0.
    pub order: Numbers,
    /// How many class names there are, without `owl:Thing` and `owl:Nothing`.
    pub classes: u32,
    /// How many property names there are.
    pub roles: u32,
}

//! What lines of evidence say.

use el_logic::{ListOf, Part, Side};
use ofn_axiom::Omitted;
use text_names::Text;

/// What evidence is for.
#[derive(Clone, Copy, Debug, PartialEq, Eq)]
pub enum Kind {
    /// A repaired table.
    Diagnosis,
    /// Ontologies that are incoherent without any row.
    Refusal(Part),
}

/// A node of a case.
#[derive(Debug, Drop)]
pub enum NodeLine {
    Top,
    Bottom,
    /// A class by its IRI.
    Class(Text),
    /// The intersection of two nodes.
    And(u32, u32),
    /// What leads by a role to a node.
    Exists(u32, u32),
}

/// The nodes of a case in order.
pub type NodeLines = ListOf<NodeLine>;

/// A role of a case.
#[derive(Debug, Drop)]
pub enum RoleLine {
    /// A property by its IRI.
    Property(Text),
    /// The front of a chain: its length, and the axiom's number, from 1, in its document.
    Part { side: Side, axiom: u32, length: u32 },
}

/// The roles of a case in order.
pub type RoleLines = ListOf<RoleLine>;

/// An axiom that is left out, with its document.
#[derive(Clone, Copy, Debug, PartialEq, Eq)]
pub struct SidedOmitted {
    pub side: Side,
    pub omitted: Omitted,
}

//! The entries of the tables.

use fact_table::Source;

/// An axiom puts the node that is looked up within this one.
#[derive(Clone, Copy, Debug, PartialEq, Eq)]
pub struct Inclusion {
    pub into: u32,
    pub source: Source,
}

/// An axiom puts the role that is looked up within this one.
#[derive(Clone, Copy, Debug, PartialEq, Eq)]
pub struct RoleInclusion {
    pub into: u32,
    pub source: Source,
}

/// The node that is looked up is an operand of a disjointness, at this position from 0.
#[derive(Clone, Copy, Debug, PartialEq, Eq)]
pub struct Operand {
    pub position: u32,
    pub source: Source,
}

/// An axiom joins two roles, the first and then the second, to a third.
#[derive(Clone, Copy, Debug, PartialEq, Eq)]
pub struct Join {
    pub first: u32,
    pub second: u32,
    pub into: u32,
    pub source: Source,
}

/// An axiom says that what the role that is looked up leads from is in this node.
#[derive(Clone, Copy, Debug, PartialEq, Eq)]
pub struct RoleDomain {
    pub domain: u32,
    pub source: Source,
}

/// An axiom says that the role is reflexive.
#[derive(Clone, Copy, Debug, PartialEq, Eq)]
pub struct Reflexive {
    pub source: Source,
}

/// An intersection of which the node that is looked up is a part: its node, its other part, and
/// whether the node is its left part.
#[derive(Clone, Copy, Debug, PartialEq, Eq)]
pub struct Whole {
    pub node: u32,
    pub other: u32,
    pub is_left: bool,
}

/// The node of what a role leads from into a node, the filler.
#[derive(Clone, Copy, Debug, PartialEq, Eq)]
pub struct Restriction {
    pub node: u32,
    pub role: u32,
    pub filler: u32,
}

//! Nodes, roles, and axioms over their numbers.

ghost use Rattle.std.specs.Prelude.{◌≡◌, ◌==◌, ◌++◌, true, IsTrue, ◌↔◌};
ghost use Rattle.std.proofs.Common.{rules};
ghost use Rattle.std.specs.Cmp.Rules.{comparing, hashing};
ghost use Rattle.std.specs.Hash as fed;
ghost use Rattle.concept_store.specs.declared.types.StoreFault.TheVariants.{OutOfMemory};

use el_logic::{Numbers, Side};
use std::alloc::{AllocError, AllocFailed};
use std::hash::{Hash, Hasher};
use thiserror::Error;

/// A class expression by the numbers of the nodes and roles that it is made of. An intersection has
/// two operands: one of several is folded from the left.
#[derive(Clone, Copy, Debug)]
pub enum Node {
    /// `owl:Thing`, which is node 0.
    Top,
    /// `owl:Nothing`, which is node 1.
    Bottom,
    /// A class name, by its number. It is the node with that number and two more.
    Class(u32),
    /// The intersection of two nodes.
    And(u32, u32),
    /// What a role leads from into a node: the role, then the node.
    Exists(u32, u32),
}

impl PartialEq for Node {
    ghost use Rattle.std.specs.Cmp.{partial_equiv_from_equiv};
    ghost use Rattle.concept_store.specs.Nodes.{same_node};
    ghost use Rattle.concept_store.specs.Inside.SameNodes.{same_node_laws};

    ghost eq = { same_node };

    ghost laws = { partial_equiv_from_equiv same_node_laws };

    fn eq(&self, other: &Node) -> bool {
        match (*self, *other) {
            (Node::Top, Node::Top) => true,
            (Node::Bottom, Node::Bottom) => true,
            (Node::Class(a), Node::Class(b)) => a == b,
            (Node::And(a, b), Node::And(c, d)) => a == c && b == d,
            (Node::Exists(a, b), Node::Exists(c, d)) => a == c && b == d,
            _ => false,
        }
    }
}

impl Eq for Node {
    ghost use Rattle.concept_store.specs.Inside.SameNodes.{same_node_laws};

    ghost laws = { same_node_laws };
}

impl Hash for Node {
    ghost use Rattle.concept_store.specs.Inside.Hashes.{node_writes};
    ghost use Rattle.concept_store.specs.Inside.SameNodes.{same_node_writes};

    ghost hash_input = { node_writes };

    ghost respects_eq = { same_node_writes };

    fn hash<H: Hasher>(&self, state: &mut H) {
        match *self {
            Node::Top => state.write_u8(0),
            Node::Bottom => state.write_u8(1),
            Node::Class(class) => {
                state.write_u8(2);
                class.hash(state);
            }
            Node::And(one, other) => {
                state.write_u8(3);
                one.hash(state);
                other.hash(state);
            }
            Node::Exists(role, filler) => {
                state.write_u8(4);
                role.hash(state);
                filler.hash(state);
            }
        }
    }
}

/// A property, or a front of the chain of an axiom, which stands for the composition of its
/// properties.
#[derive(Clone, Copy, Debug, PartialEq, Eq)]
pub enum RoleNode {
    /// A property name, by its number.
    Named(u32),
    /// The first `length` properties of the chain of an axiom. The axioms of a side are numbered
    /// from 1.
    Part { side: Side, axiom: u32, length: u32 },
}

/// An axiom over the numbers of nodes and roles.
#[derive(Debug, Drop)]
pub enum NodeAxiom {
    /// Nodes, the lower one first.
    SubClass(u32, u32),
    /// Nodes.
    Equivalent(Numbers),
    /// Nodes.
    Disjoint(Numbers),
    /// A chain of roles, and the role that it is within. The part of the chain of length 2 is the
    /// role `first_part`, and longer ones follow it. A chain of fewer than three roles has no part.
    SubRole {
        chain: Numbers,
        into: u32,
        first_part: u32,
    },
    /// Roles.
    EquivalentRoles(Numbers),
    /// A role.
    Transitive(u32),
    /// A role.
    Reflexive(u32),
    /// A role and a node.
    Domain(u32, u32),
}

/// Why axioms have no store.
#[derive(Clone, Copy, Debug, PartialEq, Eq, Error)]
pub enum StoreFault {
    #[error("too many nodes")]
    Nodes,
    #[error("too many roles")]
    Roles,
    #[error("out of memory")]
    OutOfMemory,
}

impl From<AllocError> for StoreFault {
    ghost from_gives = { λ _ fault. fault ≡ OutOfMemory };

    fn from(_error: AllocError) -> StoreFault {
        StoreFault::OutOfMemory
    }
}

impl<T: Drop> From<AllocFailed<T>> for StoreFault {
    ghost from_gives = { λ _ fault. fault ≡ OutOfMemory };

    fn from(_error: AllocFailed<T>) -> StoreFault {
        StoreFault::OutOfMemory
    }
}

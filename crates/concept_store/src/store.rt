//! The store of two ontologies.

ghost use Rattle.std.specs.Prelude.{◌≡◌, ◌<◌, Some, position, length, slice_get};
ghost use Rattle.concept_store.specs.Trees.{tree_of};
ghost use Rattle.concept_store.specs.Nodes.{same_node, node_for};

use crate::{Node, NodeAxiom, RoleNode};
use el_logic::Expr;
use indexmap::IndexSet;
use std::marker::Model;

/// Two ontologies by numbers: their nodes and roles, and their axioms over these.
#[derive(Debug, Drop)]
pub struct Store {
    pub(crate) nodes: IndexSet<Node>,
    pub(crate) roles: Vec<RoleNode>,
    pub(crate) left: Vec<NodeAxiom>,
    pub(crate) right: Vec<NodeAxiom>,
}

impl Model for Store {
    ghost use Rattle.std.specs.Prelude.{◌^◌, ◌<◌, length};
    ghost use Rattle.concept_store.specs.Roles.{Numbered};

    ghost Value = { Numbered };

    ghost view = { λ s. record {
      nodes = s.nodes.keys;
      roles = s.roles.items;
      left = s.left.items;
      right = s.right.items;
    } };

    ghost invariant = { λ s. (length s.nodes.keys < 2 ^ 32) × (length s.roles.items < 2 ^ 32) };
}

impl Store {
    /// How many nodes there are.
    pub fn nodes(&self) -> u32
        ensures { result ≡ length self.now.nodes }
    {
        self.nodes.len() as u32
    }

    /// The node with a number.
    pub fn node(&self, n: u32) -> Node
        requires { n < length self.now.nodes }
        ensures { slice_get self.now.nodes n ≡ Some result }
    {
        let Some(node) = self.nodes.get_index(n as usize) else {
            unreachable!()
        };
        *node
    }

    /// How many roles there are.
    pub fn roles(&self) -> u32
        ensures { result ≡ length self.now.roles }
    {
        self.roles.len() as u32
    }

    /// The role with a number.
    pub fn role(&self, r: u32) -> RoleNode
        requires { r < length self.now.roles }
        ensures { slice_get self.now.roles r ≡ Some result }
    {
        let Some(role) = self.roles.get(r as usize) else {
            unreachable!()
        };
        *role
    }

    /// LEFT's axioms, in their order.
    pub fn left(&self) -> &[NodeAxiom]
        ensures { result.now ≡ self.now.left }
    {
        self.left.as_slice()
    }

    /// RIGHT's axioms, in their order.
    pub fn right(&self) -> &[NodeAxiom]
        ensures { result.now ≡ self.now.right }
    {
        self.right.as_slice()
    }

    /// The number of a node, if it is one of these.
    pub fn find(&self, node: Node) -> Option<u32>
        ensures { result ≡ position (same_node node) self.now.nodes }
    {
        match self.nodes.get_index_of(&node) {
            Some(n) => Some(n as u32),
            None => None,
        }
    }

    /// The number of the node that stands for an expression, if one does.
    pub fn node_of(&self, expr: &Expr) -> Option<u32>
        ensures { result ≡ node_for self.now.nodes (tree_of expr.now) }
    {
        match expr {
            Expr::Top => self.find(Node::Top),
            Expr::Bottom => self.find(Node::Bottom),
            Expr::Name(class) => self.find(Node::Class(*class)),
            Expr::And(operands) => {
                let Some((first, rest)) = operands.as_slice().split_first() else {
                    return self.find(Node::Top);
                };
                let mut whole = match self.node_of(first) {
                    Some(whole) => whole,
                    None => return None,
                };
                for operand in rest {
                    let other = match self.node_of(operand) {
                        Some(other) => other,
                        None => return None,
                    };
                    whole = match self.find(Node::And(whole, other)) {
                        Some(whole) => whole,
                        None => return None,
                    };
                }
                Some(whole)
            }
            Expr::Exists(role, filler) => match self.node_of(filler.get()) {
                Some(inner) => self.find(Node::Exists(*role, inner)),
                None => None,
            },
        }
    }
}

//! A case.

ghost use Rattle.std.specs.Prelude.{◌≡◌, ◌<◌, ◌↔◌, IsTrue, Contains, Some, length, slice_get, slice_index, slice_index_or, []};
ghost use Rattle.case_file.specs.Cases.{row_at, IsCase, IsExcuse, IsMustHave};

use crate::{AxiomLists, NodeAxiomLists};
use concept_store::{NodeAxiom, Store};
use el_logic::{Axioms, Numbers};
use std::marker::Model;

/// Two ontologies and the rows of a table, in the order of their ranks, over numbered nodes and
/// roles. It never changes, except that classes can be excused.
#[derive(Debug, Drop)]
pub struct Case {
    pub(crate) store: Store,
    pub(crate) left: Axioms,
    pub(crate) right: Axioms,
    pub(crate) rows: AxiomLists,
    pub(crate) order: Numbers,
    pub(crate) over: NodeAxiomLists,
    pub(crate) classes: u32,
    pub(crate) properties: u32,
    pub(crate) excused: Numbers,
}

impl Model for Case {
    ghost use Rattle.case_file.specs.Cases.{CaseView, IsCase};
    ghost use Rattle.case_file.specs.Inside.Codes.{case_code};

    ghost Value = { CaseView };

    ghost coded = { case_code };

    ghost view = { λ c. record {
      store = c.store;
      left = c.left;
      right = c.right;
      rows = c.rows;
      order = c.order;
      over = c.over;
      classes = c.classes;
      properties = c.properties;
      excused = c.excused;
    } };

    ghost invariant = { λ c. IsCase (record {
      store = c.store;
      left = c.left;
      right = c.right;
      rows = c.rows;
      order = c.order;
      over = c.over;
      classes = c.classes;
      properties = c.properties;
      excused = c.excused;
    }) };
}

impl Case {
    /// The nodes and roles of both ontologies, and their axioms over these. That the case was built
    /// is known from its type; this call says so.
    pub fn store(&self) -> &Store
        ensures store { result.now ≡ self.now.store }
        ensures case { IsCase self.now }
    {
        &self.store
    }

    /// LEFT's axioms as they were given.
    pub fn left(&self) -> &Axioms
        ensures { result.now ≡ self.now.left }
    {
        &self.left
    }

    /// RIGHT's axioms as they were given.
    pub fn right(&self) -> &Axioms
        ensures { result.now ≡ self.now.right }
    {
        &self.right
    }

    /// How many class names there are, without `owl:Thing` and `owl:Nothing`.
    pub fn classes(&self) -> u32
        ensures { result ≡ self.now.classes }
    {
        self.classes
    }

    /// How many property names there are.
    pub fn properties(&self) -> u32
        ensures { result ≡ self.now.properties }
    {
        self.properties
    }

    /// How many rows there are.
    pub fn ranks(&self) -> u32
        ensures ranks { result ≡ length self.now.order }
        ensures over { length self.now.over ≡ length self.now.order }
    {
        self.order.len() as u32
    }

    /// The index, from 0, of the row with a rank.
    pub fn row_of(&self, rank: u32) -> u32
        requires { rank < length self.now.order }
        ensures { slice_get self.now.order rank ≡ Some result }
    {
        let Some(index) = self.order.get(rank as usize) else {
            unreachable!()
        };
        *index
    }

    /// The axioms of the row with a rank, as they were given.
    pub fn axioms_of(&self, rank: u32) -> &Axioms
        requires { rank < length self.now.order }
        ensures { result.now ≡ row_at self.now.rows (slice_index self.now.order rank) }
    {
        let index = self.order.as_slice()[rank as usize];
        &self.rows.as_slice()[index as usize]
    }

    /// The axioms over nodes of the row with a rank.
    pub fn over_of(&self, rank: u32) -> &[NodeAxiom]
        requires { rank < length self.now.order }
        ensures { result.now ≡ slice_index_or self.now.over rank [] }
    {
        self.over.as_slice()[rank as usize].as_slice()
    }

    /// The case in which these class nodes, which ascend, need no member.
    pub fn excuse(self, nodes: Numbers) -> Case
        requires { IsExcuse self nodes }
        ensures { result ≡ record self { excused = nodes } }
    {
        let Case {
            store,
            left,
            right,
            rows,
            order,
            over,
            classes,
            properties,
            excused: _,
        } = self;
        Case {
            store,
            left,
            right,
            rows,
            order,
            over,
            classes,
            properties,
            excused: nodes,
        }
    }

    /// The class nodes that need no member, in ascending order.
    pub fn excused(&self) -> &[u32]
        ensures { result.now ≡ self.now.excused }
    {
        self.excused.as_slice()
    }

    // Whether a node is excused.
    fn is_excused(&self, node: u32) -> bool
        ensures { IsTrue result ↔ Contains self.now.excused node }
    {
        self.excused().contains(&node)
    }

    /// Whether a node must have a member: `owl:Thing`, or the node of a class that is not excused.
    pub fn is_must_have(&self, node: u32) -> bool
        ensures { IsTrue result ↔ IsMustHave self.now node }
    {
        match node.checked_sub(2) {
            Some(class) => class < self.classes() && !self.is_excused(node),
            None => node == 0,
        }
    }
}

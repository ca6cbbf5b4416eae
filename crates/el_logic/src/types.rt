//! Expressions, axioms and interpretations.

use sqlite_items::{Boxed, Items};

/// A list, which contracts see as the list of its elements. A type may reach itself through it.
pub type ListOf<T> = Items<T>;

/// Numbers of names, rows or elements.
pub type Numbers = ListOf<u32>;

/// Pairs of elements, the first of which is related to the second.
pub type Pairs = ListOf<(u32, u32)>;

/// The members of each class, by the class's number.
pub type MemberLists = ListOf<Numbers>;

/// The pairs of each property, by the property's number.
pub type PairLists = ListOf<Pairs>;

/// Class expressions.
pub type Exprs = ListOf<Expr>;

/// Axioms, as those of a document.
pub type Axioms = ListOf<Axiom>;

/// A class expression over numbered class names and property names (OWL 2 structural specification,
/// section 8).
#[derive(Debug, Drop)]
pub enum Expr {
    /// `owl:Thing`
    Top,
    /// `owl:Nothing`
    Bottom,
    /// A class name.
    Name(u32),
    /// `ObjectIntersectionOf`
    And(Exprs),
    /// `ObjectSomeValuesFrom`, of a property and what it leads to.
    Exists(u32, Boxed<Expr>),
}

/// An axiom (OWL 2 structural specification, section 9).
#[derive(Debug, Drop)]
pub enum Axiom {
    /// `SubClassOf`, the lower one first.
    SubClass(Expr, Expr),
    /// `EquivalentClasses`
    Equivalent(Exprs),
    /// `DisjointClasses`
    Disjoint(Exprs),
    /// `SubObjectPropertyOf`, of a chain of one property or more.
    SubRole(Numbers, u32),
    /// `EquivalentObjectProperties`
    EquivalentRoles(Numbers),
    /// `TransitiveObjectProperty`
    Transitive(u32),
    /// `ReflexiveObjectProperty`
    Reflexive(u32),
    /// `ObjectPropertyDomain`
    Domain(u32, Expr),
}

/// An interpretation with a finite domain, the elements of which are the numbers below `size`.
#[derive(Debug, Drop)]
pub struct Interp {
    pub size: u32,
    pub classes: MemberLists,
    pub roles: PairLists,
}

/// One of the two ontologies.
#[derive(Clone, Copy, Debug, PartialEq, Eq)]
pub enum Side {
    Left,
    Right,
}

/// One ontology alone, or both together.
#[derive(Clone, Copy, Debug, PartialEq, Eq)]
pub enum Part {
    Left,
    Right,
    Both,
}

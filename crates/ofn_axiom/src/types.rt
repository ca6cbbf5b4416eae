//! Documents, and what their items say over IRIs.

use el_logic::{Axioms, Boxed, ListOf};
use ofn_heads::HeadId;
use text_names::{NameTable, Place, Text};

/// What is done with an axiom that is outside the fragment.
#[derive(Clone, Copy, Debug, PartialEq, Eq)]
pub enum Mode {
    /// It is a fault.
    Strict,
    /// It is left out, and listed.
    ElPart,
}

/// The class names and property names of the documents that are read so far, in order of first
/// occurrence. `owl:Thing` and `owl:Nothing` are none. The tables say how many they may hold.
#[derive(Debug, Drop)]
pub struct Names {
    pub classes: NameTable,
    pub roles: NameTable,
}

/// An axiom that is left out, at the head or property that is outside the fragment.
#[derive(Clone, Copy, Debug, PartialEq, Eq, Drop)]
pub struct Omitted {
    pub place: Place,
    pub head: HeadId,
}

/// Axioms that are left out, in order of the text.
pub type OmittedList = ListOf<Omitted>;

/// What a document says: its axioms in order of the text, over the numbers of its names, and what
/// is left out.
#[derive(Debug, Drop)]
pub struct Document {
    pub axioms: Axioms,
    pub omitted: OmittedList,
}

/// What is left out of each of two documents.
#[derive(Debug, Drop)]
pub struct SideOmitted {
    pub left: OmittedList,
    pub right: OmittedList,
}

pub type IriExprs = ListOf<IriExpr>;

pub type Texts = ListOf<Text>;

// A class expression over IRIs.
#[derive(Debug, Drop)]
pub enum IriExpr {
    Top,
    Bottom,
    Class(Text),
    And(IriExprs),
    Exists(Text, Boxed<IriExpr>),
}

// An axiom over IRIs.
#[derive(Debug, Drop)]
pub enum IriAxiom {
    SubClass(IriExpr, IriExpr),
    Equivalent(IriExprs),
    Disjoint(IriExprs),
    SubRole(Texts, Text),
    EquivalentRoles(Texts),
    Transitive(Text),
    Reflexive(Text),
    Domain(Text, IriExpr),
}

// What a direct item of an ontology says.
#[derive(Debug, Drop)]
pub enum Direct {
    Nothing,
    Class(Text),
    Property(Text),
    Axiom(IriAxiom),
}

// A name where it occurs.
#[derive(Debug, Drop)]
pub enum Mention {
    Class(Text),
    Property(Text),
}

pub type Mentions = ListOf<Mention>;

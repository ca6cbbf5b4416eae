//! Why no case was made.

ghost use Rattle.std.specs.Prelude.{◌≡◌};
ghost use Rattle.case_load.specs.Inside.Stops.{of_document, of_table, of_store};

use concept_store::StoreFault;
use el_logic::Side;
use io_edge::Role;
use ofn_axiom::{DocFault, DocKind, HeadId};
use sssom_rows::TableFault;
use text_names::Place;
use thiserror::Error;

/// What there is too much of.
#[derive(Clone, Copy, Debug, PartialEq, Eq)]
pub enum LimitKind {
    /// Bytes of a file.
    Bytes(Role),
    /// Open brackets at one place of an ontology.
    Depth(Side),
    /// Class names of both ontologies; the side is where the first one too many stands.
    Classes(Side),
    /// Property names of both ontologies; the side is where the first one too many stands.
    Properties(Side),
    /// Rows of the table.
    Rows,
    /// Nodes of the case.
    Nodes,
    /// Property names, and the proper fronts of property chains with two or more properties.
    Roles,
}

/// Why no case was made: the first reason. The files are read first, LEFT, RIGHT and MAP; then
/// their texts are, in the same order; then the nodes are counted, and then the roles.
#[derive(Clone, Copy, Debug, PartialEq, Eq, Error)]
pub enum LoadFault {
    /// The ontology is no document.
    #[error("an ontology: {kind}")]
    Syntax {
        side: Side,
        place: Place,
        kind: DocKind,
    },
    /// The mapping table is no table. Too many rows and memory are told by `Limit` and
    /// `OutOfMemory`.
    #[error("the table: {fault}")]
    Table {
        fault: TableFault,
    },
    /// The ontology has a head, or a property, that is outside the fragment.
    #[error("not in the profile")]
    Profile {
        side: Side,
        place: Place,
        head: HeadId,
    },
    #[error("a limit")]
    Limit {
        kind: LimitKind,
    },
    /// The system reported an error while this file was read, or there is no such file.
    #[error("a file was not read")]
    ReadFault {
        file: Role,
    },
    #[error("out of memory")]
    OutOfMemory,
}

/// The fault of a case that has an ontology with this fault.
pub fn of_document(side: Side, fault: DocFault) -> LoadFault
    ensures { result ≡ of_document side fault }
{
    match fault {
        DocFault::Syntax { place, kind } => LoadFault::Syntax { side, place, kind },
        DocFault::Profile { place, head } => LoadFault::Profile { side, place, head },
        DocFault::TooDeep => LoadFault::Limit {
            kind: LimitKind::Depth(side),
        },
        DocFault::TooManyClasses => LoadFault::Limit {
            kind: LimitKind::Classes(side),
        },
        DocFault::TooManyProperties => LoadFault::Limit {
            kind: LimitKind::Properties(side),
        },
        DocFault::OutOfMemory => LoadFault::OutOfMemory,
    }
}

/// The fault of a case whose table has this fault.
pub fn of_table(fault: TableFault) -> LoadFault
    ensures { result ≡ of_table fault }
{
    match fault {
        TableFault::TooManyRows => LoadFault::Limit {
            kind: LimitKind::Rows,
        },
        TableFault::OutOfMemory => LoadFault::OutOfMemory,
        _ => LoadFault::Table { fault },
    }
}

/// The fault of a case whose nodes and roles have this fault.
pub fn of_store(fault: StoreFault) -> LoadFault
    ensures { result ≡ of_store fault }
{
    match fault {
        StoreFault::Nodes => LoadFault::Limit {
            kind: LimitKind::Nodes,
        },
        StoreFault::Roles => LoadFault::Limit {
            kind: LimitKind::Roles,
        },
        StoreFault::OutOfMemory => LoadFault::OutOfMemory,
    }
}

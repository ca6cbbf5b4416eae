//! Documents in OWL 2 functional-style syntax: their axioms, names and faults.
#![tactic(auto)]

mod axioms;
mod classes;
mod document;
mod fault;
mod items;
mod laws;
mod marks;
mod numbers;
mod ontology;
mod read;
mod types;

pub use fault::{DocFault, DocKind};
pub use laws::{
    axioms_are_what_states_them, chains_are_what_stands_for_them, classes_are_what_stands_for_them,
    direct_items_are_what_they_say, documents_are_what_they_say, each_document_has_one_answer,
    el_parts_are_never_refused_for_the_profile, iris_are_what_tokens_stand_for,
    items_are_outside_where_they_say, properties_are_what_stands_for_them,
};
pub use ofn_heads::HeadId;
pub use read::read_document;
pub use types::{Document, Mode, Names, Omitted, OmittedList, SideOmitted};

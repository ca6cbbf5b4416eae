//! The axioms of a mapping table's rows, by their predicates.
#![tactic(auto)]

mod axioms;
mod laws;
mod names;
mod predicates;

pub use axioms::axioms_of_row;
pub use laws::{
    classes_are_found_first, few_axioms_with_numbers_in_range, inert_rows_have_no_axioms,
    predicates_are_told_apart, relations_have_their_direction,
};
pub use predicates::Relation;

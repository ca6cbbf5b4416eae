//! What is known of the names of documents, and of what is left out of them, beyond the reading.
#![tactic(auto)]

mod laws;

pub use laws::{loaded_names_are_iris, omitted_stand_in_order};

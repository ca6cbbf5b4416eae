//! One numbered case: two ontologies and the rows of a table over their nodes and roles.
#![tactic(auto)]

mod build;
mod case;
mod laws;
mod rows;
mod types;

pub use build::build_case;
pub use case::Case;
pub use laws::{
    cases_have_nodes, excusing_none_is_incoherence, models_have_readings,
    more_rows_stay_incoherent, rows_mean_the_same,
};
pub use types::{AxiomLists, CaseInput, NodeAxiomLists, NodeAxioms};

//! Derivations: lists of steps, each with the rule and the earlier steps that give its fact.
#![tactic(auto)]

mod checking;
mod laws;
mod premises;
mod rules;
mod saying;
mod tracing;
mod types;

pub use checking::check_derivation;
pub use laws::{
    derivations_have_one_answer, good_derivations_show_incoherence,
    good_derivations_stay_good_for_more_ranks, good_steps_are_true, reasons_name_earlier_places,
    traces_are_good,
};
pub use tracing::trace;
pub use types::{BadStep, Derivation, Step};

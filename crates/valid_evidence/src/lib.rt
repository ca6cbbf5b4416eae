//! When evidence is valid, and what valid evidence shows.
#![tactic(auto)]

mod laws;

pub use laws::{
    rows_have_their_ranks, valid_evidence_shows_the_repair, valid_refusals_show_incoherence,
};

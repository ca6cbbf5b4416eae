//! Closed tables of facts, and the models that they say.
#![tactic(auto)]

mod elements;
mod entries;
mod laws;
mod lists;
mod model;
mod table;

pub use laws::{
    a_closed_table_shows_coherence, a_model_shows_coherence, closed_facts_show_members,
    closed_tables_say_readings, what_a_closed_table_says_is_a_model,
};
pub use lists::{ordered_numbers, ordered_pairs};
pub use model::model_of;
pub use table::ClosedTable;

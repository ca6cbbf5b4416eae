//! The rules of saturation as steps over a list of facts: what each gives from the fact at a place.
#![tactic(auto)]

mod add;
mod disjoint;
mod grounds;
mod laws;
mod pairs;
mod parts;
mod placed;
mod single;
mod steps;
mod walks;

pub use grounds::Grounds;
pub use laws::{
    an_answered_place_is_closed, facts_closed_to_the_end_are_closed,
    facts_stand_where_their_items_do, further_rows_need_only_their_inclusions,
    growing_takes_nothing_away, rows_have_inclusions,
};
pub use steps::{answer, answer_rows, begin};

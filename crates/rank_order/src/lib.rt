//! Exact confidences, and the order of rows by their confidence.
#![tactic(auto)]

mod confidence;
mod decimal;
mod laws;
mod number;
mod order;
mod ranks;
#[cfg(test)]
mod tests;

pub use confidence::Confidence;
pub use laws::{
    before_is_tested, confidences_of_small_texts, decimals_are_read_as_spelled,
    equal_confidence_goes_by_row, ranking_has_each_row_once, ranking_lists_by_rank,
    ranks_of_three_rows, texts_stand_for_one_confidence,
};
pub use order::{RankKey, compare, rank};
pub use ranks::Ranks;

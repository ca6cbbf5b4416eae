//! The made case: three texts of any size, by one rule.
#![tactic(auto)]

mod laws;
mod lines;
#[cfg(test)]
mod tests;
mod texts;

pub use laws::{lines_follow_their_numbers, made_texts_are_short};
pub use texts::{Made, make};

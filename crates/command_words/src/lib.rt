//! The words of the two command lines: what they ask for, or that they are no command.
#![tactic(auto)]

mod check;
mod command;
mod laws;
mod names;
mod numbers;
mod reading;
mod repair;
#[cfg(test)]
mod tests;
mod types;

pub use check::read_check_words;
pub use laws::{commands_have_numbers_in_range, words_have_one_reading};
pub use repair::read_repair_words;
pub use types::{CheckWords, FileNames, Flag, Options, Program, RepairWords, Setting, WordsFault};

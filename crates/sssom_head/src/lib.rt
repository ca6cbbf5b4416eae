//! The header of a mapping table: its lines, and the prefixes that it declares.
#![tactic(auto)]

mod content;
mod entry;
mod head;
mod laws;
mod lines;
mod place;
mod reading;
#[cfg(test)]
mod tests;

pub use head::{Head, HeadFault, read_head};
pub use laws::{
    contents_are_told_apart, header_lines_are_the_front, header_prefixes_win, lines_are_the_text,
    one_entry_at_most, trimmed_text_ends_visibly, what_is_read_is_what_the_lines_say,
};
use place::MapPlace;

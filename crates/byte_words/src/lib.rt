//! Words on bytes for all crates above: fronts of texts, and the byte order mark.
#![tactic(auto)]

mod front;
mod laws;

pub use front::{without_front, without_mark};
pub use laws::{fronts_are_left_out, one_mark_is_left_out};

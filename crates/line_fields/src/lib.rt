//! Texts of lines, lines of fields, and numbers in decimal, read and written.
#![tactic(auto)]

mod cursor;
mod fields;
mod laws;
mod numbers;
mod pieces;
mod put;
#[cfg(test)]
mod tests;

pub use cursor::Cursor;
pub use fields::Fields;
pub use laws::{lines_are_what_is_written, numbers_are_decimal};
pub use numbers::{long_number, short_number};
pub use pieces::parted;
pub use put::{end_line, put_field, put_number};

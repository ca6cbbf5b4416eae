//! What is left of a book is decided by block tests, alone.
#![tactic(auto)]

mod finishing;
mod runs;

pub use finishing::finish;

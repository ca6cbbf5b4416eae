//! The book of a case: the core that decides its ranks, the journal of all that was told, and what
//! each decision rests on.
#![tactic(auto)]

mod answers;
mod book;
mod held;
mod laws;
mod telling;

pub use answers::{FrontAnswer, TakeAnswer, Taken};
pub use book::Book;
pub use laws::{books_are_sound, books_hold_a_repair, kept_ranks_stay_first};

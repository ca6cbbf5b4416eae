//! One case from two documents and a table, or the first reason why there is none.
#![tactic(auto)]

mod documents;
mod fault;
mod files;
mod laws;
mod rows;
mod table;
mod texts;

pub use documents::Documents;
pub use fault::{LimitKind, LoadFault};
pub use files::load;
pub use laws::{readings_are_over_their_names, texts_have_one_case_or_first_fault};
pub use texts::{Loaded, assemble};

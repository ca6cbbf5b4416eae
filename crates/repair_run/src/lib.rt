//! One run of the program: reads two ontologies and a table, and writes the table without the
//! accused rows.
#![tactic(auto)]

mod choosing;
mod commands;
mod laws;
mod loading;
mod made;
mod request;
mod run;
mod writing;

pub use commands::repair;
pub use laws::files_have_one_outcome;
pub use status_lines::Status;

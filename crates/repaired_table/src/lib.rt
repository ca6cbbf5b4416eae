//! The repaired text of a mapping table: its header and columns with the kept rows.
#![tactic(auto)]

mod laws;
#[cfg(test)]
mod tests;
mod write;

pub use laws::what_is_written_reads_again;
pub use write::write_table;

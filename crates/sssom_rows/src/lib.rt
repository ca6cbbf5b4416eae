//! Whole mapping tables in SSSOM/TSV: their records, columns and rows.
#![tactic(auto)]

mod column;
mod fault;
mod fields;
mod ids;
mod laws;
mod places;
mod records;
mod rows;
mod table;

pub use column::Column;
pub use fault::TableFault;
pub use fields::Fields;
pub use laws::{bytes_have_one_table_or_first_fault, columns_are_told_apart, ids_are_told_apart};
use places::Columns;
pub use table::{Row, Rows, Table, read_table};

//! Why bytes are the text of no table.

use crate::Column;
use sssom_head::HeadFault;
use thiserror::Error;

/// Why a table was not read: the first fault in the order of this list, and of rows the first
/// faulty row before all others. Rows are counted from 1, from the record after the columns; lines
/// are counted from 1.
#[derive(Clone, Copy, Debug, PartialEq, Eq, Error)]
pub enum TableFault {
    /// The header line has no form that its place in `curie_map` allows (`HeadFault::MapForm`).
    #[error("line {line}: curie_map form")]
    MapForm { line: u64 },
    /// The header line is an entry whose prefix has another IRI already.
    #[error("line {line}: prefix again")]
    Again { line: u64 },
    /// No record follows the header.
    #[error("no columns")]
    NoColumns,
    /// A field of the row is not UTF-8; row 0 is the record with the columns.
    #[error("row {row}: not UTF-8")]
    NotUtf8 { row: u32 },
    /// `subject_id`, `predicate_id` or `object_id` is no column.
    #[error("no column {column}")]
    ColumnMissing { column: Column },
    /// A column that is read stands more than once.
    #[error("column {column} twice")]
    ColumnTwice { column: Column },
    /// There are more rows than the caller allows.
    #[error("too many rows")]
    TooManyRows,
    /// The row has not as many fields as there are columns.
    #[error("row {row}: number of fields")]
    Ragged { row: u32 },
    /// An id of the row has no known prefix and is no IRI.
    #[error("row {row}: {column}")]
    Curie { row: u32, column: Column },
    /// The row's confidence is no decimal number from 0 to 1 with at most 36 places.
    #[error("row {row}: confidence")]
    Confidence { row: u32 },
    #[error("out of memory")]
    OutOfMemory,
}

ghost use Rattle.std.specs.Prelude.{◌≡◌};
ghost use Rattle.sssom_rows.specs.Faults.{of_header};

/// The fault of a table whose header has this fault.
pub(crate) fn of_header(fault: HeadFault) -> TableFault
    ensures { result ≡ of_header fault }
{
    match fault {
        HeadFault::MapForm { line } => TableFault::MapForm { line },
        HeadFault::Again { line } => TableFault::Again { line },
        HeadFault::OutOfMemory => TableFault::OutOfMemory,
    }
}

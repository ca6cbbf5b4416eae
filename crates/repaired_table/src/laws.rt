//! Laws on written tables: functions that do nothing and whose contracts are the laws.

ghost use Rattle.std.specs.Prelude.{ℕ, Bool, List};
ghost use Rattle.sssom_rows.specs.declared.table.Table.{Table};
ghost use Rattle.sssom_rows.specs.Tables.{IsTableText};
ghost use Rattle.repaired_table.specs.Repaired.{repaired_text, kept_table, BeginsPlainly};

use byte_words::one_mark_is_left_out;
use sssom_head::{header_lines_are_the_front, lines_are_the_text};

/// What is written of a table reads again, as a table with the same header, the same columns and
/// just the kept rows in their order, if the first column begins neither with `#` nor with a byte
/// order mark.
pub fn what_is_written_reads_again()
    ensures { (most : ℕ) (bytes : List ℕ) (table : Table) (keep : List Bool) →
        IsTableText most bytes table → BeginsPlainly table.columns →
        IsTableText most (repaired_text table keep) (kept_table table keep) }
{
    lines_are_the_text();
    header_lines_are_the_front();
    one_mark_is_left_out();
}

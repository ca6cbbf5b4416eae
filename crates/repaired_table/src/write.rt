//! Tables that are written.

ghost use Rattle.std.specs.Prelude.{◌≡◌, ◌++◌, ℕ, List, length, IfOk, OnOk};
ghost use Rattle.repaired_table.specs.Repaired.{record_text, kept, rows_text, repaired_text};
ghost use Rattle.repaired_table.specs.Inside.{HasWritten};

use csv::{Writer, WriterBuilder};
use sssom_rows::{Fields, Row, Table};
use std::alloc::{AllocError, Global};
use std::io::Write;
use text_names::Bytes;

/// The text of a table with some of its rows: the header lines as they are, the columns, and the
/// rows that are kept, in the order of the table. Row k is kept if the k-th truth value is true.
pub fn write_table(alloc: Global, table: &Table, keep: &[bool]) -> Result<Bytes, AllocError>
    requires { length keep.now ≡ length table.now.rows }
    ensures { IfOk result (λ bytes. bytes ≡ repaired_text table.now keep.now) }
{
    let head = Vec::from_slice(alloc, table.head.as_slice())?;
    let mut writer = WriterBuilder::new()
        .delimiter(b'\t')
        .flexible(true)
        .from_writer(head);
    write_row(&mut writer, &table.columns)?;
    write_rows(&mut writer, table.rows.as_slice(), keep)?;
    match writer.into_inner() {
        Ok(text) => Ok(Bytes::from_vec(text)),
        Err(_) => Err(AllocError),
    }
}

fn write_row<W: Write + Drop>(writer: &mut Writer<W>, fields: &Fields) -> Result<(), AllocError>
    ensures { OnOk result ((text : List ℕ) → HasWritten W.contents writer.old text
        → HasWritten W.contents writer.new (text ++ record_text fields.now)) }
{
    match writer.write_byte_record(fields.record()) {
        Ok(()) => {}
        Err(_) => return Err(AllocError),
    }
    Ok(())
}

fn write_rows<W: Write + Drop>(
    writer: &mut Writer<W>,
    rows: &[Row],
    keep: &[bool],
) -> Result<(), AllocError>
    requires { length keep.now ≡ length rows.now }
    ensures { OnOk result ((text : List ℕ) → HasWritten W.contents writer.old text
        → HasWritten W.contents writer.new (text ++ rows_text (kept keep.now rows.now))) }
{
    for place in 0..rows.len() {
        if keep[place] {
            match write_row(writer, &rows[place].fields) {
                Ok(()) => {}
                Err(fault) => return Err(fault),
            }
        }
    }
    Ok(())
}

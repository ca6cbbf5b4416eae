//! A whole table.

ghost use Rattle.std.specs.Prelude.{◌≡◌, ◌<◌, ◌^◌, length, IfOk};
ghost use Rattle.std.specs.Vec.Iter.{into_iter_items};
ghost use Rattle.sssom_rows.specs.Faults.{IsTableRead};
ghost use Rattle.sssom_rows.specs.Inside.Steps.{IsTableReadOf, AreRowsRead};

use crate::fault::of_header;
use crate::records::records_in;
use crate::rows::row_of;
use crate::{Columns, Fields, TableFault};
use byte_words::without_mark;
use rank_order::Confidence;
use sssom_head::read_head;
use std::alloc::Global;
use std::marker::Model;
use std::vec::IntoIter;
use text_names::{Bytes, PrefixMap, Text};

/// A row of a table: its fields as they are, and what is read of them.
#[derive(Debug, Drop)]
pub struct Row {
    pub fields: Fields,
    /// The IRI of `subject_id`; none if the field is empty.
    pub subject: Option<Text>,
    /// The IRI of `predicate_id`; none if the field is empty.
    pub predicate: Option<Text>,
    /// The IRI of `object_id`; none if the field is empty.
    pub object: Option<Text>,
    /// The confidence, which is 1 if the field is empty or there is no such column.
    pub confidence: Confidence,
    /// Whether `predicate_modifier` is not empty.
    pub modified: bool,
}

/// Rows in the order of the table. Contracts see the list.
#[derive(Debug, Drop)]
pub struct Rows {
    rows: Vec<Row>,
}

impl Model for Rows {
    ghost use Rattle.std.specs.Prelude.{List};
    ghost use Rattle.sssom_rows.specs.declared.table.Row.{Row};

    ghost Value = { List Row };

    ghost view = { λ r. r.rows.items };
}

impl Rows {
    /// The rows of a vector, without a copy.
    pub fn from_vec(rows: Vec<Row>) -> Self
        ensures { result ≡ rows.items }
    {
        Rows { rows }
    }

    pub fn as_slice(&self) -> &[Row]
        ensures { result.now ≡ self.now }
    {
        self.rows.as_slice()
    }
}

/// A table: its header lines as they are, the record with the columns, and the rows.
#[derive(Debug, Drop)]
pub struct Table {
    pub head: Bytes,
    pub columns: Fields,
    pub rows: Rows,
}

/// Reads the text of a table in SSSOM/TSV, in this project's profile. One byte order mark at the
/// start is no part of it. It may have so many rows at most. If it is the text of no table, the
/// fault is the first one, in the order of `TableFault`.
pub fn read_table(alloc: Global, bytes: &[u8], most_rows: u32) -> Result<Table, TableFault>
    requires { length bytes.now < 2 ^ 31 }
    ensures answer { IsTableRead most_rows bytes.now result }
    ensures fewer { IfOk result (λ table. length table.rows < length bytes.now) }
{
    let text = without_mark(bytes);
    let head = match read_head(alloc, text) {
        Ok(head) => head,
        Err(fault) => return Err(of_header(fault)),
    };
    let (front, rest) = text.split_at(head.length);
    let Ok(records) = records_in(alloc, rest) else {
        return Err(TableFault::OutOfMemory);
    };
    let Ok(front) = Bytes::copy_of(alloc, front) else {
        return Err(TableFault::OutOfMemory);
    };
    table_of(alloc, front, &head.prefixes, records, most_rows)
}

// The table with this header and these records.
fn table_of(
    alloc: Global,
    head: Bytes,
    prefixes: &PrefixMap,
    records: Vec<Fields>,
    most: u32,
) -> Result<Table, TableFault>
    requires { length records.items < 2 ^ 32 }
    ensures { IsTableReadOf most head prefixes.now records.items result }
{
    let mut records = records.into_iter();
    let Some(names) = records.next() else {
        return Err(TableFault::NoColumns);
    };
    let columns = Columns::of(names);
    match columns.fault() {
        Some(fault) => return Err(fault),
        None => {}
    }
    match rows_of(alloc, prefixes, &columns, records, most) {
        Ok(rows) => Ok(Table {
            head,
            columns: columns.into_names(),
            rows,
        }),
        Err(fault) => Err(fault),
    }
}

// The rows that these records are.
fn rows_of(
    alloc: Global,
    prefixes: &PrefixMap,
    columns: &Columns,
    records: IntoIter<Fields>,
    most: u32,
) -> Result<Rows, TableFault>
    requires { length (into_iter_items records) < 2 ^ 32 }
    ensures { AreRowsRead most prefixes.now columns.now (into_iter_items records) result }
{
    let Ok(mut rows) = Vec::with_capacity(alloc, records.len()) else {
        return Err(TableFault::OutOfMemory);
    };
    let mut number = 0u32;
    for fields in records {
        number += 1;
        match row_of(alloc, prefixes, columns, fields, number, most) {
            Ok(row) => match rows.push(row) {
                Ok(()) => {}
                Err(_) => return Err(TableFault::OutOfMemory),
            },
            Err(fault) => return Err(fault),
        }
    }
    Ok(Rows::from_vec(rows))
}

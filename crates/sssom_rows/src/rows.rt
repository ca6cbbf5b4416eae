//! The rows of a table.

ghost use Rattle.std.specs.Prelude.{◌≡◌, true, not, length, IfOk, IfSome, IfNone};
ghost use Rattle.sssom_head.specs.Contents.{is_empty_list};
ghost use Rattle.sssom_rows.specs.Records.{are_texts};
ghost use Rattle.sssom_rows.specs.Columns.{field_of};
ghost use Rattle.sssom_rows.specs.Ids.{id_in};
ghost use Rattle.sssom_rows.specs.Tables.{HasUnits};
ghost use Rattle.sssom_rows.specs.Faults.{HasNoUnits};
ghost use Rattle.sssom_rows.specs.Inside.Steps.{AreIdsRead, IsRowRead};

use crate::ids::id_in;
use crate::records::are_texts;
use crate::{Column, Columns, Fields, Row, TableFault};
use rank_order::Confidence;
use std::alloc::{AllocError, Global};
use text_names::{PrefixMap, Text};

/// The ids of a row, of which the empty ones are none.
#[derive(Drop)]
pub struct Ids {
    subject: Option<Text>,
    predicate: Option<Text>,
    object: Option<Text>,
}

fn id_at(
    alloc: Global,
    prefixes: &PrefixMap,
    columns: &Columns,
    fields: &Fields,
    column: Column,
) -> Result<Option<Option<Text>>, AllocError>
    requires { are_texts fields.now ≡ true }
    ensures { IfOk result (λ read.
        read ≡ id_in prefixes.now (field_of columns.now fields.now column)) }
{
    id_in(alloc, prefixes, columns.field(fields, column))
}

fn ids_of(
    alloc: Global,
    prefixes: &PrefixMap,
    columns: &Columns,
    fields: &Fields,
    row: u32,
) -> Result<Ids, TableFault>
    requires { are_texts fields.now ≡ true }
    ensures { AreIdsRead prefixes.now columns.now fields.now row result }
{
    let subject = match id_at(alloc, prefixes, columns, fields, Column::Subject) {
        Ok(Some(subject)) => subject,
        Ok(None) => return Err(TableFault::Curie {
            row,
            column: Column::Subject,
        }),
        Err(_) => return Err(TableFault::OutOfMemory),
    };
    let predicate = match id_at(alloc, prefixes, columns, fields, Column::Predicate) {
        Ok(Some(predicate)) => predicate,
        Ok(None) => return Err(TableFault::Curie {
            row,
            column: Column::Predicate,
        }),
        Err(_) => return Err(TableFault::OutOfMemory),
    };
    let object = match id_at(alloc, prefixes, columns, fields, Column::Object) {
        Ok(Some(object)) => object,
        Ok(None) => return Err(TableFault::Curie {
            row,
            column: Column::Object,
        }),
        Err(_) => return Err(TableFault::OutOfMemory),
    };
    Ok(Ids {
        subject,
        predicate,
        object,
    })
}

// The confidence that a text stands for; no text counts as 1.
fn confidence_of(text: &[u8]) -> Option<Confidence>
    ensures units { IfSome result (HasUnits text.now) }
    ensures none { IfNone result (HasNoUnits text.now) }
{
    if text.is_empty() {
        return Some(Confidence::from_units(1_000_000_000_000_000_000_000_000_000_000_000_000));
    }
    Confidence::read(text)
}

/// The row of this number, of which so many are allowed at most.
pub fn row_of(
    alloc: Global,
    prefixes: &PrefixMap,
    columns: &Columns,
    fields: Fields,
    row: u32,
    most: u32,
) -> Result<Row, TableFault>
    ensures { IsRowRead most prefixes.now columns.now row fields result }
{
    if row > most {
        return Err(TableFault::TooManyRows);
    }
    if fields.len() != columns.len() {
        return Err(TableFault::Ragged { row });
    }
    if !are_texts(&fields) {
        return Err(TableFault::NotUtf8 { row });
    }
    let ids = match ids_of(alloc, prefixes, columns, &fields, row) {
        Ok(ids) => ids,
        Err(fault) => return Err(fault),
    };
    let Some(confidence) = confidence_of(columns.field(&fields, Column::Confidence)) else {
        return Err(TableFault::Confidence { row });
    };
    let modified = !columns.field(&fields, Column::Modifier).is_empty();
    Ok(Row {
        fields,
        subject: ids.subject,
        predicate: ids.predicate,
        object: ids.object,
        confidence,
        modified,
    })
}

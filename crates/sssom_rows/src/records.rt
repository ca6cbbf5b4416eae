//! The records of a text between tabs.

ghost use Rattle.std.specs.Prelude.{◌≡◌, IfOk};
ghost use Rattle.std.specs.Str.{is_utf8};
ghost use Rattle.sssom_rows.specs.Records.{AreTabbed, are_texts};

use crate::Fields;
use csv::ReaderBuilder;
use std::alloc::{AllocError, Global};

/// Every record of a text, whatever the number of its fields. The text is in memory, so that any
/// error of `csv` is read as out of memory.
pub fn records_in(alloc: Global, text: &[u8]) -> Result<Vec<Fields>, AllocError>
    ensures { IfOk result (λ records. AreTabbed text.now records.items) }
{
    let reader = ReaderBuilder::new()
        .delimiter(b'\t')
        .has_headers(false)
        .flexible(true)
        .from_reader(alloc, text);
    let mut records = Vec::new(alloc);
    for record in reader.into_byte_records() {
        match record {
            Ok(record) => records.push(Fields::of(record))?,
            Err(_) => return Err(AllocError),
        }
    }
    Ok(records)
}

fn is_text(bytes: &[u8]) -> bool
    ensures { result ≡ is_utf8 bytes.now }
{
    match str::from_utf8(bytes) {
        Ok(_) => true,
        Err(_) => false,
    }
}

/// Whether each field is UTF-8.
pub fn are_texts(fields: &Fields) -> bool
    ensures { result ≡ are_texts fields.now }
{
    for place in 0..fields.len() {
        let Some(field) = fields.get(place) else {
            return false;
        };
        if !is_text(field) {
            return false;
        }
    }
    true
}

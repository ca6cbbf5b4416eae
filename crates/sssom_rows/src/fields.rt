//! The fields of a record.

ghost use Rattle.std.specs.Prelude.{◌≡◌, length, slice_get};
ghost use Rattle.std.specs.Option.{option_map};
ghost use Rattle.csv.specs.Records.{fields_of};

use csv::ByteRecord;
use std::marker::Model;

/// The fields of a record, which contracts see as a list of fields, each a list of bytes. They are
/// kept as one text with the places where fields end.
#[derive(Debug, Drop)]
pub struct Fields {
    record: ByteRecord,
}

impl Model for Fields {
    ghost use Rattle.std.specs.Prelude.{List, ℕ};
    ghost use Rattle.csv.specs.Records.{fields_of};

    ghost Value = { List (List ℕ) };

    ghost view = { λ f. fields_of f.record };
}

impl Fields {
    /// The fields of a record of `csv`, without a copy.
    pub fn of(row: ByteRecord) -> Self
        ensures { result ≡ fields_of row }
    {
        Fields { record: row }
    }

    /// The same fields as a record of `csv`.
    pub fn record(&self) -> &ByteRecord
        ensures { fields_of result.now ≡ self.now }
    {
        &self.record
    }

    pub fn len(&self) -> usize
        ensures { result ≡ length self.now }
    {
        self.record.len()
    }

    /// The field at a place, counted from 0.
    #[tactic(auto, using(crate::proofs::FieldLaws::field_at_is))]
    pub fn get(&self, place: usize) -> Option<&[u8]>
        ensures { option_map (λ field. field.now) result ≡ slice_get self.now place }
    {
        self.record.get(place)
    }
}

//! The record with the columns, and where the read columns stand in it.

ghost use Rattle.std.specs.Prelude.{◌≡◌, [], length, slice_index_or};
ghost use Rattle.sssom_rows.specs.Columns.{times, count_of, first_missing, first_twice, field_of};
ghost use Rattle.sssom_rows.specs.Inside.Places.{place_of, place_in, field_in, ArePlaces};
ghost use Rattle.sssom_rows.specs.Inside.Steps.{AreColumnsRead};

use crate::records::are_texts;
use crate::{Column, Fields, TableFault};
use std::marker::Model;

/// The places of the read columns, counted from 0.
#[derive(Clone, Copy, Debug, PartialEq, Eq)]
pub struct Places {
    subject: Option<usize>,
    predicate: Option<usize>,
    object: Option<usize>,
    confidence: Option<usize>,
    modifier: Option<usize>,
}

impl Places {
    fn of(&self, column: Column) -> Option<usize>
        ensures { result ≡ place_of self.now column }
    {
        match column {
            Column::Subject => self.subject,
            Column::Predicate => self.predicate,
            Column::Object => self.object,
            Column::Confidence => self.confidence,
            Column::Modifier => self.modifier,
        }
    }
}

/// The record with the columns. Contracts see the columns' names.
#[derive(Drop)]
pub struct Columns {
    names: Fields,
    places: Places,
}

impl Model for Columns {
    ghost use Rattle.std.specs.Prelude.{List, ℕ};
    ghost use Rattle.sssom_rows.specs.Inside.Places.{ArePlaces};

    ghost Value = { List (List ℕ) };

    ghost view = { λ c. c.names };

    ghost invariant = { λ c. ArePlaces c.names c.places };
}

impl Columns {
    pub fn of(names: Fields) -> Self
        ensures { result ≡ names }
    {
        let places = places_of(&names);
        Columns { names, places }
    }

    pub fn into_names(self) -> Fields
        ensures { result ≡ self }
    {
        self.names
    }

    pub fn len(&self) -> usize
        ensures { result ≡ length self.now }
    {
        self.names.len()
    }

    /// The field of a record in this column; no bytes if there is no such column.
    pub fn field<'a>(&self, fields: &'a Fields, column: Column) -> &'a [u8]
        ensures { result.now ≡ field_of self.now fields.now column }
    {
        field_in(self.places.of(column), fields)
    }

    /// What is wrong with the columns.
    pub fn fault(&self) -> Option<TableFault>
        ensures { AreColumnsRead self.now result }
    {
        if !are_texts(&self.names) {
            return Some(TableFault::NotUtf8 { row: 0 });
        }
        if let Some(column) = first_missing(&self.names) {
            return Some(TableFault::ColumnMissing { column });
        }
        if let Some(column) = first_twice(&self.names) {
            return Some(TableFault::ColumnTwice { column });
        }
        None
    }
}

fn field_in(place: Option<usize>, fields: &Fields) -> &[u8]
    ensures { result.now ≡ field_in place fields.now }
{
    match place {
        Some(place) => field_or_none(place, fields),
        None => b"",
    }
}

fn field_or_none(place: usize, fields: &Fields) -> &[u8]
    ensures { result.now ≡ slice_index_or fields.now place [] }
{
    match fields.get(place) {
        Some(field) => field,
        None => b"",
    }
}

fn place_in(name: &[u8], names: &Fields) -> Option<usize>
    ensures { result ≡ place_in name.now names.now }
{
    for place in 0..names.len() {
        let Some(found) = names.get(place) else {
            return None;
        };
        if name == found {
            return Some(place);
        }
    }
    None
}

fn places_of(names: &Fields) -> Places
    ensures { ArePlaces names.now result }
{
    Places {
        subject: place_in(Column::Subject.name().as_bytes(), names),
        predicate: place_in(Column::Predicate.name().as_bytes(), names),
        object: place_in(Column::Object.name().as_bytes(), names),
        confidence: place_in(Column::Confidence.name().as_bytes(), names),
        modifier: place_in(Column::Modifier.name().as_bytes(), names),
    }
}

fn times(name: &[u8], names: &Fields) -> usize
    ensures { result ≡ times name.now names.now }
{
    let mut count = 0;
    for place in 0..names.len() {
        let Some(found) = names.get(place) else {
            return 0;
        };
        if name == found {
            count += 1;
        }
    }
    count
}

fn count_of(names: &Fields, column: Column) -> usize
    ensures { result ≡ count_of names.now column }
{
    times(column.name().as_bytes(), names)
}

fn first_missing(names: &Fields) -> Option<Column>
    ensures { result ≡ first_missing names.now }
{
    if count_of(names, Column::Subject) == 0 {
        return Some(Column::Subject);
    }
    if count_of(names, Column::Predicate) == 0 {
        return Some(Column::Predicate);
    }
    if count_of(names, Column::Object) == 0 {
        return Some(Column::Object);
    }
    None
}

fn first_twice(names: &Fields) -> Option<Column>
    ensures { result ≡ first_twice names.now }
{
    if count_of(names, Column::Subject) > 1 {
        return Some(Column::Subject);
    }
    if count_of(names, Column::Predicate) > 1 {
        return Some(Column::Predicate);
    }
    if count_of(names, Column::Object) > 1 {
        return Some(Column::Object);
    }
    if count_of(names, Column::Confidence) > 1 {
        return Some(Column::Confidence);
    }
    if count_of(names, Column::Modifier) > 1 {
        return Some(Column::Modifier);
    }
    None
}

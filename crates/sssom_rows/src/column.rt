//! The columns of a table that are read.

ghost use Rattle.std.specs.Prelude.{◌≡◌};
ghost use Rattle.sssom_rows.specs.Columns.{column_name};

use std::fmt::{self, Display, Formatter, Write};

/// A column of a table that is read (SSSOM, "Mapping"). All others are passed on unread.
#[derive(Clone, Copy, Debug, PartialEq, Eq)]
pub enum Column {
    /// `subject_id`
    Subject,
    /// `predicate_id`
    Predicate,
    /// `object_id`
    Object,
    /// `confidence`, which may be missing.
    Confidence,
    /// `predicate_modifier`, which may be missing.
    Modifier,
}

impl Column {
    /// The name under which the column stands in a table.
    pub fn name(self) -> &'static str
        ensures { result.now ≡ column_name self }
    {
        match self {
            Column::Subject => "subject_id",
            Column::Predicate => "predicate_id",
            Column::Object => "object_id",
            Column::Confidence => "confidence",
            Column::Modifier => "predicate_modifier",
        }
    }
}

impl Display for Column {
    fn fmt<W: Write>(&self, f: &mut Formatter<W>) -> fmt::Result {
        f.write_str(self.name())
    }
}

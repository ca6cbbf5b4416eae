//! The fields of a line, one after another.

ghost use Rattle.std.specs.Prelude.{◌≡◌, [], ◌∷◌, MatchOption};
ghost use Rattle.line_fields.specs.Reading.{fields_of, long_in, short_in, is_end};

use crate::numbers::{long_number, short_number};
use crate::pieces::parted;
use std::marker::Model;

/// Fields of a line that are still to be read. Contracts see their list.
#[derive(Debug, Drop)]
pub struct Fields<'a> {
    text: &'a [u8],
    some: bool,
}

impl<'a> Model for Fields<'a> {
    ghost use Rattle.std.specs.Prelude.{if◌then◌else◌, []};
    ghost use Rattle.line_fields.specs.Lines.{Fields};
    ghost use Rattle.line_fields.specs.Reading.{fields_of};

    ghost Value = { Fields };

    ghost view = { λ f. if f.some then fields_of f.text.now else [] };
}

impl<'a> Fields<'a> {
    /// No fields.
    pub fn none() -> Fields<'a>
        ensures { result ≡ [] }
    {
        Fields {
            text: &[],
            some: false,
        }
    }

    /// The fields of a line.
    pub fn of(line: &'a [u8]) -> Fields<'a>
        ensures { result ≡ fields_of line.now }
    {
        Fields {
            text: line,
            some: true,
        }
    }

    /// The next field, and those after it.
    pub fn next(self) -> Option<(&'a [u8], Fields<'a>)>
        ensures { MatchOption result (self.entry ≡ []) (λ x. self.entry ≡ x.0.now ∷ x.1) }
    {
        if !self.some {
            return None;
        }
        match parted(self.text, b' ') {
            Some((field, rest)) => Some((field, Fields::of(rest))),
            None => Some((self.text, Fields::none())),
        }
    }

    /// The number of 64 bits that is the next field, and the fields after it.
    pub fn long(self) -> Option<(u64, Fields<'a>)>
        ensures { result ≡ long_in self.entry }
    {
        let (field, rest) = self.next()?;
        let number = long_number(field)?;
        Some((number, rest))
    }

    /// The number of 32 bits that is the next field, and the fields after it.
    pub fn short(self) -> Option<(u32, Fields<'a>)>
        ensures { result ≡ short_in self.entry }
    {
        let (field, rest) = self.next()?;
        let number = short_number(field)?;
        Some((number, rest))
    }

    /// Whether no field is left.
    pub fn is_end(&self) -> bool
        ensures { result ≡ is_end self.now }
    {
        !self.some
    }
}

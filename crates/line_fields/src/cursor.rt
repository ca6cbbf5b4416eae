//! A text, line by line.

ghost use Rattle.std.specs.Prelude.{◌≡◌, ◌≤◌, ◌+◌, [], ◌∷◌, MatchOption, IfSome, length};
ghost use Rattle.line_fields.specs.Reading.{lines_of, At};

use crate::fields::Fields;
use crate::pieces::parted;
use std::marker::Model;

/// A place between two lines of a text. Contracts see how many lines are read, and those that are
/// left.
#[derive(Debug, Drop)]
pub struct Cursor<'a> {
    text: &'a [u8],
    read: u64,
}

impl<'a> Model for Cursor<'a> {
    ghost use Rattle.std.specs.Prelude.{◌<◌, ◌+◌, ◌^◌, length};
    ghost use Rattle.line_fields.specs.Reading.{lines_of, At};

    ghost Value = { At };

    ghost view = { λ c. record { read = c.read; lines = lines_of c.text.now } };

    ghost invariant = { λ c. c.read + length c.text.now < 2 ^ 64 };
}

impl<'a> Cursor<'a> {
    /// The start of a text.
    pub fn new(text: &'a [u8]) -> Cursor<'a>
        ensures { result ≡ record { read = 0; lines = lines_of text.now } }
    {
        Cursor { text, read: 0 }
    }

    /// How many lines are read.
    pub fn read(&self) -> u64
        ensures { result ≡ self.now.read }
    {
        self.read
    }

    /// The fields of the next line, and the place after it. A line that is not ended has none.
    #[tactic(auto, using(crate::proofs::PieceLaws::first_line, crate::proofs::PieceLaws::open_line))]
    pub fn next(&self) -> Option<(Fields<'a>, Cursor<'a>)>
        ensures lines { let left = self.now.lines in
            MatchOption result (left ≡ []) (λ x. left ≡ x.0 ∷ x.1.lines) }
        ensures read { IfSome result (λ x. x.1.read ≡ self.now.read + 1) }
    {
        if self.text.is_empty() {
            return None;
        }
        match parted(self.text, b'\n') {
            Some((line, text)) => {
                let read = self.read + 1;
                Some((Fields::of(line), Cursor { text, read }))
            }
            None => {
                let read = self.read + 1;
                Some((Fields::none(), Cursor { text: &[], read }))
            }
        }
    }
}

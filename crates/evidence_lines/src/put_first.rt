//! Lines that begin a section, or end the text, and are written.

ghost use Rattle.std.specs.Prelude.{◌≡◌, ◌++◌, ◌∷◌, [], OnOk};
ghost use Rattle.line_fields.specs.Lines.{line};
ghost use Rattle.evidence_lines.specs.FirstLines.{version_fields, part_word, kind_fields, numbered, row_fields, end_fields};

use crate::types::Kind;
use el_logic::Part;
use line_fields::{end_line, put_field, put_number};
use std::alloc::AllocError;
use text_names::Bytes;

/// Puts a line of a word and a number.
pub fn put_numbered(text: &mut Bytes, word: &[u8], number: u64) -> Result<(), AllocError>
    ensures { OnOk result (text.new ≡ text.old ++ line (numbered word.now number)) }
{
    text.append(word)?;
    put_number(text, number)?;
    end_line(text)
}

// A line of one word.
fn put_word(text: &mut Bytes, word: &[u8]) -> Result<(), AllocError>
    ensures { OnOk result (text.new ≡ text.old ++ line (word.now ∷ [])) }
{
    text.append(word)?;
    end_line(text)
}

/// Puts the first line of a removed row.
pub fn put_row(text: &mut Bytes, row: u32, steps: u64) -> Result<(), AllocError>
    ensures { OnOk result (text.new ≡ text.old ++ line (row_fields row steps)) }
{
    text.append(b"row")?;
    put_number(text, u64::from(row))?;
    put_field(text, b"steps")?;
    put_number(text, steps)?;
    end_line(text)
}

fn part_word(part: Part) -> &'static [u8]
    ensures { result.now ≡ part_word part }
{
    match part {
        Part::Left => b"left",
        Part::Right => b"right",
        Part::Both => b"both",
    }
}

/// Puts the line of the kind.
pub fn put_kind(text: &mut Bytes, kind: Kind) -> Result<(), AllocError>
    ensures { OnOk result (text.new ≡ text.old ++ line (kind_fields kind)) }
{
    match kind {
        Kind::Diagnosis => put_word(text, b"diagnosis"),
        Kind::Refusal(part) => {
            text.append(b"refusal")?;
            put_field(text, part_word(part))?;
            end_line(text)
        }
    }
}

/// Puts the line of the version.
pub fn put_version(text: &mut Bytes) -> Result<(), AllocError>
    ensures { OnOk result (text.new ≡ text.old ++ line version_fields) }
{
    text.append(b"alod evidence 1\n")
}

/// Puts the last line.
pub fn put_end(text: &mut Bytes) -> Result<(), AllocError>
    ensures { OnOk result (text.new ≡ text.old ++ line end_fields) }
{
    text.append(b"end\n")
}

//! The lines that begin a section, or end the text.

ghost use Rattle.std.specs.Prelude.{◌≡◌, IsSome, ◌↔◌, IsTrue};
ghost use Rattle.std.specs.Option.{is_some};
ghost use Rattle.std.specs.List.{list_all};
ghost use Rattle.byte_words.specs.Bytes.{is_digit};
ghost use Rattle.evidence_lines.specs.Model.{after_word, number_follows};
ghost use Rattle.evidence_lines.specs.FirstLines.{word_of, version_of, is_other_number, names_other, is_other_version, part_named, refusal_of, kind_of, count_of, size_of, row_of, end_of};

use crate::model::{after_word, number_follows};
use crate::types::Kind;
use el_logic::Part;
use line_fields::Fields;

/// Whether the line says this version.
pub fn is_version(fields: Fields<'_>) -> bool
    ensures { result ≡ is_some (version_of fields.entry) }
{
    let Some(rest) = after_word(b"alod", fields) else {
        return false;
    };
    let Some(rest) = after_word(b"evidence", rest) else {
        return false;
    };
    let Some(rest) = after_word(b"1", rest) else {
        return false;
    };
    rest.is_end()
}

fn are_digits(bytes: &[u8]) -> bool
    ensures { result ≡ list_all is_digit bytes.now }
{
    bytes.iter().all(|byte| byte.is_ascii_digit())
}

fn is_other_number(field: &[u8]) -> bool
    ensures { result ≡ is_other_number field.now }
{
    !field.is_empty() && are_digits(field) && field != b"1".as_slice()
}

fn names_other(alod: &[u8], evidence: &[u8], number: &[u8]) -> bool
    ensures { result ≡ names_other alod.now evidence.now number.now }
{
    alod == b"alod".as_slice() && evidence == b"evidence".as_slice() && is_other_number(number)
}

/// Whether the line says another version.
pub fn is_other_version(fields: Fields<'_>) -> bool
    ensures { result ≡ is_other_version fields.entry }
{
    let Some((alod, fields)) = fields.next() else {
        return false;
    };
    let Some((evidence, fields)) = fields.next() else {
        return false;
    };
    let Some((number, fields)) = fields.next() else {
        return false;
    };
    if fields.is_end() {
        names_other(alod, evidence, number)
    } else {
        false
    }
}

fn part_named(word: &[u8]) -> Option<Part>
    ensures { result ≡ part_named word.now }
{
    if word == b"left".as_slice() {
        return Some(Part::Left);
    }
    if word == b"right".as_slice() {
        return Some(Part::Right);
    }
    if word == b"both".as_slice() {
        return Some(Part::Both);
    }
    None
}

fn refusal_of(fields: Fields<'_>) -> Option<Kind>
    ensures { result ≡ refusal_of fields.entry }
{
    let (word, rest) = fields.next()?;
    let part = part_named(word)?;
    if rest.is_end() {
        Some(Kind::Refusal(part))
    } else {
        None
    }
}

/// The kind that the line says.
pub fn kind_of(fields: Fields<'_>) -> Option<Kind>
    ensures { result ≡ kind_of fields.entry }
{
    let (word, rest) = fields.next()?;
    if word == b"diagnosis".as_slice() {
        return if rest.is_end() {
            Some(Kind::Diagnosis)
        } else {
            None
        };
    }
    if word == b"refusal".as_slice() {
        return refusal_of(rest);
    }
    None
}

/// How many entries the first line of a section says.
pub fn count_of(word: &[u8], fields: Fields<'_>) -> Option<u64>
    ensures { result ≡ count_of word.now fields.entry }
{
    let rest = after_word(word, fields)?;
    let (count, rest) = rest.long()?;
    if rest.is_end() { Some(count) } else { None }
}

/// The size of the model.
pub fn size_of(fields: Fields<'_>) -> Option<u32>
    ensures { result ≡ size_of fields.entry }
{
    let rest = after_word(b"model", fields)?;
    let (size, rest) = rest.short()?;
    if rest.is_end() { Some(size) } else { None }
}

/// The number of a removed row that comes after this one, and how many steps follow.
pub fn row_of(before: Option<u32>, fields: Fields<'_>) -> Option<(u32, u64)>
    ensures { result ≡ row_of before fields.entry }
{
    let rest = after_word(b"row", fields)?;
    let (row, rest) = rest.short()?;
    let rest = after_word(b"steps", rest)?;
    let (steps, rest) = rest.long()?;
    if !rest.is_end() {
        return None;
    }
    if number_follows(before, row) {
        Some((row, steps))
    } else {
        None
    }
}

/// Whether the line says the end.
pub fn is_last(fields: Fields<'_>) -> bool
    ensures { result ≡ is_some (end_of fields.entry) }
{
    let Some(rest) = after_word(b"end", fields) else {
        return false;
    };
    rest.is_end()
}

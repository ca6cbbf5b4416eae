//! Lines of a model.

ghost use Rattle.std.specs.Prelude.{◌≡◌, ◌+◌, ◌≤◌, ◌<◌, ◌^◌, IfOk, IfSome, None, Some};
ghost use Rattle.std.specs.Option.{option_map};
ghost use Rattle.evidence_lines.specs.Model.{elements_in, pair_in, pairs_in, after_number, after_word, members_of, pairs_of, number_follows, is_pair_before, pair_follows};

use el_logic::{Numbers, Pairs};
use line_fields::{Fields, short_number};
use std::alloc::{AllocError, Global};

/// The fields after this word, if it is the first.
pub fn after_word<'a>(word: &[u8], fields: Fields<'a>) -> Option<Fields<'a>>
    ensures { result ≡ after_word word.now fields.entry }
{
    let (field, rest) = fields.next()?;
    if field == word { Some(rest) } else { None }
}

fn after_number(number: u64, fields: Fields<'_>) -> Option<Fields<'_>>
    ensures rest { result ≡ after_number number fields.entry }
    ensures small { IfSome result (λ rest. number < 2 ^ 32) }
{
    let (found, rest) = fields.short()?;
    if u64::from(found) == number {
        Some(rest)
    } else {
        None
    }
}

/// Whether the number may follow this one in an ascending list.
pub fn number_follows(before: Option<u32>, number: u32) -> bool
    ensures { result ≡ number_follows before number }
{
    match before {
        None => true,
        Some(before) => before < number,
    }
}

fn elements_in(alloc: Global, fields: Fields<'_>) -> Result<Option<Numbers>, AllocError>
    ensures { IfOk result (λ elements. elements ≡ elements_in None fields.entry) }
{
    let mut elements = Numbers::new(alloc);
    let mut before = None;
    let mut rest = fields;
    while let Some((field, after)) = rest.next() {
        let Some(element) = short_number(field) else {
            return Ok(None);
        };
        if !number_follows(before, element) {
            return Ok(None);
        }
        elements.push(element)?;
        before = Some(element);
        rest = after;
    }
    Ok(Some(elements))
}

/// The members of the class with this place, from 0, in a line with these fields.
#[tactic(auto, unfolding(crate::specs::Model::members_of))]
pub fn members_of(
    alloc: Global,
    place: u64,
    fields: Fields<'_>,
) -> Result<Option<Numbers>, AllocError>
    requires { place + 2 < 2 ^ 64 }
    ensures members { IfOk result (λ members. members ≡ members_of place fields.entry) }
    ensures small { IfOk result (λ found. IfSome found (λ members. place + 2 < 2 ^ 32)) }
{
    let Some(numbered) = after_word(b"class", fields) else {
        return Ok(None);
    };
    let Some(rest) = after_number(place + 2, numbered) else {
        return Ok(None);
    };
    elements_in(alloc, rest)
}

fn is_pair_before(pair: (u32, u32), other: (u32, u32)) -> bool
    ensures { result ≡ is_pair_before pair other }
{
    pair.0 < other.0 || (pair.0 == other.0 && pair.1 < other.1)
}

fn pair_follows(before: Option<(u32, u32)>, pair: (u32, u32)) -> bool
    ensures { result ≡ pair_follows before pair }
{
    match before {
        None => true,
        Some(before) => is_pair_before(before, pair),
    }
}

fn pairs_in(alloc: Global, fields: Fields<'_>) -> Result<Option<Pairs>, AllocError>
    ensures { IfOk result (λ pairs. pairs ≡ pairs_in None fields.entry) }
{
    let mut pairs = Pairs::new(alloc);
    let mut before = None;
    let mut rest = fields;
    while let Some((field, after)) = rest.next() {
        let Some(pair) = pair_of(field, after) else {
            return Ok(None);
        };
        let ((a, b), after) = pair;
        if !pair_follows(before, (a, b)) {
            return Ok(None);
        }
        pairs.push((a, b))?;
        before = Some((a, b));
        rest = after;
    }
    Ok(Some(pairs))
}

// A pair, the first number of which is this field.
fn pair_of<'a>(field: &[u8], fields: Fields<'a>) -> Option<((u32, u32), Fields<'a>)>
    ensures { result ≡ pair_in field.now fields.entry }
{
    let (next, rest) = fields.next()?;
    let a = short_number(field)?;
    let b = short_number(next)?;
    Some(((a, b), rest))
}

/// The pairs of the property with this place, from 0, in a line with these fields.
#[tactic(auto, unfolding(crate::specs::Model::pairs_of))]
pub fn pairs_of(alloc: Global, place: u64, fields: Fields<'_>) -> Result<Option<Pairs>, AllocError>
    ensures pairs { IfOk result (λ pairs. pairs ≡ pairs_of place fields.entry) }
    ensures small { IfOk result (λ found. IfSome found (λ pairs. place < 2 ^ 32)) }
{
    let Some(numbered) = after_word(b"role", fields) else {
        return Ok(None);
    };
    let Some(rest) = after_number(place, numbered) else {
        return Ok(None);
    };
    pairs_in(alloc, rest)
}
